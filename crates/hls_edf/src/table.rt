// The table of the servers of a box.
ghost use Rattle.hls_chron.specs.Ranges.{most_slots};
ghost use Rattle.std.specs.Prelude.{◌≡◌, [], IfOk, IfSome, IsNone, length, replicate};
ghost use Rattle.std.specs.Borrow.{Array, Lends, LendsIf, sem};
ghost use Rattle.hls_book.specs.Servers as laws;
ghost use Rattle.hls_book.specs.contracts.server.Server.{the_row as server_row};
ghost use Rattle.hls_edf.specs.contracts.table.Table.{the_row};

use crate::server::vacant;
use crate::servers::Servers;
use std::alloc::{AllocError, Global};
use std::marker::Model;

/// The servers of the slots. There are none at first, so that a box that is not set up takes no room for them.
#[derive(Drop)]
pub struct Table {
    alloc: Global,
    servers: Option<Box<Servers>>,
}

impl Model for Table {
    ghost use Rattle.std.specs.Prelude.{List};
    ghost use Rattle.hls_book.specs.declared.server.Server.{Server};
    ghost use Rattle.hls_edf.specs.Inside.Table.{servers_there};

    ghost Value = { List Server };

    ghost view = { λ t. servers_there t.servers };
}

impl Table {
    /// No servers. Takes no memory.
    pub fn none(alloc: Global) -> Table
        ensures { result ≡ [] }
    {
        Table {
            alloc,
            servers: None,
        }
    }

    /// Others, of slots that are all free.
    ///
    /// # Errors
    /// Returns `AllocError` for want of memory.
    pub fn vacant(&self) -> Result<Table, AllocError>
        ensures { IfOk result (λ table. table ≡ replicate most_slots laws.vacant) }
    {
        let alloc = self.alloc;
        let servers = Box::new(alloc, [vacant(); 32])?;
        Ok(Table {
            alloc,
            servers: Some(servers),
        })
    }

    /// The servers, where there are some.
    #[inline]
    pub fn get(&self) -> &Servers
        requires { length self.now ≡ most_slots }
        ensures { result.now ≡ self.now }
    {
        match &self.servers {
            Some(servers) => servers,
            None => unreachable!(),
        }
    }

    /// The servers, to be changed, if there are some.
    #[inline]
    fn found(&mut self) -> Option<&mut Servers>
        ensures* writes_back { sem 𝓛 (LendsIf the_row (Array server_row 32) self.entry result (λ w. w) self.old) }
        ensures some { IfSome result (λ servers. servers.now ≡ self.old) }
        ensures none { IsNone result → self.old ≡ [] }
    {
        if let Some(servers) = &mut self.servers {
            return Some(&mut **servers);
        }
        None
    }

    /// The servers, to be changed, where there are some.
    #[inline]
    pub fn get_mut(&mut self) -> &mut Servers
        requires { length self.old ≡ most_slots }
        ensures* writes_back { sem 𝓛 (Lends the_row (Array server_row 32) self.entry result (λ w. w)) }
        ensures value { result.now ≡ self.old }
    {
        match self.found() {
            Some(servers) => servers,
            None => unreachable!(),
        }
    }
}
