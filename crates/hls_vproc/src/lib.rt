//! Virtual processors: what a seat is lent of the processor (after Regehr 2001).
#![tactic(auto)]

ghost use Rattle.std.specs.Prelude.{◌≡◌, ◌≢◌};
ghost use Rattle.hls_vproc.specs.declared.State.{State};
ghost use Rattle.hls_vproc.specs.declared.State.TheVariants.{Released, Waiting, Running};

use std::marker::Model;

/// What stands between one who asks for the processor and the scheduler that lends it.
#[derive(Clone, Copy, Debug, PartialEq, Eq)]
pub enum State {
    /// It does not ask.
    Released,
    /// It asks, and is not granted.
    Waiting,
    /// It asks, and is granted.
    Running,
}

/// A virtual processor. Contracts see it as its state. No call takes memory.
#[derive(Clone, Copy, Debug, PartialEq, Eq)]
pub struct Vproc {
    state: State,
}

impl Model for Vproc {
    ghost use Rattle.hls_vproc.specs.declared.State.{State};

    ghost Value = { State };

    ghost view = { λ v. v.state };

    ghost inverse = { λ state. record { state = state } };
}

impl Vproc {
    /// A virtual processor of one who does not ask.
    pub fn new() -> Vproc
        ensures { result ≡ Released }
    {
        Vproc {
            state: State::Released,
        }
    }

    /// The state.
    pub fn state(&self) -> State
        ensures { result ≡ self.now }
    {
        self.state
    }

    /// It asks from now on.
    pub fn request(&mut self)
        requires { self.old ≡ Released }
        ensures { self.new ≡ Waiting }
    {
        self.state = State::Waiting;
    }

    /// It gives the asking up, and the processor with it where it was granted.
    pub fn release(&mut self)
        requires { self.old ≢ Released }
        ensures { self.new ≡ Released }
    {
        self.state = State::Released;
    }

    /// It is granted the processor.
    pub fn grant(&mut self)
        requires { self.old ≡ Waiting }
        ensures { self.new ≡ Running }
    {
        self.state = State::Running;
    }

    /// The processor is taken back, and it waits.
    pub fn revoke(&mut self)
        requires { self.old ≡ Running }
        ensures { self.new ≡ Waiting }
    {
        self.state = State::Waiting;
    }
}
