// Paths that were told of late.
ghost use Rattle.std.specs.Prelude.{◌≡◌, ◌≤◌, ◌^◌, IfOk, IfSome, length, slice_set};

use hls_chron::Name;
use hls_report_text::Path;
use indexmap::IndexSet;
use std::alloc::{AllocError, Global};

/// How many paths are kept.
const MOST: usize = 256;

/// A path, or `None` for `idle`, and the words that told it.
#[derive(Clone, Copy, Debug)]
pub struct Told<'a> {
    pub words: &'a [u8],
    pub path: Option<Path>,
}

/// The names of the paths so far, each once by first use, and paths that were told of late, each at the place
/// of its words.
#[derive(Debug, Drop)]
pub struct Known<'a> {
    pub names: IndexSet<Name>,
    pub recent: Vec<Told<'a>>,
}

/// The place of words among recent paths: a sum that few of them share.
pub fn place_of(words: &[u8]) -> u8 {
    let mut sum = 0u8;
    for letter in words {
        sum = sum.wrapping_mul(31).wrapping_add(*letter);
    }
    sum
}

impl<'a> Known<'a> {
    ghost use Rattle.hls_report.specs.Inside.RunLines.{AreRecent, IsPathTold};

    /// No names, and no paths but `idle`.
    pub fn new(alloc: Global) -> Result<Known<'a>, AllocError>
        ensures names { IfOk result (λ known. length known.names.keys ≡ 0) }
        ensures recent { IfOk result AreRecent }
    {
        let idle = Told {
            words: b"idle".as_slice(),
            path: None,
        };
        Ok(Known {
            names: IndexSet::new(alloc),
            recent: vec![in alloc; idle; MOST]?,
        })
    }

    /// The path that these words told of late.
    pub fn path_at(&self, place: u8, words: &[u8]) -> Option<Option<Path>>
        ensures { IfSome result (λ path. AreRecent self.now →
            IsPathTold self.now.names.keys self.now.names.keys words.now path) }
    {
        match self.recent.get(usize::from(place)) {
            Some(told) => {
                if told.words == words {
                    Some(told.path)
                } else {
                    None
                }
            }
            None => None,
        }
    }

    /// Keeps a path in place of what was told at its place before.
    pub fn keep(&mut self, place: u8, told: Told<'a>)
        ensures names { self.new.names ≡ self.old.names }
        ensures recent { self.new.recent.items ≡ slice_set self.old.recent.items place told.entry }
    {
        if let Some(kept) = self.recent.get_mut(usize::from(place)) {
            *kept = told;
        }
    }
}
