// The jobs that words release.
ghost use Rattle.std.specs.Prelude.{◌≡◌, ◌+◌, ◌<◌, ◌++◌, drop, IfOk, OnOk, length};
ghost use Rattle.hls_legal.specs.Accounts.{end_by};
ghost use Rattle.hls_view_jobs.specs.Jobs.{release_of, releases, until};

use crate::job::{Release, Sort, Word};
use std::alloc::{AllocError, Global};

impl Release {
    /// The tick of the next word, or else the horizon.
    pub(crate) fn until(&self, horizon: u32) -> u32
        ensures { result ≡ until horizon self.now }
    {
        match self.next {
            Some(word) => word.tick,
            None => horizon,
        }
    }
}

/// Puts what a word releases behind all others.
fn add(releases: &mut Vec<Release>, word: &Word, next: Option<Word>) -> Result<(), AllocError>
    ensures { OnOk result (releases.new.items ≡ releases.old.items ++ release_of word.now.tick word.now.sort next) }
{
    if let Sort::Wakes { burst: Some(asked) } = word.sort {
        releases.push(Release {
            tick: word.tick,
            asked,
            next,
        })?;
    }
    Ok(())
}

/// The jobs that these words on a thread release.
///
/// # Errors
/// Returns `AllocError` for want of memory.
pub(crate) fn releases_of(alloc: Global, words: &[Word]) -> Result<Vec<Release>, AllocError>
    ensures { IfOk result (λ all. all.items ≡ releases words.now) }
{
    let mut all = Vec::new(alloc);
    for at in 0..words.len() {
        let next = match words.get(at + 1) {
            Some(word) => Some(*word),
            None => None,
        };
        add(&mut all, &words[at], next)?;
    }
    Ok(all)
}
