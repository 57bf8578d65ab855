// Bursts that wakes began.
ghost use Rattle.std.specs.Prelude.{◌≡◌, ◌<◌, ◌+◌, ◌^◌, ℕ, Option, Some};
ghost use Rattle.hls_core.specs.declared.begun.Release.{Release};
ghost use Rattle.hls_core.specs.Begun.{begun_by, release_by, next_by, released_by, released};

/// The next release of a periodic wake.
#[derive(Clone, Copy)]
pub struct Release {
    /// Its tick.
    pub tick: u32,
    /// For how many ticks it is.
    pub burst: u32,
    /// After how many ticks there is another.
    pub every: u32,
}

/// A burst that a wake began.
#[derive(Clone, Copy)]
pub struct Begun {
    /// How many of its ticks are left.
    pub left: u32,
    /// The next release of the wake, if it has more than one.
    pub next: Option<Release>,
}

/// The next release of a wake that comes in a tick.
fn release_of(every: Option<u32>, burst: u32, now: u32) -> Option<Release>
    requires fits { (period : ℕ) → every ≡ Some period → now + period < 2 ^ 32 }
    ensures { result ≡ release_by every burst now }
{
    match every {
        None => None,
        Some(period) => Some(Release {
            tick: now + period,
            burst,
            every: period,
        }),
    }
}

impl Begun {
    /// What a wake begins in a tick.
    pub fn of(every: Option<u32>, burst: Option<u32>, now: u32) -> Option<Begun>
        requires fits { (period : ℕ) → every ≡ Some period → now + period < 2 ^ 32 }
        ensures { result ≡ begun_by every burst now }
    {
        match burst {
            None => None,
            Some(ticks) => Some(Begun {
                left: ticks,
                next: release_of(every, ticks, now),
            }),
        }
    }
}

/// The burst after a release in a tick, which is the next one of its wake or not.
fn released_by(begun: Begun, release: Release, now: u32) -> Begun
    requires fits { release.tick ≡ now → release.tick + release.every < 2 ^ 32 }
    ensures { result ≡ released_by now release begun }
{
    if release.tick != now {
        return begun;
    }
    Begun {
        left: release.burst,
        next: Some(Release {
            tick: now + release.every,
            burst: release.burst,
            every: release.every,
        }),
    }
}

/// The burst after the releases of a tick: whole, where one of them is its own.
pub fn released(begun: Option<Begun>, now: u32) -> Option<Begun>
    requires fits { (release : Release) → next_by begun ≡ Some release → release.tick ≡ now →
        release.tick + release.every < 2 ^ 32 }
    ensures { result ≡ released now begun }
{
    match begun {
        None => None,
        Some(begun) => match begun.next {
            None => Some(begun),
            Some(release) => Some(released_by(begun, release, now)),
        },
    }
}
