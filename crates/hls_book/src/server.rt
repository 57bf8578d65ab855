// The server of a slot, as plain data.

/// What a slot may claim: a reservation of `x` ticks in every `y`, which costs so many parts of the
/// processor, has so many ticks of budget left up to a deadline, a tick. It has asked where it asked in the
/// tick before and was neither seated nor settled since. All is 0 for a slot that is free (after Abeni and
/// Buttazzo 1998, in whole ticks).
#[derive(Clone, Copy, Debug, PartialEq, Eq)]
pub struct Server {
    pub x: u32,
    pub y: u32,
    pub parts: u64,
    pub budget: u32,
    pub deadline: u64,
    pub asked: bool,
}
