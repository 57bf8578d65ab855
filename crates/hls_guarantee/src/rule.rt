// The names of the rules by which one guarantee is converted into another.

/// The name of a conversion rule.
#[derive(Clone, Copy, Debug, PartialEq, Eq)]
pub enum RuleName {
    /// Less of the same type is promised.
    R1,
    /// A hard reservation is a soft one.
    R2,
    /// A reservation by blocks is one by longer sliding windows.
    R3,
    /// A reservation by blocks is a share with an error.
    R4,
    /// A reservation by sliding windows is a share with an error.
    R5,
    /// A share with an error is a soft reservation.
    R6,
    /// A reservation by sliding windows is one by blocks.
    R7,
    /// All ticks are any soft reservation and any share.
    R8,
    /// Anything is nothing.
    R9,
    /// A reservation by blocks is one by longer sliding windows, the shorter the less of its budget is promised.
    R10,
    /// A reservation by sliding windows is one of a multiple of its budget, by windows of as many periods.
    R11,
}
