// What the words of a command line ask for.

/// What the program is to do.
#[derive(Clone, Copy, Debug, PartialEq, Eq)]
pub enum Job {
    /// To read a scenario and write its report, with derivations of at most so many conversions, 0 to 6,
    /// where the scenario states no depth itself.
    Run { depth: u8 },
    /// To read a report and write what its audit comes to.
    Check,
    /// To write the scenario that is made from a number.
    Gen { number: u32 },
    /// To carry the scenario of a number out, to audit its report, and to write a summary.
    Trial { number: u32 },
}
