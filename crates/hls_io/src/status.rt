ghost use Rattle.std.specs.Prelude.{◌≡◌};
ghost use Rattle.hls_io.specs.Status.{code_of};

/// How a run of the program ended.
#[derive(Clone, Copy, Debug, PartialEq, Eq)]
pub enum Status {
    /// The work is done, and the whole output is written.
    Done,
    /// The report that was checked breaks a clause of the audit.
    Broken,
    /// The words are none that the program knows.
    Usage,
    /// The text that was read is outside its grammar.
    RefusedText,
    /// A read failed.
    ReadFault,
    /// A write failed, and only a part of the output is written.
    WriteFault,
    /// There was no memory for the work.
    Memory,
    /// More bytes came than the program takes.
    TooLong,
}

impl Status {
    /// The exit status of the process.
    pub fn code(self) -> u8
        ensures { result ≡ code_of self }
    {
        match self {
            Status::Done => 0,
            Status::Broken => 1,
            Status::Usage => 2,
            Status::RefusedText => 3,
            Status::ReadFault => 4,
            Status::WriteFault => 5,
            Status::Memory => 6,
            Status::TooLong => 7,
        }
    }
}
