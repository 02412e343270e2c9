//! How a run ends.
ghost use Rattle.std.specs.Prelude.{◌≡◌};
ghost use Rattle.run_core.specs.Run.{status_number};

/// How a run ends: each line has a result, or some have none; the arguments are in no form; a read failed, a
/// write failed, memory ran out, the input is larger than the limit, or its text is out of form.
#[derive(Clone, Copy, Debug, PartialEq, Eq)]
pub enum Status {
    Done,
    Mixed,
    Words,
    ReadFault,
    WriteFault,
    Memory,
    TooLarge,
    BadText,
}

impl Status {
    /// The number of the status, from 0, with which the program exits.
    pub fn number(self) -> u8
        ensures { result ≡ status_number self }
    {
        match self {
            Status::Done => 0,
            Status::Mixed => 1,
            Status::Words => 2,
            Status::ReadFault => 3,
            Status::WriteFault => 4,
            Status::Memory => 5,
            Status::TooLarge => 6,
            Status::BadText => 7,
        }
    }
}
