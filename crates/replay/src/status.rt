ghost use Rattle.std.specs.Prelude.{◌≡◌};
ghost use Rattle.replay.specs.Status.{code_of};

use script::Refusal;

/// How a call of the program ended.
#[derive(Clone, Copy, Debug, PartialEq, Eq)]
pub enum Status {
    /// All was done and written.
    Fine,
    /// The words have none of the forms.
    Usage,
    /// The input is no script.
    Refused(Refusal),
    ReadFault,
    WriteFault,
    /// At this line of the script false bytes opened: a forged frame that was never sent, a changed
    /// frame, or a wrong answer of the store.
    Opened(u32),
    OutOfMemory,
}

impl Status {
    /// The status with which the program ends.
    pub fn code(&self) -> u8
        ensures { result ≡ code_of self.now }
    {
        match self {
            Status::Fine => 0,
            Status::Usage => 1,
            Status::Refused(_) => 2,
            Status::ReadFault => 3,
            Status::WriteFault => 4,
            Status::Opened(_) => 5,
            Status::OutOfMemory => 6,
        }
    }
}
