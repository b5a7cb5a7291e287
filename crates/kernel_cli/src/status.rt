// How the program ends.

/// How a call of the program ended.
#[derive(Clone, Copy, Debug, PartialEq, Eq)]
pub enum Status {
    /// Every line was answered, and none was refused.
    Done,
    /// Every line was answered, and some line was refused.
    Refused,
    /// The words have no shape.
    Usage,
    /// The source failed.
    ReadFault,
    /// The sink failed.
    WriteFault,
    /// Memory was wanting.
    NoMemory,
    /// The source gave more than 67,108,864 bytes.
    InputLimit,
}

impl Status {
    ghost use Rattle.std.specs.Prelude.{◌≡◌};
    ghost use Rattle.kernel_cli.specs.Code.{code_of};

    /// The exit code of the process. Takes no memory.
    pub fn code(&self) -> u8
        ensures { result ≡ code_of self.now }
    {
        match self {
            Status::Done => 0,
            Status::Refused => 1,
            Status::Usage => 2,
            Status::ReadFault => 3,
            Status::WriteFault => 4,
            Status::NoMemory => 5,
            Status::InputLimit => 6,
        }
    }
}
