//! How a run ends.

ghost use Rattle.std.specs.Prelude.{◌≡◌};

/// How a run ends.
#[derive(Clone, Copy, PartialEq, Eq)]
pub enum Status {
    /// The output is written.
    Done,
    /// The words are no command line of the program.
    Usage,
    /// A text is refused, or the plan of ranks or of tiles.
    Refused,
    /// A file could not be read.
    ReadFault,
    /// The output could not be written, or not all of it.
    WriteFault,
    /// Memory ran out.
    NoMemory,
}

impl Status {
    ghost use Rattle.stencil_top.specs.Status.{code_of};

    /// The number that the process ends with.
    pub fn code(self) -> u8
        ensures { result ≡ code_of self }
    {
        match self {
            Status::Done => 0,
            Status::Usage => 2,
            Status::Refused => 3,
            Status::ReadFault => 4,
            Status::WriteFault => 5,
            Status::NoMemory => 6,
        }
    }
}
