ghost use Rattle.std.specs.Prelude.{◌≡◌};
ghost use Rattle.sl_tool.specs.Numbers.{number_of};

/// How a run of the tool ended.
#[derive(Clone, Copy)]
pub enum Status {
    /// The text was checked, and nothing is to be warned of.
    Passed,
    /// The text was checked, and something is warned of.
    Warned,
    /// The text is too long, or leaves the subset.
    Refused,
    /// The words are no command.
    Usage,
    /// A read failed.
    ReadFault,
    /// A write failed.
    WriteFault,
    /// Memory ran out, and nothing was written.
    Memory,
}

impl Status {
    /// The exit status.
    pub fn number(self) -> u8
        ensures { result ≡ number_of self }
    {
        match self {
            Status::Passed => 0,
            Status::Warned => 1,
            Status::Refused => 2,
            Status::Usage => 3,
            Status::ReadFault => 4,
            Status::WriteFault => 5,
            Status::Memory => 6,
        }
    }
}
