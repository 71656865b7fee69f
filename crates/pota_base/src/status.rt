ghost use Rattle.std.specs.Prelude.{◌≡◌};
ghost use Rattle.pota_base.specs.Status.{code_of};

/// How a run of the analyser ended, as its caller's system is told.
#[derive(Clone, Copy, Debug, PartialEq, Eq)]
pub enum Status {
    /// The formula is true at the initial cut.
    True,
    /// The formula is false at the initial cut.
    False,
    /// The command line is faulty.
    Usage,
    /// The formula is faulty.
    Formula,
    /// The log is faulty.
    Log,
    /// The input could not be read.
    ReadFault,
    /// The output could not be written.
    WriteFault,
    /// There was no memory.
    OutOfMemory,
}

impl Status {
    /// The exit status, 0 to 7 in the order of the variants.
    pub fn code(&self) -> u8
        ensures { result ≡ code_of self.now }
    {
        *self as u8
    }
}
