ghost use Rattle.std.specs.Prelude.{◌≡◌};
ghost use Rattle.vmtables.specs.Outcome.{number_of};

/// How the top call ended. A program ends with the number as its status.
#[derive(Clone, Copy, Debug, PartialEq, Eq)]
pub enum Status {
    /// All was read, done, written and flushed.
    Ok = 0,
    /// The source failed.
    ReadFault = 1,
    /// The words are no command.
    Usage = 2,
    /// The bytes describe no accepted machine.
    DescriptionRefused = 3,
    /// The allocator gave no place for a file.
    NoRoom = 4,
    /// The bytes are no container, its SMBIOS files can't be installed, its script is missing or has no script's length, or a command is refused.
    ImageRefused = 5,
    /// The bytes are no dump.
    DumpRefused = 6,
    /// The tables of the dump's memory have a fault, or are those of no machine that a description can have.
    TablesRefused = 7,
    /// The sink failed. It took a part of the output from its front.
    WriteFault = 8,
    /// Memory ran out.
    OutOfMemory = 9,
    /// The source gave more than 67,108,864 bytes.
    InputTooLong = 10,
    /// The files of the machine have more than 409,600 bytes.
    ImageTooLarge = 11,
}

impl Status {
    /// Returns the number of this status, with which the process ends.
    pub fn number(self) -> u8
        ensures { result ≡ number_of self }
    {
        self as u8
    }
}
