/// What the firmware of a load reads by one transfer.
#[derive(Clone, Copy, Debug, PartialEq, Eq)]
pub enum Reading {
    /// The number of files in the directory.
    Count,
    /// The next entries of the directory.
    Entries {
        /// How many bytes all entries have.
        size: u32,
        /// How many of them it has taken.
        taken: u32,
    },
    /// The next commands of the script.
    Commands {
        /// The selector of the script's file.
        select: u16,
        /// How many bytes the script has.
        size: u32,
        /// How many of them it has taken.
        taken: u32,
    },
    /// The file that the command of an index has placed. It is the last of those that are placed.
    File(u32),
}
