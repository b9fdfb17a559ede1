use loader_script::Cause;

/// Why a load ended before its script did.
#[derive(Clone, Copy, Debug, PartialEq, Eq)]
pub enum LoadFault {
    /// No file has the name `etc/table-loader`.
    NoScript,
    /// The length of that file is no multiple of 128, or is above 1,048,576 bytes.
    ScriptLength,
    /// A command is refused.
    Command {
        /// The index of the command in the script, from 0.
        index: u32,
        /// The first cause that applies.
        cause: Cause,
    },
    /// The allocator gave no place for the file of an Allocate.
    NoRoom {
        /// The index of the command in the script, from 0.
        index: u32,
    },
}
