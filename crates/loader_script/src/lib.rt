//! The commands by which a firmware places tables in guest memory, as QEMU's bios-linker-loader interface
//! (hw/acpi/bios-linker-loader.c) gives them.
//!
//! The contract is exact: which 128 bytes are which entry, which bytes an entry is written as, and for each command
//! the first cause that refuses it. [`NameOrder`] finds a command's files among those of a device by a search in the order of their
//! names. The run of a script is defined here, as a function of the files, the commands and the places that the files are given, with
//! its laws and what it leaves in memory.
#![tactic(auto)]

mod entry;
pub mod laws;
mod order;
mod reading;
mod refusing;
mod rows;
mod script_file;
mod writing;

pub use entry::Entry;
pub use order::NameOrder;
pub use reading::{ENTRY_BYTES, LONGEST_SCRIPT, ScriptFault, decode_entry, decode_script};
pub use refusing::{Cause, FileInfo, refusal};
pub use script_file::loader_name;
pub use writing::{encode_script, entry_size};
