//! The top call of the program: words and a description, a container or a dump in, the dump of a guest's memory, a container, a list, a description
//! or counts out.
//!
//! `boot` reads a machine's description (TOML), builds the files that a firmware loads (SMBIOS structures and
//! their anchor, DSP0134; ACPI tables) and the script that places, patches and checksums them, runs that script on the memory
//! of a guest, and writes the memory as text. `build` writes these files as one container. `load` reads a container, made here or
//! elsewhere, and runs its script in the same way; with `--install` it installs the SMBIOS files that no command of the script names. `decode`
//! reads the dump of a guest's memory, and writes the description of the machine that the guest finds there; with `--list` it lists what the
//! guest finds. With `--legacy` it goes by the ACPI tables of an RSDT, and a list with `--smbios2` by the old SMBIOS anchor, or with `--any` by
//! the first anchors of any form. `gen` boots a machine that it generates of a number of processors, and counts what it has.
//!
//! The contract of [`top`] says, for all words and bytes, what the command did, when each status comes, and what became of the streams: once
//! `boot` ends with status 0 memory shows exactly the machine that was described, whatever events came between and whatever lawful places the
//! allocator gave. The laws say that a lawful input is done where nothing outside failed, and that `decode` of what `boot` wrote prints the same
//! machine again, unless memory runs out. The machine of an inventory, [`describe`], is passed on.
#![tactic(auto)]

mod boot_command;
mod build_command;
mod carrying_out;
mod decode_command;
mod describing;
mod fault;
mod generate_command;
mod input;
pub mod laws;
mod lines;
mod load_command;
mod loading;
mod machine_booting;
mod status;
mod taker;
mod top_call;
mod writing;

pub use carrying_out::carry_out;
pub use fault::Fault;
pub use firmware_load::{LoadFault, State, World};
pub use status::Status;
pub use table_describe::{DescribeFault, describe};
pub use top_call::top;
