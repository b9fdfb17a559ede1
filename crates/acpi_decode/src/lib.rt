//! ACPI tables as a guest finds them in its memory, from the RSDP on (ACPI 6.5, 5.2).
//!
//! The contract of [`walk`] is that the tables are read exactly where the memory shows them, and that else the first test that fails is
//! told, with the address of the table or of the entry. A DSDT is told as the terms that its definition block spells (20.2), or as one
//! that spells none. Where the terms lead to the id of the machine's generation, that is told, too, and they are told without its address.
//! [`walk_from`] does the same by any form of the RSDP, its root and the FADT, and [`take_table`] with the table at one address.
#![tactic(auto)]

mod block;
mod dsdt;
mod due;
mod entries;
mod facs;
mod fadt;
mod fault;
mod front;
mod head;
mod hpet;
mod kind;
pub mod laws;
mod madt;
mod mcfg;
mod number;
mod root;
mod root_entries;
mod slit;
mod srat;
mod table;
mod take;
mod targets;
mod view;
mod walked;
mod whole;

pub use fault::AcpiFault;
pub use take::take_table;
pub use view::MemView;
pub use walked::{Walked, walk, walk_from};
