//! ACPI tables and their entries as records that stand in bytes by rows.
//!
//! The contract is that each record puts and takes its rows, which its file of `specs` gives with the section of the standard, and that
//! of each part of a machine its table is the one of the definitions (ACPI 6.5, 5.2; IA-PC HPET 1.0a, 3.2.4). The laws are that rows stand
//! at the offsets of the standard, that a FACS is one and stands where it is held, and that entries are got back from their rows. A table
//! with entries, or with distances, is a front, which is a record of its own, and what follows it.
#![tactic(auto)]

mod facs;
mod fadt;
mod generic_address;
mod header;
mod hpet;
pub mod laws;
mod madt;
mod madt_entry;
mod mcfg;
mod slit;
mod srat;
mod srat_entry;

pub use facs::{FACS_SIZE, Facs, initial_facs};
pub use fadt::{FADT_DSDT_ROW, FADT_FACS_ROW, FADT_X_DSDT_ROW, FADT_X_FACS_ROW, Fadt};
pub use generic_address::GenericAddress;
pub use header::{HEADER_SIZE, Head, head_of};
pub use hpet::{HpetTable, hpet_of};
pub use madt::{Madt, MadtFront};
pub use madt_entry::{
    IO_APIC_TYPE, IoApicEntry, LOCAL_APIC_TYPE, LOCAL_NMI_TYPE, LocalApicEntry, LocalNmiEntry,
    MadtEntry, OVERRIDE_TYPE, OverrideEntry, X2APIC_NMI_TYPE, X2APIC_TYPE, X2ApicEntry,
    X2ApicNmiEntry,
};
pub use mcfg::{Mcfg, McfgAllocation, McfgFront};
pub use slit::{Slit, SlitFront};
pub use srat::{Srat, SratFront};
pub use srat_entry::{
    APIC_AFFINITY_TYPE, ApicAffinity, MEMORY_AFFINITY_TYPE, MemoryAffinity, SratEntry,
    X2APIC_AFFINITY_TYPE, X2ApicAffinity,
};
