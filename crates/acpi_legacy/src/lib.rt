//! The legacy ACPI tables of a guest's memory, as ACPI 1.0 has them and firmware still leaves them (ACPI 6.5, 5.2.5.3 and 5.2.7): an RSDP
//! of revision 0 or 1, with 20 bytes, an RSDT, whose entries have 4, and FADTs from 116 bytes on.
//!
//! They are read as those of an XSDT are, by another form. The contract is that the least valid RSDP is found exactly, and that the
//! inventory of a memory is read exactly where the memory shows it by that form, and else the first fault told. The field `xsdt` of its ACPI
//! tables holds the header of the RSDT.
#![tactic(auto)]

mod scan;

pub use acpi_model::LEGACY_FORM;
pub use scan::{find_legacy, scan_legacy};
