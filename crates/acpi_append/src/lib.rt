//! ACPI tables, whichever they are, appended to files with holes: a table of a known kind, the FACS, the DSDT, the XSDT and the RSDP
//! (ACPI 6.5, 5.2).
//!
//! Each call takes what the table says and appends its rows to a file, at the next multiple of 16, exactly; and in any view that
//! holds the file with its holes filled the table stands at its place. An XSDT and an RSDP lead to tables of the file `TABLES_FILE`. The
//! law says the same of files by the definitions alone. Crates that append tables of a machine stand on this one.
#![tactic(auto)]

mod dsdt;
mod entries;
mod facs;
mod fadt;
pub mod laws;
mod madt;
mod mcfg;
mod rsdp;
mod slit;
mod srat;
mod table;
mod xsdt;

pub use dsdt::put_dsdt;
pub use facs::put_facs;
pub use rsdp::put_rsdp;
pub use table::{TABLES_FILE, put_table};
pub use xsdt::put_xsdt;
