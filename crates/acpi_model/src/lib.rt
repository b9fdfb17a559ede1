//! ACPI tables, each a record in its layout, and the tables that a view of memory shows from its RSDP on.
//!
//! The definitions say which tables a view shows (ACPI 6.5, 5.2; IA-PC HPET 1.0a, 3.2.4). The contract is that the tables of a machine,
//! and what they tell, are those of the definitions. The laws are that at most one table stands at an address, that a table and an XSDT
//! which a view holds as they were written stand there, that tables at addresses are found one after the other, that the tables that a
//! machine's XSDT names can be put into a file, are walked, lead to the machine's FACS and tell what the machine's do, and that a machine's
//! parts are got back from its tables. A kind of tables is its signature with the shape of its rows and the types of its entries. The
//! records are those of `acpi_records`, which are passed on.
//!
//! What is shown is said by a form: which RSDP and which root, an XSDT or an RSDT, stand there, and how many bytes an FADT has at least. Such
//! a definition ends in `By`; the name without it is the same by the form of ACPI 6.5, which a machine's tables have.
#![tactic(auto)]

mod acpi;
mod dsdt;
mod form;
pub mod laws;
mod link;
mod machine_fadt;
mod machine_madt;
mod machine_mcfg;
mod machine_slit;
mod machine_srat;
mod rsdp;

pub use acpi::{AcpiTables, FadtTargets, OtherTable, Table, acpi_of, tables_of};
pub use acpi_records::{
    ApicAffinity, FACS_SIZE, FADT_DSDT_ROW, FADT_FACS_ROW, FADT_X_DSDT_ROW, FADT_X_FACS_ROW, Facs,
    Fadt, GenericAddress, HEADER_SIZE, Head, HpetTable, IoApicEntry, LocalApicEntry, LocalNmiEntry,
    Madt, MadtEntry, MadtFront, Mcfg, McfgAllocation, McfgFront, MemoryAffinity, OverrideEntry,
    Slit, SlitFront, Srat, SratEntry, SratFront, X2ApicAffinity, X2ApicEntry, X2ApicNmiEntry,
    head_of, hpet_of, initial_facs,
};
pub use dsdt::Dsdt;
pub use form::{Form, LEGACY_FORM, XSDT_FORM};
pub use link::{FadtLinks, Link};
pub use machine_fadt::{DSDT_PLACE, FACS_PLACE, fadt_links, fadt_of, register_at};
pub use machine_madt::madt_of_machine;
pub use machine_mcfg::mcfg_of_bridge;
pub use machine_slit::slit_of_machine;
pub use machine_srat::srat_of_machine;
pub use rsdp::rsdp_rows;
