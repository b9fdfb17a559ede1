//! The inventory of a machine: what its tables say together, and what a view of memory shows of them.
//!
//! The records of SMBIOS structures are those of `smbios_model`, and those of ACPI tables are those of `acpi_model`; both are passed
//! on. What a view shows depends on which anchors a guest looks for, which a `Search` says. The contract is that `inventory_of` gives the
//! inventory of a machine exactly, and the law is that a view shows at most one inventory by each search.
#![tactic(auto)]

mod inventory;
pub mod laws;
mod search;

pub use acpi_model::{
    AcpiTables, ApicAffinity, DSDT_PLACE, Dsdt, FACS_PLACE, FACS_SIZE, Facs, Fadt, FadtLinks,
    FadtTargets, GenericAddress, HEADER_SIZE, Head, HpetTable, IoApicEntry, Link, LocalApicEntry,
    LocalNmiEntry, Madt, MadtEntry, MadtFront, Mcfg, McfgAllocation, McfgFront, MemoryAffinity,
    OtherTable, OverrideEntry, Slit, SlitFront, Srat, SratEntry, SratFront, Table, X2ApicAffinity,
    X2ApicEntry, X2ApicNmiEntry, fadt_links, fadt_of, head_of, hpet_of, initial_facs,
    madt_of_machine, mcfg_of_bridge, rsdp_rows, slit_of_machine, srat_of_machine, tables_of,
};
pub use inventory::{Inventory, inventory_of};
pub use search::{AnchorSearch, RootSearch, Search};
pub use smbios_model::{
    ARRAY_TYPE, Anchor, ArrayInfo, BIOS_TYPE, BOOT_TYPE, BiosInfo, Body, BootInfo, CHASSIS_TYPE,
    ChassisInfo, DEVICE_TYPE, DeviceInfo, END_TYPE, MAPPED_TYPE, MappedInfo, OEM_STRINGS_TYPE,
    PROCESSOR_TYPE, ProcessorInfo, SLOT_TYPE, SYSTEM_TYPE, SlotInfo, SmbiosTable, Structure,
    SystemInfo, anchor_of, anchor_rows, array_of, bios_of, boot_info, chassis_of, device_of,
    mapped_of, processor_of, slot_of, structures_of, system_of, uuid_field,
};
