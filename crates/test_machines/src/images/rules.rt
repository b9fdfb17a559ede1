//! The first rule that a machine breaks.

use fixtures::{HPET, MINIMAL_MACHINE, NO_TEXTS, Sketch, SystemTexts, is_same, machine_of};
use machine_desc::{Broken, Hpet};
use std::alloc::Global;
use std::test::Fail;
use vt_outside::OutOfMemory;

// A top in MiB, a product, a UUID, and the rule that a machine with these and nothing else breaks, with its index.
const SYSTEMS: &[(u32, &str, Option<u128>, Option<(u16, u32)>)] = &[
    (64, "VM", None, None),
    (3072, "", Some(1), None),
    (63, "", None, Some((1, 0))),
    (3073, "\n", Some(0), Some((1, 0))),
    (64, "\x7f", Some(0), Some((3, 0))),
    (64, "VM", Some(0), Some((4, 0))),
    (64, "VM", Some(u128::MAX), Some((4, 0))),
];

#[test]
fn rules(rt: HostRuntime) -> Result<(), Fail> {
    for (top_mib, product, uuid, broken) in SYSTEMS {
        system_breaks(rt.alloc(), *top_mib, product, *uuid, *broken)?;
    }
    Ok(())
}

fn system_breaks(
    alloc: Global,
    top_mib: u32,
    product: &str,
    uuid: Option<u128>,
    wanted: Option<(u16, u32)>,
) -> Result<(), Fail> {
    let sketch = Sketch {
        top_mib,
        texts: SystemTexts {
            product,
            ..NO_TEXTS
        },
        uuid,
        acpi: None,
        power: None,
        hpet: None,
    };
    breaks(alloc, product, &sketch, wanted)
}

// Identifiers of ACPI tables, the address of an HPET, and the rule that a machine with these breaks, with its index.
const ACPI_TABLES: &[(Option<(&str, &str)>, Option<u32>, Option<(u16, u32)>)] = &[
    (None, None, None),
    (Some(("", "")), None, None),
    (Some(("", "")), Some(0), None),
    (Some((" CMECO", " MTABLES")), Some(0xFFFF_FC00), None),
    // identifiers that are no texts
    (Some(("AC\x7f", "VM")), Some(0), Some((3, 0))),
    (Some(("ACMECO1", "VM\n")), Some(0), Some((3, 0))),
    // an HPET without ACPI tables
    (None, Some(0), Some((13, 1))),
    (None, Some(512), Some((13, 1))),
    // identifiers that don't fit their fields, or end in a space
    (Some(("ACMECO1", "VMTABLES1")), Some(512), Some((16, 0))),
    (Some(("ACME ", "VM")), Some(0), Some((16, 0))),
    (Some((" ", "VM ")), None, Some((16, 0))),
    (Some(("ACMECO", "VMTABLES1")), Some(512), Some((16, 1))),
    (Some(("ACME", "VM ")), Some(0), Some((16, 1))),
    // registers that stand at no multiple of 1024
    (Some(("ACME", "VM")), Some(1), Some((18, 0))),
    (Some(("ACME", "VM")), Some(512), Some((18, 0))),
    (Some(("ACME", "VM")), Some(0xFFFF_FFFF), Some((18, 0))),
];

#[test]
fn rules_of_acpi_tables(rt: HostRuntime) -> Result<(), Fail> {
    for (acpi, address, broken) in ACPI_TABLES {
        tables_break(rt.alloc(), *acpi, *address, *broken)?;
    }
    Ok(())
}

fn tables_break<'a>(
    alloc: Global,
    acpi: Option<(&'a str, &'a str)>,
    address: Option<u32>,
    wanted: Option<(u16, u32)>,
) -> Result<(), Fail> {
    let sketch = Sketch {
        acpi,
        hpet: hpet_at(address),
        ..MINIMAL_MACHINE
    };
    breaks(alloc, "ACPI tables", &sketch, wanted)
}

fn hpet_at(address: Option<u32>) -> Option<Hpet> {
    match address {
        Some(address) => Some(Hpet { address, ..HPET }),
        None => None,
    }
}

// The first rule that the machine breaks, and the index at which it does, or none.
fn breaks(
    alloc: Global,
    case: &str,
    sketch: &Sketch,
    wanted: Option<(u16, u32)>,
) -> Result<(), Fail> {
    let broken = first_broken(alloc, sketch)?;
    is_same(case, "first broken rule", &broken, &wanted)
}

fn first_broken(alloc: Global, sketch: &Sketch) -> Result<Option<(u16, u32)>, OutOfMemory> {
    let machine = machine_of(alloc, sketch)?;
    let checked = machine.check();
    // where it ends in place, each of its many parts is a step of this proof
    drop(machine);
    match checked {
        Ok(()) => Ok(None),
        Err(Broken { rule, index }) => Ok(Some((rule, index))),
    }
}
