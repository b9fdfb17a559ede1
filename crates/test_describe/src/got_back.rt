//! Machines that are got back from their inventories, by calls that `decode` makes one after the other.

use desc_toml::read_machine;
use fixtures::{EVERY_PART, MINIMAL, WITH_DEVICES};
use inventory_items::first_difference;
use machine_desc::Machine;
use std::alloc::Global;
use std::process::Abort;
use std::test::Fail;
use table_describe::describe;
use table_model::{Inventory, inventory_of};

static DESCRIPTIONS: [&str; 3] = [MINIMAL, EVERY_PART, WITH_DEVICES];

#[test]
fn machines_are_got_back(rt: HostRuntime) -> Result<(), Fail> {
    for description in &DESCRIPTIONS {
        is_got_back(&rt, rt.alloc(), description)?;
    }
    Ok(())
}

fn is_got_back(rt: &impl Abort, alloc: Global, description: &str) -> Result<(), Fail> {
    let inventory = inventory_in(alloc, description)?;
    let back = is_described(rt, alloc, &inventory, description);
    drop(inventory);
    back
}

/// Returns the inventory of the machine that a description describes.
pub fn inventory_in(alloc: Global, description: &str) -> Result<Inventory, Fail> {
    let machine = read_machine(alloc, description.as_bytes())?;
    let inventory = inventory_of_lawful(alloc, &machine);
    drop(machine);
    inventory
}

fn inventory_of_lawful(alloc: Global, machine: &Machine) -> Result<Inventory, Fail> {
    if machine.check().is_err() {
        return Err(Fail::from("a machine that breaks a rule"));
    }
    Ok(inventory_of(alloc, machine)?)
}

// An inventory is described as a machine, of which it is the inventory.
fn is_described(
    rt: &impl Abort,
    alloc: Global,
    inventory: &Inventory,
    description: &str,
) -> Result<(), Fail> {
    match describe(alloc, inventory) {
        Ok(machine) => {
            let its = inventory_of_lawful(alloc, &machine);
            drop(machine);
            is_same(rt, alloc, inventory, its?, description)
        }
        Err(_) => Err(Fail::new(format_args!("no machine is told of {description}"))),
    }
}

fn is_same(
    rt: &impl Abort,
    alloc: Global,
    inventory: &Inventory,
    its: Inventory,
    description: &str,
) -> Result<(), Fail> {
    let differs = first_difference(alloc, inventory, &its);
    drop(its);
    assert_eq!(rt; differs?, None, "{description}");
    Ok(())
}
