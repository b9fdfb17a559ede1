//! Structures that are built, and what the tests of them share.
//!
//! A machine, an inventory and the like are given up by a call of `drop`: where they end in place, each of their many parts is a step of
//! the proof of whoever owned them.

ghost use Rattle.std.specs.Prelude.{◌≡◌, IfOk};
ghost use Rattle.smbios_build.specs.Buildable.{AreBuildable};

use fixtures::{Sketch, machine_of};
use machine_desc::Machine;
use smbios_build::build_smbios;
use smbios_build::laws::accepted_structures_are_buildable;
use smbios_model::{Structure, structures_of};
use std::alloc::Global;
use std::fmt::Debug;
use std::process::Abort;
use std::test::Fail;
use table_model::{Inventory, inventory_of};
use vt_outside::{List, OutOfMemory, Text};

/// Returns the structures of the machine of `sketch`, which must be accepted.
pub fn structures_of_sketch(alloc: Global, sketch: &Sketch) -> Result<List<Structure>, Fail>
    ensures { IfOk result (λ structures. AreBuildable structures) }
{
    let machine = machine_of(alloc, sketch)?;
    let structures = accepted_structures(alloc, &machine);
    drop(machine);
    structures
}

/// Returns the structures of `machine`, which must be accepted.
pub fn accepted_structures(alloc: Global, machine: &Machine) -> Result<List<Structure>, Fail>
    ensures { IfOk result (λ structures. AreBuildable structures) }
{
    if machine.check().is_err() {
        return Err(Fail::from("a machine that breaks a rule"));
    }
    accepted_structures_are_buildable();
    Ok(structures_of(alloc, machine)?)
}

/// Returns the inventory of the machine of `sketch`, which must be accepted.
pub fn inventory_of_sketch(alloc: Global, sketch: &Sketch) -> Result<Inventory, Fail> {
    let machine = machine_of(alloc, sketch)?;
    let inventory = inventory_of_accepted(alloc, &machine);
    drop(machine);
    inventory
}

/// Returns the inventory of `machine`, which must be accepted.
pub fn inventory_of_accepted(alloc: Global, machine: &Machine) -> Result<Inventory, Fail> {
    if machine.check().is_err() {
        return Err(Fail::from("a machine that breaks a rule"));
    }
    Ok(inventory_of(alloc, machine)?)
}

/// Asserts that `structures` are built as the bytes `wanted`.
pub fn are_built(rt: &impl Abort, alloc: Global, structures: &[Structure], wanted: &[u8])
    requires { AreBuildable structures.now }
{
    match build_smbios(alloc, structures) {
        Ok(bytes) => is(rt, &bytes.as_slice(), &wanted),
        Err(_) => panic!(rt; "structures that aren't built"),
    }
}

/// Asserts that something is as it is wanted. It stands here once, since each assertion of two values is dear to prove.
pub fn is<T: Debug + PartialEq>(rt: &impl Abort, is: &T, wanted: &T) {
    assert_eq!(rt; *is, *wanted);
}

/// Returns a text with the bytes of `text`.
pub fn text_of(alloc: Global, text: &[u8]) -> Result<Text, OutOfMemory>
    ensures { IfOk result (λ copy. copy ≡ text.now) }
{
    let mut copy = Text::new(alloc);
    copy.extend(text)?;
    Ok(copy)
}
