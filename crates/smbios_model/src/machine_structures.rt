ghost use Rattle.std.specs.Prelude.{◌≡◌, ◌+◌, ◌^◌, ◌<◌, ◌≤◌, ◌++◌, ◌∷◌, [], map, length, IfOk, OnOk, Bool, true};
ghost use Rattle.std.specs.List.{flat_map, list_all};
ghost use Rattle.std.specs.Option.{option_map_or, option_to_list};
ghost use Rattle.machine_desc.specs.Rules.{IsAccepted, is_lawful_chassis, is_lawful_socket, is_lawful_slot, is_lawful_dimm};
ghost use Rattle.smbios_model.specs.declared.smbios.Body.{Body as ABody};
ghost use Rattle.smbios_model.specs.MachineStructures.{with_handles, structures_in, structures_of, bios_part, system_part, chassis_part};
ghost use Rattle.smbios_model.specs.MachineStructures.{processor_part, slot_part, oem_strings_part, array_part, device_part, mapped_part, boot_part};
ghost use Rattle.smbios_model.specs.MachineStructures.{bios_body, system_body, chassis_body, processor_body, slot_body, device_body, mapped_body};

use crate::bios_information::bios_of;
use crate::boot_information::boot_info;
use crate::chassis_information::chassis_of;
use crate::mapped_address::mapped_of;
use crate::memory_array::{ARRAY_HANDLE, array_of};
use crate::memory_device::device_of;
use crate::processor_information::processor_of;
use crate::slot_information::slot_of;
use crate::smbios::{Body, Structure};
use crate::system_information::system_of;
use crate::texts::copies_of;
use machine_desc::{Chassis, Dimm, Firmware, Machine, MemRange, Slot, Socket, System};
use std::alloc::Global;
use vt_outside::{List, OutOfMemory, Text};

/// Returns the structures of `machine`, which is accepted, in order: those of its firmware, its system, its chassis, its processors,
/// its slots, its maker's texts, its memory and its boot, and the end. Lists take their memory from `alloc`, and each copy of a text
/// from that text's allocator. Returns `OutOfMemory` when memory runs out.
pub fn structures_of(alloc: Global, machine: &Machine) -> Result<List<Structure>, OutOfMemory>
    requires { IsAccepted machine.now }
    ensures { IfOk result (λ structures. structures ≡ structures_of machine.now) }
{
    let mut structures = List::new(alloc);
    push_structures(alloc, &mut structures, machine)?;
    Ok(structures)
}

fn push_structures(
    alloc: Global,
    structures: &mut List<Structure>,
    machine: &Machine,
) -> Result<(), OutOfMemory>
    requires { IsAccepted machine.now }
    ensures { OnOk result (structures.new ≡ structures.old ++ structures_of machine.now) }
{
    push_product(structures, machine)?;
    push_board(alloc, structures, machine)?;
    push_memory(structures, machine)?;
    push_boot(structures, &machine.firmware)?;
    push(structures, 0x7F00, Body::End)
}

// Appends those of the machine's firmware, its system and its chassis.
#[tactic(auto, using(crate::proofs::LawfulParts::lawful_chassis))]
fn push_product(structures: &mut List<Structure>, machine: &Machine) -> Result<(), OutOfMemory>
    requires { IsAccepted machine.now }
    ensures { OnOk result (structures.new ≡ structures.old
        ++ flat_map structures_in
        (bios_part machine.now.firmware ∷ system_part machine.now.system ∷ chassis_part machine.now.chassis ∷ [])) }
{
    push_if(structures, 0x0000, &machine.firmware)?;
    push_told(structures, 0x0100, &machine.system)?;
    push_if(structures, 0x0300, &machine.chassis)
}

// Appends those of its processors, its slots and its maker's texts.
#[tactic(auto, using(crate::proofs::LawfulParts::lawful_sockets, crate::proofs::LawfulParts::lawful_slots))]
fn push_board(
    alloc: Global,
    structures: &mut List<Structure>,
    machine: &Machine,
) -> Result<(), OutOfMemory>
    requires { IsAccepted machine.now }
    ensures { OnOk result (structures.new ≡ structures.old ++ flat_map structures_in
        (processor_part machine.now.sockets ∷ slot_part machine.now.slots ∷ oem_strings_part machine.now.oem_strings ∷ [])) }
{
    push_each(structures, 0x0400, &machine.sockets)?;
    push_each(structures, 0x0900, &machine.slots)?;
    push_oem_strings(alloc, structures, machine.oem_strings.as_slice())
}

// Appends those of its memory.
#[tactic(auto, using(crate::proofs::LawfulParts::lawful_dimms, crate::proofs::LawfulParts::each_whatever))]
fn push_memory(structures: &mut List<Structure>, machine: &Machine) -> Result<(), OutOfMemory>
    requires { IsAccepted machine.now }
    ensures { OnOk result (structures.new ≡ structures.old
        ++ flat_map structures_in (array_part machine.now.dimms ∷ device_part machine.now.dimms ∷ mapped_part machine.now.ranges ∷ [])) }
{
    push_array(structures, machine.dimms.as_slice())?;
    push_each(structures, 0x1100, &machine.dimms)?;
    push_each(structures, 0x1300, &machine.ranges)
}

fn push(structures: &mut List<Structure>, handle: u16, body: Body) -> Result<(), OutOfMemory>
    ensures { OnOk result (structures.new ≡ structures.old ++ record { handle = handle; body = body } ∷ []) }
{
    structures.push(Structure { handle, body })
}

// A part of a machine that has a structure of its own.
trait Told: Drop {
    // Whether it keeps the rule that a caller must know of it.
    ghost is_lawful: { Self → Bool };

    ghost says: { Self → ABody };

    fn body(&self) -> Result<Body, OutOfMemory>
        requires { is_lawful self.now ≡ true }
        ensures { IfOk result (λ body. body ≡ says self.now) };
}

fn push_told<P: Told>(
    structures: &mut List<Structure>,
    handle: u16,
    part: &P,
) -> Result<(), OutOfMemory>
    requires { P.is_lawful part.now ≡ true }
    ensures { OnOk result (structures.new ≡ structures.old ++ record { handle = handle; body = P.says part.now } ∷ []) }
{
    push(structures, handle, part.body()?)
}

fn push_if<P: Told>(
    structures: &mut List<Structure>,
    handle: u16,
    part: &Option<P>,
) -> Result<(), OutOfMemory>
    requires { option_map_or P.is_lawful part.now true ≡ true }
    ensures { OnOk result (structures.new ≡ structures.old ++ with_handles handle (map P.says (option_to_list part.now))) }
{
    match part {
        Some(part) => push_told(structures, handle, part),
        None => Ok(()),
    }
}

fn push_each<P: Told>(
    structures: &mut List<Structure>,
    first: u16,
    parts: &List<P>,
) -> Result<(), OutOfMemory>
    requires few { first + length parts.now < 2 ^ 16 }
    requires lawful { list_all P.is_lawful parts.now ≡ true }
    ensures { OnOk result (structures.new ≡ structures.old ++ with_handles first (map P.says parts.now)) }
{
    let mut handle = first;
    for part in parts.as_slice() {
        push_told(structures, handle, part)?;
        handle += 1;
    }
    Ok(())
}

impl Told for Firmware {
    ghost is_lawful = { λ _. true };

    ghost says = { bios_body };

    fn body(&self) -> Result<Body, OutOfMemory> {
        Ok(Body::Bios(bios_of(self)?))
    }
}

impl Told for System {
    ghost is_lawful = { λ _. true };

    ghost says = { system_body };

    fn body(&self) -> Result<Body, OutOfMemory> {
        Ok(Body::System(system_of(self)?))
    }
}

impl Told for Chassis {
    ghost is_lawful = { is_lawful_chassis };

    ghost says = { chassis_body };

    fn body(&self) -> Result<Body, OutOfMemory> {
        Ok(Body::Chassis(chassis_of(self)?))
    }
}

impl Told for Socket {
    ghost is_lawful = { is_lawful_socket };

    ghost says = { processor_body };

    fn body(&self) -> Result<Body, OutOfMemory> {
        Ok(Body::Processor(processor_of(self)?))
    }
}

impl Told for Slot {
    ghost is_lawful = { is_lawful_slot };

    ghost says = { slot_body };

    fn body(&self) -> Result<Body, OutOfMemory> {
        Ok(Body::Slot(slot_of(self)?))
    }
}

impl Told for Dimm {
    ghost is_lawful = { is_lawful_dimm };

    ghost says = { device_body };

    fn body(&self) -> Result<Body, OutOfMemory> {
        Ok(Body::Device(device_of(self)?))
    }
}

impl Told for MemRange {
    ghost is_lawful = { λ _. true };

    ghost says = { mapped_body };

    fn body(&self) -> Result<Body, OutOfMemory> {
        Ok(Body::Mapped(mapped_of(*self)))
    }
}

fn push_oem_strings(
    alloc: Global,
    structures: &mut List<Structure>,
    texts: &[Text],
) -> Result<(), OutOfMemory>
    ensures { OnOk result (structures.new ≡ structures.old ++ structures_in (oem_strings_part texts.now)) }
{
    if texts.is_empty() {
        return Ok(());
    }
    push(
        structures,
        0x0E00,
        Body::OemStrings(copies_of(alloc, texts)?),
    )
}

fn push_array(structures: &mut List<Structure>, dimms: &[Dimm]) -> Result<(), OutOfMemory>
    requires { length dimms.now ≤ 256 }
    ensures { OnOk result (structures.new ≡ structures.old ++ structures_in (array_part dimms.now)) }
{
    if dimms.is_empty() {
        return Ok(());
    }
    push(structures, ARRAY_HANDLE, Body::Array(array_of(dimms)))
}

fn push_boot(
    structures: &mut List<Structure>,
    firmware: &Option<Firmware>,
) -> Result<(), OutOfMemory>
    ensures { OnOk result (structures.new ≡ structures.old ++ structures_in (boot_part firmware.now)) }
{
    if firmware.is_none() {
        return Ok(());
    }
    push(structures, 0x2000, Body::Boot(boot_info()))
}
