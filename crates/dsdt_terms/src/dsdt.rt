ghost use Rattle.std.specs.Prelude.{◌≡◌, ◌≤◌, ◌++◌, length, true, option_map, option_to_list, IfOk, OnOk};
ghost use Rattle.std.specs.List.{list_all};
ghost use Rattle.machine_desc.specs.Rules.{IsAccepted, windows_of, is_lawful_uart, is_lawful_window};
ghost use Rattle.aml_terms.specs.declared.term.Term.TheVariants.{Scope};
ghost use Rattle.dsdt_terms.specs.Bridge.{bridge_device};
ghost use Rattle.dsdt_terms.specs.Devices.{clock_device, keyboard_device, timer_device};
ghost use Rattle.dsdt_terms.specs.Dsdt.{system_bus, dsdt_terms, kept_terms, terms_with, devices_with, placeless_devices, generation_devices, if_there};
ghost use Rattle.dsdt_terms.specs.Dsdt.{has_clock, has_keyboard, uart_devices, cpu_devices};
ghost use Rattle.dsdt_terms.specs.IdLink.{low_half};

use crate::bridge::bridge_device;
use crate::devices::{clock_device, cpu_device, keyboard_device, timer_device, uart_device};
use crate::generation::{IdLink, generation_device};
use aml_terms::{Path, Term};
use machine_desc::{Bridge, Cpu, Hpet, Machine, Power, Uart};
use std::alloc::Global;
use vt_outside::{List, OutOfMemory};

/// Returns the terms of the DSDT of `machine`, which is accepted, as they are written: the scope of the system bus with the devices of its
/// bridge, its serial ports, its clock, its keyboard, its timer, its processors and the id of its generation, in this order, as far as they
/// are there. The id's device tells the offset of the id in its file, as a dword to which the place of that file is to be added. They take
/// their memory from `alloc`. Returns `OutOfMemory` when memory runs out.
pub fn dsdt_terms(alloc: Global, machine: &Machine) -> Result<List<Term>, OutOfMemory>
    requires { IsAccepted machine.now }
    ensures { IfOk result (λ terms. terms ≡ dsdt_terms machine.now) }
{
    terms_with(alloc, machine, IdLink::Written)
}

/// Returns the terms of the DSDT of `machine`, which is accepted, as a reader keeps them: the same, with 0 in place of the address of the
/// id. They take their memory from `alloc`. Returns `OutOfMemory` when memory runs out.
pub fn kept_terms(alloc: Global, machine: &Machine) -> Result<List<Term>, OutOfMemory>
    requires { IsAccepted machine.now }
    ensures { IfOk result (λ terms. terms ≡ kept_terms machine.now) }
{
    terms_with(alloc, machine, IdLink::Kept)
}

// The scope of the system bus with the devices of a machine.
fn terms_with(alloc: Global, machine: &Machine, link: IdLink) -> Result<List<Term>, OutOfMemory>
    requires { IsAccepted machine.now }
    ensures { IfOk result (λ terms. terms ≡ terms_with (low_half link) machine.now) }
{
    let mut terms = List::new(alloc);
    terms.push(system_bus(alloc, devices_with(alloc, machine, link)?)?)?;
    Ok(terms)
}

// The scope of the system bus (ACPI 6.5, 5.3.1) with these devices.
fn system_bus(alloc: Global, devices: List<Term>) -> Result<Term, OutOfMemory>
    ensures { IfOk result (λ term. term ≡ Scope system_bus devices) }
{
    let mut segments = List::new(alloc);
    match segments.push(*b"_SB_") {
        Ok(()) => {
            let path = Path {
                root: true,
                parents: 0,
                segments,
            };
            Ok(Term::Scope(path, devices))
        }
        Err(error) => {
            drop(devices);
            Err(error)
        }
    }
}

// The devices of a machine, in order.
fn devices_with(alloc: Global, machine: &Machine, link: IdLink) -> Result<List<Term>, OutOfMemory>
    requires { IsAccepted machine.now }
    ensures { IfOk result (λ devices. devices ≡ devices_with (low_half link) machine.now) }
{
    let mut devices = placeless_devices(alloc, machine)?;
    push_generation(&mut devices, machine.generation, link)?;
    Ok(devices)
}

// Those that are the same wherever a file stands.
fn placeless_devices(alloc: Global, machine: &Machine) -> Result<List<Term>, OutOfMemory>
    requires { IsAccepted machine.now }
    ensures { IfOk result (λ devices. devices ≡ placeless_devices machine.now) }
{
    let mut devices = List::new(alloc);
    push_bridge(&mut devices, &machine.bridge)?;
    push_uarts(&mut devices, machine.uarts.as_slice())?;
    push_clock(&mut devices, machine.power)?;
    push_keyboard(&mut devices, machine.power)?;
    push_timer(&mut devices, machine.hpet)?;
    push_cpus(&mut devices, machine.cpus.as_slice())?;
    Ok(devices)
}

// Adds the bridge, where there is one.
fn push_bridge(devices: &mut List<Term>, bridge: &Option<Bridge>) -> Result<(), OutOfMemory>
    requires { list_all is_lawful_window (windows_of bridge.now) ≡ true }
    ensures { OnOk result (devices.new ≡ devices.old ++ option_to_list (option_map bridge_device bridge.now)) }
{
    match bridge {
        Some(bridge) => {
            let device = bridge_device(devices.allocator(), bridge)?;
            devices.push(device)
        }
        None => Ok(()),
    }
}

// Adds the clock, where power management tells of one.
fn push_clock(devices: &mut List<Term>, power: Option<Power>) -> Result<(), OutOfMemory>
    ensures { OnOk result (devices.new ≡ devices.old ++ if_there (has_clock power) clock_device) }
{
    match power {
        Some(power) if power.rtc => {
            let device = clock_device(devices.allocator())?;
            devices.push(device)
        }
        _ => Ok(()),
    }
}

// Adds the keyboard, likewise.
fn push_keyboard(devices: &mut List<Term>, power: Option<Power>) -> Result<(), OutOfMemory>
    ensures { OnOk result (devices.new ≡ devices.old ++ if_there (has_keyboard power) keyboard_device) }
{
    match power {
        Some(power) if power.keyboard => {
            let device = keyboard_device(devices.allocator())?;
            devices.push(device)
        }
        _ => Ok(()),
    }
}

// Adds the timer, where there is one.
fn push_timer(devices: &mut List<Term>, hpet: Option<Hpet>) -> Result<(), OutOfMemory>
    ensures { OnOk result (devices.new ≡ devices.old ++ option_to_list (option_map timer_device hpet)) }
{
    match hpet {
        Some(hpet) => {
            let device = timer_device(devices.allocator(), hpet)?;
            devices.push(device)
        }
        None => Ok(()),
    }
}

// Adds the device of the id of a generation, where there is one.
fn push_generation(
    devices: &mut List<Term>,
    generation: Option<u128>,
    link: IdLink,
) -> Result<(), OutOfMemory>
    ensures { OnOk result (devices.new ≡ devices.old ++ generation_devices (low_half link) generation) }
{
    match generation {
        Some(_) => {
            let device = generation_device(devices.allocator(), link)?;
            devices.push(device)
        }
        None => Ok(()),
    }
}

// Adds serial ports, of which there are at most 4.
fn push_uarts(devices: &mut List<Term>, uarts: &[Uart]) -> Result<(), OutOfMemory>
    requires few { length uarts.now ≤ 4 }
    requires lawful { list_all is_lawful_uart uarts.now ≡ true }
    ensures { OnOk result (devices.new ≡ devices.old ++ uart_devices uarts.now) }
{
    for (place, uart) in uarts.iter().enumerate() {
        let device = uart_device(devices.allocator(), place as u8, *uart)?;
        devices.push(device)?;
    }
    Ok(())
}

// Adds the processors of a machine, by their number, which is at most 4,096.
fn push_cpus(devices: &mut List<Term>, cpus: &[Cpu]) -> Result<(), OutOfMemory>
    requires { length cpus.now ≤ 4096 }
    ensures { OnOk result (devices.new ≡ devices.old ++ cpu_devices cpus.now) }
{
    for place in 0..cpus.len() as u32 {
        let device = cpu_device(devices.allocator(), place)?;
        devices.push(device)?;
    }
    Ok(())
}
