//! The machine, which is put together of its parts.

ghost use Rattle.std.specs.Prelude.{◌≡◌, ◌≤◌, IfOk};
ghost use Rattle.generated_machine.specs.Generated.{node_count, generated, cpus as the_cpus, dimms as the_dimms, ranges as the_ranges};
ghost use Rattle.generated_machine.specs.Generated.{numa as the_numa, bridge as the_bridge, system as the_system};
ghost use Rattle.generated_machine.specs.Generated.{acpi as the_acpi, io_apics as the_io_apics, uarts as the_uarts};

use crate::parts::{
    acpi, bridge, cpus, dimms, hpet, io_apics, numa, power, ranges, sockets, system, uarts,
};
use machine_desc::{Acpi, Apic, Bridge, Cpu, Dimm, IoApic, Machine, MemRange, Numa, System, Uart};
use std::alloc::Global;
use vt_outside::{List, OutOfMemory};

/// Returns the machine of `processors` processors, 1 to 4,096, on up to four nodes. Its lists and texts take their memory from `alloc`.
/// Returns `OutOfMemory` when memory runs out.
#[tactic(auto, unfolding(crate::specs::Generated::generated))]
pub fn generated_machine(alloc: Global, processors: u32) -> Result<Machine, OutOfMemory>
    requires some { 1 ≤ processors }
    requires few { processors ≤ 4096 }
    ensures machine { IfOk result (λ machine. machine ≡ generated processors) }
{
    let (dimms, ranges, numa) = memory(alloc, processors)?;
    let (cpus, io_apics) = interrupts(alloc, processors)?;
    let (bridge, uarts) = devices(alloc)?;
    let (system, acpi) = makers(alloc)?;
    let sockets = sockets(alloc, processors)?;
    Ok(Machine {
        top_mib: 2048,
        oem_strings: List::new(alloc),
        generation: None,
        system,
        firmware: None,
        chassis: None,
        sockets,
        dimms,
        ranges,
        slots: List::new(alloc),
        acpi: Some(acpi),
        power: Some(power()),
        hpet: Some(hpet()),
        apic: Some(Apic {
            local: 0xFEE0_0000,
            legacy: true,
        }),
        cpus,
        io_apics,
        overrides: List::new(alloc),
        nmis: List::new(alloc),
        numa: Some(numa),
        bridge: Some(bridge),
        uarts,
    })
}

// The modules, the ranges and the nodes.
fn memory(alloc: Global, processors: u32) -> Result<(List<Dimm>, List<MemRange>, Numa), OutOfMemory>
    requires some { 1 ≤ processors }
    requires few { processors ≤ 4096 }
    ensures { IfOk result (λ parts. parts ≡ (the_dimms processors, the_ranges processors, the_numa (node_count processors))) }
{
    let ranges = ranges(alloc, processors)?;
    let numa = numa(alloc, processors)?;
    Ok((dimms(alloc, processors)?, ranges, numa))
}

// The processors and the I/O APIC.
fn interrupts(alloc: Global, processors: u32) -> Result<(List<Cpu>, List<IoApic>), OutOfMemory>
    ensures { IfOk result (λ parts. parts ≡ (the_cpus processors, the_io_apics)) }
{
    let io_apics = io_apics(alloc)?;
    Ok((cpus(alloc, processors)?, io_apics))
}

// The bridge and the serial port.
fn devices(alloc: Global) -> Result<(Bridge, List<Uart>), OutOfMemory>
    ensures { IfOk result (λ parts. parts ≡ (the_bridge, the_uarts)) }
{
    let uarts = uarts(alloc)?;
    Ok((bridge(alloc)?, uarts))
}

// The texts that tell who made the machine and its tables.
fn makers(alloc: Global) -> Result<(System, Acpi), OutOfMemory>
    ensures { IfOk result (λ parts. parts ≡ (the_system, the_acpi)) }
{
    let acpi = acpi(alloc)?;
    Ok((system(alloc)?, acpi))
}
