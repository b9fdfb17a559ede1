//! The parts of a machine, each taken from the front of the values.

ghost use Rattle.std.specs.Prelude.{◌≡◌, IfOk, OnOk, List as ListOf};
ghost use Rattle.desc_schema.specs.declared.value.Value.{Value};
ghost use Rattle.desc_schema.specs.Taken.{first, rest, number_if};
ghost use Rattle.desc_toml.specs.Values.{text_taken, system_taken, firmware_taken, chassis_taken, socket_taken, dimm_taken, range_taken};
ghost use Rattle.desc_toml.specs.Values.{slot_taken, acpi_taken, power_taken, hpet_taken, apic_taken, cpu_taken, io_apic_taken, override_taken};
ghost use Rattle.desc_toml.specs.Values.{nmi_taken, byte_taken, numa_taken, kind_at, window_taken, route_taken, bridge_taken, uart_taken};
ghost use Rattle.desc_toml.specs.Values.{part_of, list_of};

use desc_schema::Values;
use machine_desc::{
    Acpi, Apic, Bridge, Chassis, Cpu, Dimm, Firmware, Hpet, IoApic, MemRange, Nmi, Numa, Override,
    Power, Route, Slot, Socket, System, Uart, Window, WindowKind,
};
use std::alloc::Global;
use vt_outside::{List, OutOfMemory, Text};

// A part of a machine, which is made of the values at the front.
pub(crate) trait Part: Drop {
    // The part, and the values that it leaves.
    ghost taken: { ListOf Value → Self × ListOf Value };

    // Takes the values of the part out. `alloc` is kept by its texts, and gives its lists their memory.
    fn take(alloc: Global, values: &mut Values) -> Result<Self, OutOfMemory>
        ensures part { IfOk result (λ part. part ≡ (taken values.old).0) }
        ensures left { OnOk result (values.new ≡ (taken values.old).1) };
}

// A table that may be left out.
#[tactic(auto, unfolding(crate::specs::Values::part_of))]
pub(crate) fn part_of<T: Part>(alloc: Global, values: &mut Values) -> Result<Option<T>, OutOfMemory>
    ensures { IfOk result (λ part. (part, values.new) ≡ part_of T.taken values.old) }
{
    if values.take_count() == 0 {
        return Ok(None);
    }
    Ok(Some(T::take(alloc, values)?))
}

// An array.
pub(crate) fn list_of<T: Part>(alloc: Global, values: &mut Values) -> Result<List<T>, OutOfMemory>
    ensures { IfOk result (λ list. (list, values.new) ≡ list_of T.taken values.old) }
{
    let count = values.take_count();
    let mut list = List::new(alloc);
    for _ in 0..count {
        list.push(T::take(alloc, values)?)?;
    }
    Ok(list)
}

impl Part for Text {
    ghost taken = { text_taken };

    fn take(alloc: Global, values: &mut Values) -> Result<Text, OutOfMemory> {
        Ok(values.take_text(alloc))
    }
}

impl Part for System {
    ghost taken = { system_taken };

    fn take(alloc: Global, values: &mut Values) -> Result<System, OutOfMemory> {
        Ok(System {
            manufacturer: values.take_text(alloc),
            product: values.take_text(alloc),
            version: values.take_text(alloc),
            serial: values.take_text(alloc),
            sku: values.take_text(alloc),
            family: values.take_text(alloc),
            uuid: values.take_uuid(),
        })
    }
}

impl Part for Firmware {
    ghost taken = { firmware_taken };

    fn take(alloc: Global, values: &mut Values) -> Result<Firmware, OutOfMemory> {
        Ok(Firmware {
            vendor: values.take_text(alloc),
            version: values.take_text(alloc),
            date: values.take_text(alloc),
            major: values.take_number(u8::MAX as u64) as u8,
            minor: values.take_number(u8::MAX as u64) as u8,
        })
    }
}

impl Part for Chassis {
    ghost taken = { chassis_taken };

    fn take(alloc: Global, values: &mut Values) -> Result<Chassis, OutOfMemory> {
        Ok(Chassis {
            manufacturer: values.take_text(alloc),
            version: values.take_text(alloc),
            serial: values.take_text(alloc),
            asset: values.take_text(alloc),
            sku: values.take_text(alloc),
            kind: values.take_number(u8::MAX as u64) as u8,
        })
    }
}

impl Part for Socket {
    ghost taken = { socket_taken };

    fn take(alloc: Global, values: &mut Values) -> Result<Socket, OutOfMemory> {
        Ok(Socket {
            designation: values.take_text(alloc),
            manufacturer: values.take_text(alloc),
            version: values.take_text(alloc),
            serial: values.take_text(alloc),
            asset: values.take_text(alloc),
            part: values.take_text(alloc),
            cores: values.take_number(u16::MAX as u64) as u16,
            threads: values.take_number(u16::MAX as u64) as u16,
            mhz: values.take_number(u16::MAX as u64) as u16,
        })
    }
}

impl Part for Dimm {
    ghost taken = { dimm_taken };

    fn take(alloc: Global, values: &mut Values) -> Result<Dimm, OutOfMemory> {
        Ok(Dimm {
            locator: values.take_text(alloc),
            bank: values.take_text(alloc),
            manufacturer: values.take_text(alloc),
            serial: values.take_text(alloc),
            asset: values.take_text(alloc),
            part: values.take_text(alloc),
            size_mib: values.take_number(u32::MAX as u64) as u32,
            speed: values.take_number(u16::MAX as u64) as u16,
        })
    }
}

impl Part for MemRange {
    ghost taken = { range_taken };

    fn take(_alloc: Global, values: &mut Values) -> Result<MemRange, OutOfMemory> {
        Ok(MemRange {
            base_mib: values.take_number(u32::MAX as u64) as u32,
            size_mib: values.take_number(u32::MAX as u64) as u32,
            node: values.take_number(u8::MAX as u64) as u8,
        })
    }
}

impl Part for Slot {
    ghost taken = { slot_taken };

    fn take(alloc: Global, values: &mut Values) -> Result<Slot, OutOfMemory> {
        Ok(Slot {
            designation: values.take_text(alloc),
            kind: values.take_number(u8::MAX as u64) as u8,
            width: values.take_number(u8::MAX as u64) as u8,
            used: values.take_flag(),
            id: values.take_number(u16::MAX as u64) as u16,
            bus: values.take_number(u8::MAX as u64) as u8,
            device: values.take_number(u8::MAX as u64) as u8,
            function: values.take_number(u8::MAX as u64) as u8,
        })
    }
}

impl Part for Acpi {
    ghost taken = { acpi_taken };

    fn take(alloc: Global, values: &mut Values) -> Result<Acpi, OutOfMemory> {
        Ok(Acpi {
            oem_id: values.take_text(alloc),
            oem_table_id: values.take_text(alloc),
        })
    }
}

impl Part for Power {
    ghost taken = { power_taken };

    fn take(_alloc: Global, values: &mut Values) -> Result<Power, OutOfMemory> {
        Ok(Power {
            sci: values.take_number(u16::MAX as u64) as u16,
            profile: values.take_number(u8::MAX as u64) as u8,
            event: values.take_number(u16::MAX as u64) as u16,
            control: values.take_number(u16::MAX as u64) as u16,
            timer: values.take_number(u16::MAX as u64) as u16,
            gpe: values.take_number(u16::MAX as u64) as u16,
            gpe_len: values.take_number(u8::MAX as u64) as u8,
            reset: values.take_number(u16::MAX as u64) as u16,
            reset_value: values.take_number(u8::MAX as u64) as u8,
            century: values.take_number(u8::MAX as u64) as u8,
            rtc: values.take_flag(),
            keyboard: values.take_flag(),
        })
    }
}

impl Part for Hpet {
    ghost taken = { hpet_taken };

    fn take(_alloc: Global, values: &mut Values) -> Result<Hpet, OutOfMemory> {
        Ok(Hpet {
            address: values.take_number(u32::MAX as u64) as u32,
            block_id: values.take_number(u32::MAX as u64) as u32,
            number: values.take_number(u8::MAX as u64) as u8,
            min_tick: values.take_number(u16::MAX as u64) as u16,
        })
    }
}

impl Part for Apic {
    ghost taken = { apic_taken };

    fn take(_alloc: Global, values: &mut Values) -> Result<Apic, OutOfMemory> {
        Ok(Apic {
            local: values.take_number(u32::MAX as u64) as u32,
            legacy: values.take_flag(),
        })
    }
}

impl Part for Cpu {
    ghost taken = { cpu_taken };

    fn take(_alloc: Global, values: &mut Values) -> Result<Cpu, OutOfMemory> {
        Ok(Cpu {
            apic: values.take_number(u32::MAX as u64) as u32,
            node: values.take_number(u8::MAX as u64) as u8,
            enabled: values.take_flag(),
        })
    }
}

impl Part for IoApic {
    ghost taken = { io_apic_taken };

    fn take(_alloc: Global, values: &mut Values) -> Result<IoApic, OutOfMemory> {
        Ok(IoApic {
            id: values.take_number(u8::MAX as u64) as u8,
            address: values.take_number(u32::MAX as u64) as u32,
            gsi: values.take_number(u32::MAX as u64) as u32,
        })
    }
}

impl Part for Override {
    ghost taken = { override_taken };

    fn take(_alloc: Global, values: &mut Values) -> Result<Override, OutOfMemory> {
        Ok(Override {
            irq: values.take_number(u8::MAX as u64) as u8,
            gsi: values.take_number(u32::MAX as u64) as u32,
            flags: values.take_number(u16::MAX as u64) as u16,
        })
    }
}

impl Part for Nmi {
    ghost taken = { nmi_taken };

    fn take(_alloc: Global, values: &mut Values) -> Result<Nmi, OutOfMemory> {
        Ok(Nmi {
            cpu: take_u32_if(values),
            flags: values.take_number(u16::MAX as u64) as u16,
            lint: values.take_number(u8::MAX as u64) as u8,
        })
    }
}

impl Part for u8 {
    ghost taken = { byte_taken };

    fn take(_alloc: Global, values: &mut Values) -> Result<u8, OutOfMemory> {
        Ok(values.take_number(u8::MAX as u64) as u8)
    }
}

impl Part for Numa {
    ghost taken = { numa_taken };

    fn take(alloc: Global, values: &mut Values) -> Result<Numa, OutOfMemory> {
        let nodes = values.take_number(u8::MAX as u64) as u8;
        Ok(Numa {
            nodes,
            distance: list_of(alloc, values)?,
        })
    }
}

impl Part for Window {
    ghost taken = { window_taken };

    fn take(_alloc: Global, values: &mut Values) -> Result<Window, OutOfMemory> {
        Ok(Window {
            kind: kind_at(values.take_word()),
            base: values.take_number(u64::MAX),
            size: values.take_number(u64::MAX),
            prefetch: values.take_flag(),
        })
    }
}

// The kind of a window by its word's place.
fn kind_at(place: usize) -> WindowKind
    ensures { result ≡ kind_at place }
{
    match place {
        0 => WindowKind::Io,
        1 => WindowKind::Mem32,
        _ => WindowKind::Mem64,
    }
}

impl Part for Route {
    ghost taken = { route_taken };

    fn take(_alloc: Global, values: &mut Values) -> Result<Route, OutOfMemory> {
        Ok(Route {
            device: values.take_number(u8::MAX as u64) as u8,
            pin: values.take_number(u8::MAX as u64) as u8,
            gsi: values.take_number(u32::MAX as u64) as u32,
        })
    }
}

impl Part for Bridge {
    ghost taken = { bridge_taken };

    fn take(alloc: Global, values: &mut Values) -> Result<Bridge, OutOfMemory> {
        let ecam = values.take_number(u64::MAX);
        let last_bus = values.take_number(u8::MAX as u64) as u8;
        Ok(Bridge {
            ecam,
            last_bus,
            windows: list_of(alloc, values)?,
            routes: list_of(alloc, values)?,
        })
    }
}

impl Part for Uart {
    ghost taken = { uart_taken };

    fn take(_alloc: Global, values: &mut Values) -> Result<Uart, OutOfMemory> {
        Ok(Uart {
            port: values.take_number(u16::MAX as u64) as u16,
            irq: values.take_number(u8::MAX as u64) as u8,
        })
    }
}

// Takes a number of 32 bits out that may be left out.
fn take_u32_if(values: &mut Values) -> Option<u32>
    ensures value { result ≡ number_if 0xFFFFFFFF (first values.old) }
    ensures rest { values.new ≡ rest values.old }
{
    match values.take_optional_number(u32::MAX as u64) {
        Some(number) => Some(number as u32),
        None => None,
    }
}
