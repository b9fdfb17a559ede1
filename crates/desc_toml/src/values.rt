//! The values of a machine, in the schema's order: what its parts are taken from again.

ghost use Rattle.std.specs.Prelude.{◌≡◌, [], ◌∷◌, ◌++◌, take, drop, IfOk, OnOk, List as ListOf};
ghost use Rattle.desc_schema.specs.declared.value.Value.{Value as AValue};
ghost use Rattle.desc_toml.specs.Printed.{uuid_or_nothing, number_or_nothing, part_values, list_values, text_values, number_values};
ghost use Rattle.std.specs.List.{flat_map};
ghost use Rattle.desc_toml.specs.Printed.{system_values, firmware_values, chassis_values, socket_values, dimm_values, range_values};
ghost use Rattle.desc_toml.specs.Printed.{slot_values, acpi_values, power_values, hpet_values, apic_values, cpu_values, io_apic_values};
ghost use Rattle.desc_toml.specs.Printed.{override_values, nmi_values, numa_values, place_of_kind, window_values, route_values};
ghost use Rattle.desc_toml.specs.Printed.{bridge_values, uart_values, front_values, array_values, table_values, entry_values};
ghost use Rattle.desc_toml.specs.Printed.{device_values, values_of};

use desc_schema::{Value, Values};
use machine_desc::{
    Acpi, Apic, Bridge, Chassis, Cpu, Dimm, Firmware, Hpet, IoApic, Machine, MemRange, Nmi, Numa,
    Override, Power, Route, Slot, Socket, System, Uart, Window, WindowKind,
};
use std::alloc::Global;
use vt_outside::{List, OutOfMemory, Text};

// A part of a machine, which has values.
trait Valued {
    // Its values, by its keys.
    ghost values_of: { Self → ListOf AValue };

    // Puts them at the end. A text is copied, and its copy keeps the allocator.
    fn put(&self, values: &mut Values) -> Result<(), OutOfMemory>
        ensures { OnOk result (values.new ≡ values.old ++ values_of self.now) };
}

// A table that may be left out.
#[tactic(auto, unfolding(crate::specs::Printed::part_values))]
fn put_part<T: Valued>(part: &Option<T>, values: &mut Values) -> Result<(), OutOfMemory>
    ensures { OnOk result (values.new ≡ values.old ++ part_values T.values_of part.now) }
{
    match part {
        None => values.push(Value::Count(0)),
        Some(part) => {
            values.push(Value::Count(1))?;
            part.put(values)
        }
    }
}

// An array.
#[tactic(auto, unfolding(crate::specs::Printed::list_values))]
fn put_list<T: Valued + Drop>(list: &List<T>, values: &mut Values) -> Result<(), OutOfMemory>
    ensures { OnOk result (values.new ≡ values.old ++ list_values T.values_of list.now) }
{
    values.push(Value::Count(list.len()))?;
    put_each(list.as_slice(), values)
}

// The elements of an array.
fn put_each<T: Valued>(parts: &[T], values: &mut Values) -> Result<(), OutOfMemory>
    ensures { OnOk result (values.new ≡ values.old ++ flat_map T.values_of parts.now) }
{
    for part in parts {
        part.put(values)?;
    }
    Ok(())
}

fn put_text(text: &Text, values: &mut Values) -> Result<(), OutOfMemory>
    ensures { OnOk result (values.new ≡ values.old ++ AValue.Text text.now ∷ []) }
{
    values.push(Value::Text(text.copy()?))
}

fn put_number(number: u64, values: &mut Values) -> Result<(), OutOfMemory>
    ensures { OnOk result (values.new ≡ values.old ++ AValue.Number number ∷ []) }
{
    values.push(Value::Number(number))
}

// A UUID, or nothing where it is left out.
fn put_uuid_if(uuid: Option<u128>, values: &mut Values) -> Result<(), OutOfMemory>
    ensures { OnOk result (values.new ≡ values.old ++ uuid_or_nothing uuid ∷ []) }
{
    values.push(match uuid {
        None => Value::Nothing,
        Some(uuid) => Value::Uuid(uuid),
    })
}

// A number of 32 bits, or nothing where it is left out.
fn put_number_if(number: Option<u32>, values: &mut Values) -> Result<(), OutOfMemory>
    ensures { OnOk result (values.new ≡ values.old ++ number_or_nothing number ∷ []) }
{
    values.push(match number {
        None => Value::Nothing,
        Some(number) => Value::Number(number as u64),
    })
}

// The place of a window's kind among its words.
fn place_of_kind(kind: WindowKind) -> usize
    ensures { result ≡ place_of_kind kind }
{
    match kind {
        WindowKind::Io => 0,
        WindowKind::Mem32 => 1,
        WindowKind::Mem64 => 2,
    }
}

impl Valued for Text {
    ghost values_of = { text_values };

    fn put(&self, values: &mut Values) -> Result<(), OutOfMemory> {
        put_text(self, values)
    }
}

impl Valued for u8 {
    ghost values_of = { number_values };

    fn put(&self, values: &mut Values) -> Result<(), OutOfMemory> {
        put_number(*self as u64, values)
    }
}

impl Valued for System {
    ghost values_of = { system_values };

    fn put(&self, values: &mut Values) -> Result<(), OutOfMemory> {
        put_text(&self.manufacturer, values)?;
        put_text(&self.product, values)?;
        put_text(&self.version, values)?;
        put_text(&self.serial, values)?;
        put_text(&self.sku, values)?;
        put_text(&self.family, values)?;
        put_uuid_if(self.uuid, values)
    }
}

impl Valued for Firmware {
    ghost values_of = { firmware_values };

    fn put(&self, values: &mut Values) -> Result<(), OutOfMemory> {
        put_text(&self.vendor, values)?;
        put_text(&self.version, values)?;
        put_text(&self.date, values)?;
        put_number(self.major as u64, values)?;
        put_number(self.minor as u64, values)
    }
}

impl Valued for Chassis {
    ghost values_of = { chassis_values };

    fn put(&self, values: &mut Values) -> Result<(), OutOfMemory> {
        put_text(&self.manufacturer, values)?;
        put_text(&self.version, values)?;
        put_text(&self.serial, values)?;
        put_text(&self.asset, values)?;
        put_text(&self.sku, values)?;
        put_number(self.kind as u64, values)
    }
}

impl Valued for Socket {
    ghost values_of = { socket_values };

    fn put(&self, values: &mut Values) -> Result<(), OutOfMemory> {
        put_text(&self.designation, values)?;
        put_text(&self.manufacturer, values)?;
        put_text(&self.version, values)?;
        put_text(&self.serial, values)?;
        put_text(&self.asset, values)?;
        put_text(&self.part, values)?;
        put_number(self.cores as u64, values)?;
        put_number(self.threads as u64, values)?;
        put_number(self.mhz as u64, values)
    }
}

impl Valued for Dimm {
    ghost values_of = { dimm_values };

    fn put(&self, values: &mut Values) -> Result<(), OutOfMemory> {
        put_text(&self.locator, values)?;
        put_text(&self.bank, values)?;
        put_text(&self.manufacturer, values)?;
        put_text(&self.serial, values)?;
        put_text(&self.asset, values)?;
        put_text(&self.part, values)?;
        put_number(self.size_mib as u64, values)?;
        put_number(self.speed as u64, values)
    }
}

impl Valued for MemRange {
    ghost values_of = { range_values };

    fn put(&self, values: &mut Values) -> Result<(), OutOfMemory> {
        put_number(self.base_mib as u64, values)?;
        put_number(self.size_mib as u64, values)?;
        put_number(self.node as u64, values)
    }
}

impl Valued for Slot {
    ghost values_of = { slot_values };

    fn put(&self, values: &mut Values) -> Result<(), OutOfMemory> {
        put_text(&self.designation, values)?;
        put_number(self.kind as u64, values)?;
        put_number(self.width as u64, values)?;
        values.push(Value::Flag(self.used))?;
        put_number(self.id as u64, values)?;
        put_number(self.bus as u64, values)?;
        put_number(self.device as u64, values)?;
        put_number(self.function as u64, values)
    }
}

impl Valued for Acpi {
    ghost values_of = { acpi_values };

    fn put(&self, values: &mut Values) -> Result<(), OutOfMemory> {
        put_text(&self.oem_id, values)?;
        put_text(&self.oem_table_id, values)
    }
}

impl Valued for Power {
    ghost values_of = { power_values };

    fn put(&self, values: &mut Values) -> Result<(), OutOfMemory> {
        put_blocks(*self, values)?;
        put_registers(*self, values)
    }
}

// The interrupt, the profile and the blocks of power management.
fn put_blocks(power: Power, values: &mut Values) -> Result<(), OutOfMemory>
    ensures { OnOk result (values.new ≡ values.old ++ take 7 (power_values power)) }
{
    put_number(power.sci as u64, values)?;
    put_number(power.profile as u64, values)?;
    put_number(power.event as u64, values)?;
    put_number(power.control as u64, values)?;
    put_number(power.timer as u64, values)?;
    put_number(power.gpe as u64, values)?;
    put_number(power.gpe_len as u64, values)
}

// What comes behind its blocks.
fn put_registers(power: Power, values: &mut Values) -> Result<(), OutOfMemory>
    ensures { OnOk result (values.new ≡ values.old ++ drop 7 (power_values power)) }
{
    put_number(power.reset as u64, values)?;
    put_number(power.reset_value as u64, values)?;
    put_number(power.century as u64, values)?;
    values.push(Value::Flag(power.rtc))?;
    values.push(Value::Flag(power.keyboard))
}

impl Valued for Hpet {
    ghost values_of = { hpet_values };

    fn put(&self, values: &mut Values) -> Result<(), OutOfMemory> {
        put_number(self.address as u64, values)?;
        put_number(self.block_id as u64, values)?;
        put_number(self.number as u64, values)?;
        put_number(self.min_tick as u64, values)
    }
}

impl Valued for Apic {
    ghost values_of = { apic_values };

    fn put(&self, values: &mut Values) -> Result<(), OutOfMemory> {
        put_number(self.local as u64, values)?;
        values.push(Value::Flag(self.legacy))
    }
}

impl Valued for Cpu {
    ghost values_of = { cpu_values };

    fn put(&self, values: &mut Values) -> Result<(), OutOfMemory> {
        put_number(self.apic as u64, values)?;
        put_number(self.node as u64, values)?;
        values.push(Value::Flag(self.enabled))
    }
}

impl Valued for IoApic {
    ghost values_of = { io_apic_values };

    fn put(&self, values: &mut Values) -> Result<(), OutOfMemory> {
        put_number(self.id as u64, values)?;
        put_number(self.address as u64, values)?;
        put_number(self.gsi as u64, values)
    }
}

impl Valued for Override {
    ghost values_of = { override_values };

    fn put(&self, values: &mut Values) -> Result<(), OutOfMemory> {
        put_number(self.irq as u64, values)?;
        put_number(self.gsi as u64, values)?;
        put_number(self.flags as u64, values)
    }
}

impl Valued for Nmi {
    ghost values_of = { nmi_values };

    fn put(&self, values: &mut Values) -> Result<(), OutOfMemory> {
        put_number_if(self.cpu, values)?;
        put_number(self.flags as u64, values)?;
        put_number(self.lint as u64, values)
    }
}

impl Valued for Numa {
    ghost values_of = { numa_values };

    fn put(&self, values: &mut Values) -> Result<(), OutOfMemory> {
        put_number(self.nodes as u64, values)?;
        put_list(&self.distance, values)
    }
}

impl Valued for Window {
    ghost values_of = { window_values };

    fn put(&self, values: &mut Values) -> Result<(), OutOfMemory> {
        values.push(Value::Word(place_of_kind(self.kind)))?;
        put_number(self.base, values)?;
        put_number(self.size, values)?;
        values.push(Value::Flag(self.prefetch))
    }
}

impl Valued for Route {
    ghost values_of = { route_values };

    fn put(&self, values: &mut Values) -> Result<(), OutOfMemory> {
        put_number(self.device as u64, values)?;
        put_number(self.pin as u64, values)?;
        put_number(self.gsi as u64, values)
    }
}

impl Valued for Bridge {
    ghost values_of = { bridge_values };

    fn put(&self, values: &mut Values) -> Result<(), OutOfMemory> {
        put_number(self.ecam, values)?;
        put_number(self.last_bus as u64, values)?;
        put_list(&self.windows, values)?;
        put_list(&self.routes, values)
    }
}

impl Valued for Uart {
    ghost values_of = { uart_values };

    fn put(&self, values: &mut Values) -> Result<(), OutOfMemory> {
        put_number(self.port as u64, values)?;
        put_number(self.irq as u64, values)
    }
}

// The values of a machine, in the schema's order. `alloc` gives their list its memory.
#[tactic(auto, unfolding(crate::specs::Printed::values_of))]
pub(crate) fn values_of(alloc: Global, machine: &Machine) -> Result<Values, OutOfMemory>
    ensures { IfOk result (λ values. values ≡ values_of machine.now) }
{
    let mut values = Values::new(alloc);
    put_front(machine, &mut values)?;
    put_arrays(machine, &mut values)?;
    put_tables(machine, &mut values)?;
    put_entries(machine, &mut values)?;
    put_devices(machine, &mut values)?;
    Ok(values)
}

// What a machine has before its arrays. The description's version is 1, and there is one table of the system.
#[tactic(auto, unfolding(crate::specs::Printed::front_values))]
fn put_front(machine: &Machine, values: &mut Values) -> Result<(), OutOfMemory>
    ensures { OnOk result (values.new ≡ values.old ++ front_values machine.now) }
{
    put_number(1, values)?;
    put_number(machine.top_mib as u64, values)?;
    put_list(&machine.oem_strings, values)?;
    put_uuid_if(machine.generation, values)?;
    values.push(Value::Count(1))?;
    machine.system.put(values)?;
    put_part(&machine.firmware, values)?;
    put_part(&machine.chassis, values)
}

// The arrays of a machine.
#[tactic(auto, unfolding(crate::specs::Printed::array_values))]
fn put_arrays(machine: &Machine, values: &mut Values) -> Result<(), OutOfMemory>
    ensures { OnOk result (values.new ≡ values.old ++ array_values machine.now) }
{
    put_list(&machine.sockets, values)?;
    put_list(&machine.dimms, values)?;
    put_list(&machine.ranges, values)?;
    put_list(&machine.slots, values)
}

// The tables that are about ACPI.
#[tactic(auto, unfolding(crate::specs::Printed::table_values))]
fn put_tables(machine: &Machine, values: &mut Values) -> Result<(), OutOfMemory>
    ensures { OnOk result (values.new ≡ values.old ++ table_values machine.now) }
{
    put_part(&machine.acpi, values)?;
    put_part(&machine.power, values)?;
    put_part(&machine.hpet, values)?;
    put_part(&machine.apic, values)
}

// The arrays that are about ACPI, and the table that has one.
#[tactic(auto, unfolding(crate::specs::Printed::entry_values))]
fn put_entries(machine: &Machine, values: &mut Values) -> Result<(), OutOfMemory>
    ensures { OnOk result (values.new ≡ values.old ++ entry_values machine.now) }
{
    put_list(&machine.cpus, values)?;
    put_list(&machine.io_apics, values)?;
    put_list(&machine.overrides, values)?;
    put_list(&machine.nmis, values)?;
    put_part(&machine.numa, values)
}

// The devices.
#[tactic(auto, unfolding(crate::specs::Printed::device_values))]
fn put_devices(machine: &Machine, values: &mut Values) -> Result<(), OutOfMemory>
    ensures { OnOk result (values.new ≡ values.old ++ device_values machine.now) }
{
    put_part(&machine.bridge, values)?;
    put_list(&machine.uarts, values)
}
