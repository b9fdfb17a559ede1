//! Laws over the definitions, each the contract of a function that does nothing, and one on types, which reads numbers.

ghost use Rattle.std.specs.Prelude.{◌≡◌, ◌↔◌, ◌<◌, ℕ, List, None, true};
ghost use Rattle.std.specs.List.{AllByRecursion};
ghost use Rattle.machine_desc.specs.declared.machine.Machine.{Machine};
ghost use Rattle.machine_desc.specs.declared.smbios_parts.MemRange.{MemRange};
ghost use Rattle.machine_desc.specs.Rules.{IsAccepted, breach_of, is_memory, apic_id, io_apic_id, irq_of};
ghost use Rattle.machine_desc.specs.Numbers.{AreDistinct};
ghost use Rattle.machine_desc.specs.Fields.{HasFittingFields, IsFittingRange};
ghost use Rattle.machine_desc.specs.Memory.{AreInOrder, IsLowMemory};

use crate::fitting::{read_numbers_if, read_numbers_of_each};
use crate::machine::Machine;

/// States that an accepted machine keeps the rule of each number.
pub fn accepted_machine_keeps_each_rule()
    ensures { (machine : Machine) (number : ℕ) → IsAccepted machine → breach_of number machine ≡ None }
{}

/// States that of ranges in their order those that begin below 4 GiB are all memory below a top exactly where an address, in MiB,
/// lies in one of them if and only if it lies below the top.
pub fn memory_is_what_lies_below_the_top()
    ensures { (top : ℕ) (ranges : List MemRange) → AreInOrder ranges
        → (is_memory top ranges ≡ true) ↔ ((address : ℕ) → IsLowMemory ranges address ↔ (address < top)) }
{}

/// States that the numbers of an accepted machine's ranges fit 32 bits.
pub fn ranges_of_an_accepted_machine_fit()
    ensures { (machine : Machine) → IsAccepted machine → AllByRecursion IsFittingRange machine.ranges }
{}

/// States that no two processors of an accepted machine have one APIC id, no two I/O APICs one id, and no two overrides one ISA interrupt.
pub fn numbers_in_an_accepted_machine_differ()
    ensures cpus { (machine : Machine) → IsAccepted machine → AreDistinct apic_id machine.cpus }
    ensures io_apics { (machine : Machine) → IsAccepted machine → AreDistinct io_apic_id machine.io_apics }
    ensures overrides { (machine : Machine) → IsAccepted machine → AreDistinct irq_of machine.overrides }
{}

/// States that the numbers of `machine` fit their fields, as the types of its fields say. It reads each of them once, and does nothing
/// else.
pub fn numbers_of_a_machine_fit(machine: &Machine)
    ensures { HasFittingFields machine.now }
{
    machine.read_uuids();
    read_numbers_if(&machine.firmware);
    read_numbers_of_each(machine.sockets.as_slice());
    read_numbers_of_each(machine.slots.as_slice());
    read_numbers_if(&machine.power);
    read_numbers_if(&machine.hpet);
    read_numbers_if(&machine.apic);
    read_numbers_of_each(machine.cpus.as_slice());
    read_numbers_of_each(machine.io_apics.as_slice());
    read_numbers_of_each(machine.overrides.as_slice());
    read_numbers_of_each(machine.nmis.as_slice());
    read_numbers_if(&machine.numa);
    read_numbers_if(&machine.bridge);
}
