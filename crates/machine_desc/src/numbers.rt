//! Lists in which no two elements have the same number.

ghost use Rattle.std.specs.Prelude.{◌≡◌, ◌<◌, ◌≤◌, ◌==◌, ℕ, Bool, true, not, nat_lt};
ghost use Rattle.std.specs.List.{list_all, list_any};
ghost use Rattle.machine_desc.specs.Rules.{first_refused, is_lawful_cpu, apic_id, is_lawful_io_apic, io_apic_id, is_lawful_override, irq_of};
ghost use Rattle.machine_desc.specs.Rules.{is_lawful_route, pair_of};

use crate::acpi_parts::{Cpu, IoApic, Override};
use crate::device_parts::Route;

// An element of a list in which each one has a number of its own.
pub(crate) trait Numbered: Copy {
    ghost number: { Self → ℕ };

    ghost is_lawful: { Self → Bool };

    fn number(&self) -> u32
        ensures { result ≡ number self.now };

    // Whether the element is lawful, whatever the others are.
    fn is_lawful(&self) -> bool
        ensures { result ≡ is_lawful self.now };
}

// The place of the first element that isn't lawful, or has the number of an earlier one. Elements whose numbers ascend are gone over once;
// only one whose number isn't above all the earlier ones is compared with each of these.
pub(crate) fn first_refused<E: Numbered>(elements: &[E]) -> Option<usize>
    ensures { result ≡ first_refused E.is_lawful E.number elements.now }
{
    let mut above = 0;
    for (index, element) in elements.iter().enumerate() {
        let number = element.number();
        if !element.is_lawful() || !is_new(number, &elements[..index], above) {
            return Some(index);
        }
        above = above_both(above, number);
    }
    None
}

// Whether no earlier element has this number. The earlier numbers are all below `above`.
fn is_new<E: Numbered>(number: u32, earlier: &[E], above: u64) -> bool
    requires { list_all (λ e. nat_lt (E.number e) above) earlier.now ≡ true }
    ensures { result ≡ not (list_any (λ e. E.number e == number) earlier.now) }
{
    above <= number as u64 || !has_number(number, earlier)
}

fn has_number<E: Numbered>(number: u32, elements: &[E]) -> bool
    ensures { result ≡ list_any (λ e. E.number e == number) elements.now }
{
    elements.iter().any(|element| element.number() == number)
}

// A number above this one, and not below another.
fn above_both(other: u64, number: u32) -> u64
    ensures other { other ≤ result }
    ensures number { number < result }
{
    if other <= number as u64 {
        number as u64 + 1
    } else {
        other
    }
}

impl Numbered for Cpu {
    ghost number = { apic_id };

    ghost is_lawful = { is_lawful_cpu };

    fn number(&self) -> u32 {
        self.apic
    }

    fn is_lawful(&self) -> bool {
        self.apic != u32::MAX
    }
}

impl Numbered for IoApic {
    ghost number = { io_apic_id };

    ghost is_lawful = { is_lawful_io_apic };

    fn number(&self) -> u32 {
        self.id as u32
    }

    fn is_lawful(&self) -> bool {
        true
    }
}

impl Numbered for Override {
    ghost number = { irq_of };

    ghost is_lawful = { is_lawful_override };

    fn number(&self) -> u32 {
        self.irq as u32
    }

    fn is_lawful(&self) -> bool {
        self.irq <= 15 && self.flags <= 15
    }
}

impl Numbered for Route {
    ghost number = { pair_of };

    ghost is_lawful = { is_lawful_route };

    fn number(&self) -> u32 {
        256 * self.device as u32 + self.pin as u32
    }

    fn is_lawful(&self) -> bool {
        self.device <= 31 && self.pin <= 3
    }
}
