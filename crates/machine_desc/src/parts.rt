//! The rules of a machine's parts, each for itself.

ghost use Rattle.std.specs.Prelude.{◌≡◌, true, is_some, length};
ghost use Rattle.std.specs.Option.{option_map_or};
ghost use Rattle.machine_desc.specs.Rules.{first_failing, counts, is_within, is_own_if_given, uuids_of, is_lawful_chassis, is_lawful_socket};
ghost use Rattle.machine_desc.specs.Rules.{is_lawful_dimm, is_lawful_slot, breach_of_acpi, is_padded_text, is_hpet_address};
ghost use Rattle.machine_desc.specs.Rules.{is_met, first_unmet, parts_on_acpi, lists_on_apic, is_lawful_nmi};
ghost use Rattle.machine_desc.specs.Rules.{has_ports, has_lawful_gpe, has_lawful_reset, is_lawful_power};

use crate::acpi_parts::{Nmi, Power};
use crate::machine::{Acpi, Hpet, Machine};
use crate::smbios_parts::{Chassis, Dimm, Slot, Socket};
use vt_outside::Text;

impl Machine {
    // The first list that is too long.
    pub(crate) fn long_list(&self) -> Option<usize>
        ensures { result ≡ first_failing is_within (counts self.now) }
    {
        let counts = [
            (self.oem_strings.len(), 32),
            (self.sockets.len(), 256),
            (self.dimms.len(), 256),
            (self.ranges.len(), 64),
            (self.slots.len(), 64),
            (self.cpus.len(), 4096),
            (self.io_apics.len(), 16),
            (self.overrides.len(), 16),
            (self.nmis.len(), 16),
            (self.uarts.len(), 4),
            (self.count_of_windows(), 32),
            (self.count_of_routes(), 128),
        ];
        counts.iter().position(|count| count.0 > count.1)
    }

    // The first part that needs ACPI tables, where there are none.
    pub(crate) fn part_without_acpi(&self) -> Option<usize>
        ensures { result ≡ first_unmet (is_some self.now.acpi) (parts_on_acpi self.now) }
    {
        first_unmet(
            self.acpi.is_some(),
            &[
                self.power.is_some(),
                self.hpet.is_some(),
                self.apic.is_some(),
                self.numa.is_some(),
            ],
        )
    }

    // The first list that needs interrupt controllers and has elements, where there are none.
    pub(crate) fn list_without_apic(&self) -> Option<usize>
        ensures { result ≡ first_unmet (is_some self.now.apic) (lists_on_apic self.now) }
    {
        first_unmet(
            self.apic.is_some(),
            &[
                self.cpus.len() != 0,
                self.io_apics.len() != 0,
                self.overrides.len() != 0,
                self.nmis.len() != 0,
            ],
        )
    }

    // The place of the first non-maskable interrupt whose processor, flags or input aren't lawful.
    pub(crate) fn unlawful_nmi(&self) -> Option<usize>
        ensures { result ≡ first_failing (is_lawful_nmi (length self.now.cpus)) self.now.nmis }
    {
        let cpus = self.cpus.len();
        self.nmis
            .as_slice()
            .iter()
            .position(|nmi| !is_lawful_nmi(cpus, *nmi))
    }
}

// The place of the first part that is there although what it needs isn't.
pub(crate) fn first_unmet(needed: bool, parts: &[bool]) -> Option<usize>
    ensures { result ≡ first_unmet needed parts.now }
{
    parts.iter().position(|there| !is_met(needed, *there))
}

fn is_met(needed: bool, there: bool) -> bool
    ensures { result ≡ is_met needed there }
{
    !there || needed
}

impl Machine {
    // The place of the first of its UUIDs, that of the system and that of its generation, which means no one thing.
    pub(crate) fn reserved_uuid(&self) -> Option<usize>
        ensures { result ≡ first_failing is_own_if_given (uuids_of self.now) }
    {
        [self.system.uuid, self.generation]
            .iter()
            .position(|uuid| !is_own_if_given(*uuid))
    }
}

fn is_own_if_given(uuid: Option<u128>) -> bool
    ensures { result ≡ is_own_if_given uuid }
{
    match uuid {
        None => true,
        Some(uuid) => uuid != 0 && uuid != u128::MAX,
    }
}

pub(crate) fn has_lawful_chassis(chassis: &Option<Chassis>) -> bool
    ensures { result ≡ option_map_or is_lawful_chassis chassis.now true }
{
    match chassis {
        None => true,
        Some(chassis) => 1 <= chassis.kind && chassis.kind <= 127,
    }
}

// The place of the first socket whose numbers of cores and threads aren't lawful.
pub(crate) fn unlawful_socket(sockets: &[Socket]) -> Option<usize>
    ensures { result ≡ first_failing is_lawful_socket sockets.now }
{
    sockets.iter().position(|socket| !is_lawful_socket(socket))
}

fn is_lawful_socket(socket: &Socket) -> bool
    ensures { result ≡ is_lawful_socket socket.now }
{
    1 <= socket.cores && socket.cores <= socket.threads && socket.threads <= 65534
}

// The place of the first module whose size or speed isn't lawful.
pub(crate) fn unlawful_dimm(dimms: &[Dimm]) -> Option<usize>
    ensures { result ≡ first_failing is_lawful_dimm dimms.now }
{
    dimms.iter().position(|dimm| !is_lawful_dimm(dimm))
}

fn is_lawful_dimm(dimm: &Dimm) -> bool
    ensures { result ≡ is_lawful_dimm dimm.now }
{
    1 <= dimm.size_mib && dimm.size_mib <= 16_777_216 && dimm.speed <= 65534
}

// The place of the first slot whose numbers aren't lawful.
pub(crate) fn unlawful_slot(slots: &[Slot]) -> Option<usize>
    ensures { result ≡ first_failing is_lawful_slot slots.now }
{
    slots.iter().position(|slot| !is_lawful_slot(slot))
}

fn is_lawful_slot(slot: &Slot) -> bool
    ensures { result ≡ is_lawful_slot slot.now }
{
    1 <= slot.kind && 1 <= slot.width && slot.device <= 31 && slot.function <= 7
}

// The first of the identifiers that doesn't fit its field.
pub(crate) fn breach_of_acpi(acpi: &Option<Acpi>) -> Option<usize>
    ensures { result ≡ breach_of_acpi acpi.now }
{
    match acpi {
        Some(acpi) if !is_padded(6, &acpi.oem_id) => Some(0),
        Some(acpi) if !is_padded(8, &acpi.oem_table_id) => Some(1),
        _ => None,
    }
}

// Whether a text fits a field of so many bytes that is padded with spaces.
fn is_padded(size: usize, text: &Text) -> bool
    ensures { result ≡ is_padded_text size text.now }
{
    let len = text.len();
    len <= size && (len == 0 || *text.get(len - 1) != b' ')
}

fn is_lawful_nmi(cpus: usize, nmi: Nmi) -> bool
    ensures { result ≡ is_lawful_nmi cpus nmi }
{
    let is_of_one = match nmi.cpu {
        None => true,
        Some(cpu) => (cpu as usize) < cpus,
    };
    is_of_one && nmi.flags <= 15 && nmi.lint <= 1
}

pub(crate) fn has_lawful_power(power: Option<Power>) -> bool
    ensures { result ≡ option_map_or is_lawful_power power true }
{
    match power {
        None => true,
        Some(power) => has_ports(power) && has_lawful_gpe(power) && has_lawful_reset(power),
    }
}

fn has_ports(power: Power) -> bool
    ensures { result ≡ has_ports power }
{
    power.event != 0 && power.control != 0 && power.timer != 0
}

fn has_lawful_gpe(power: Power) -> bool
    ensures { result ≡ has_lawful_gpe power }
{
    power.gpe_len % 2 == 0 && power.gpe_len <= 30 && (power.gpe_len == 0) == (power.gpe == 0)
}

fn has_lawful_reset(power: Power) -> bool
    ensures { result ≡ has_lawful_reset power }
{
    power.reset != 0 || power.reset_value == 0
}

pub(crate) fn has_hpet_address(hpet: Option<Hpet>) -> bool
    ensures { result ≡ option_map_or is_hpet_address hpet true }
{
    match hpet {
        None => true,
        Some(hpet) => hpet.address % 1024 == 0,
    }
}
