ghost use Rattle.std.specs.Prelude.{◌≡◌, ◌<◌, ◌^◌, ◌++◌, None, Some, MatchResult};
ghost use Rattle.machine_desc.specs.declared.machine.Broken.{Broken as ABroken};
ghost use Rattle.machine_desc.specs.Rules.{broken_rule, breaches_of_sizes, breaches_within_sizes, breaches_of_parts, breaches_of_acpi_parts};
ghost use Rattle.machine_desc.specs.Rules.{breaches_of_devices, first_broken, only_at};

use crate::devices::{has_lawful_ecam, unlawful_route, unlawful_uart, unlawful_window};
use crate::machine::{Broken, Machine};
use crate::nodes::has_lawful_numa;
use crate::numbers::first_refused;
use crate::parts::{
    breach_of_acpi, has_hpet_address, has_lawful_chassis, has_lawful_power, unlawful_dimm,
    unlawful_slot, unlawful_socket,
};
use crate::ranges::unlawful_range;
use crate::texts::empty_text;

impl Machine {
    /// Checks the rules in the order of their numbers, and returns `Ok` where the machine keeps each one. It takes no memory.
    /// Else the error gives the first rule that is broken and the least index at which it is broken:
    /// - Rule 1, index 0: `top_mib` is 64 to 3072.
    /// - Rule 2: `oem_strings` (index 0) has at most 32 texts, `sockets` (index 1) and `dimms` (index 2) at most 256 elements,
    ///   `ranges` (index 3) and `slots` (index 4) at most 64, `cpus` (index 5) at most 4,096, `io_apics` (index 6), `overrides` (index 7)
    ///   and `nmis` (index 8) at most 16, `uarts` (index 9) at most 4, and of `bridge` `windows` (index 10) at most 32 and `routes`
    ///   (index 11) at most 128.
    /// - Rule 3, index 0: each text has at most 64 bytes, each 0x20 to 0x7E.
    /// - Rule 4: the UUID (index 0) and the id of the generation (index 1), where given, are neither all zeros nor all ones (RFC 9562).
    /// - Rule 5, index of the text: no text of `oem_strings` is empty.
    /// - Rule 6, index 0: the `kind` of the chassis is 1 to 127.
    /// - Rule 7, index of the socket: `cores` is at least 1 and at most `threads`, which is at most 65,534.
    /// - Rule 8, index of the module: `size_mib` is 1 to 16,777,216, and `speed` at most 65,534.
    /// - Rule 9, index 0: ranges are given exactly where modules are.
    /// - Rule 10, index of the range: `size_mib` is at least 1, the range ends within 2^32 MiB, and it begins at or behind the end of
    ///   the one before.
    /// - Rule 11, index 0: where ranges are given, those that begin below 4096 MiB are all memory below `top_mib`.
    /// - Rule 12, index of the slot: `kind` and `width` are at least 1, `device` is at most 31, and `function` at most 7.
    /// - Rule 13: a machine with `power` (index 0), `hpet` (index 1), `apic` (index 2) or `numa` (index 3) has ACPI tables.
    /// - Rule 14: a machine with `bridge` (index 0), `uarts` (index 1) or `generation` (index 2) has `power`.
    /// - Rule 15: a machine with `cpus` (index 0), `io_apics` (index 1), `overrides` (index 2) or `nmis` (index 3) has `apic`.
    /// - Rule 16: `oem_id` (index 0) has at most 6 bytes, `oem_table_id` (index 1) at most 8, and neither ends in a space.
    /// - Rule 17, index 0: of `power` the ports `event`, `control` and `timer` aren't 0; `gpe_len` is even, at most 30, and 0 exactly where
    ///   `gpe` is; and `reset_value` is 0 where `reset` is.
    /// - Rule 18, index 0: the address of the HPET is a multiple of 1024.
    /// - Rule 19, index of the processor: its `apic` isn't 0xFFFFFFFF, and isn't an earlier one's.
    /// - Rule 20, index of the I/O APIC: its `id` isn't an earlier one's.
    /// - Rule 21, index of the override: its `irq` is at most 15 and isn't an earlier one's, and its `flags` are at most 15.
    /// - Rule 22, index of the NMI: its `cpu`, where given, is less than the number of processors, its `flags` are at most 15, and its
    ///   `lint` at most 1.
    /// - Rule 23, index 0: `nodes` is 1 to 64, and `distance` has `nodes` times `nodes` numbers, row by row: 10 from a node to itself, at
    ///   least 10 elsewhere.
    /// - Rule 24, index of the processor, or the number of processors and the index of the range: its `node` is below the number of
    ///   nodes, or 0 where `numa` isn't given.
    /// - Rule 25, index 0: the `ecam` of the bridge is a multiple of 1 MiB, and below 2^52.
    /// - Rule 26, index of the window: `size` is at least 1. Of ports `base` and `size` together are at most 65,536, `size` is at most
    ///   65,535, and there is no `prefetch`; of `mem32` they are at most 2^32, and `size` is less; of `mem64` they are at most 2^52.
    /// - Rule 27, index of the route: `device` is at most 31, `pin` at most 3, and no earlier route has both.
    /// - Rule 28, index of the serial port: its `irq` is at most 15, and its `port` at most 0xFFF8.
    pub fn check(&self) -> Result<(), Broken>
        ensures { MatchResult result (λ _. broken_rule self.now ≡ None) (λ broken. broken_rule self.now ≡ Some broken) }
    {
        match self.broken_rule() {
            None => Ok(()),
            Some(broken) => Err(broken),
        }
    }

    // The first rule that the machine breaks. Where a list is too long no other rule is worked out: a description may hold millions of
    // elements, and some of them are compared in pairs.
    fn broken_rule(&self) -> Option<Broken>
        ensures { result ≡ broken_rule self.now }
    {
        match first_broken(&self.breaches_of_sizes()) {
            None => self.broken_within_sizes(),
            Some(broken) => Some(broken),
        }
    }

    fn broken_within_sizes(&self) -> Option<Broken>
        requires { first_broken (breaches_of_sizes self.now) ≡ None }
        ensures { result ≡ first_broken (breaches_within_sizes self.now) }
    {
        match first_broken(&self.breaches_of_parts()) {
            None => self.broken_behind_parts(),
            Some(broken) => Some(broken),
        }
    }

    fn broken_behind_parts(&self) -> Option<Broken>
        requires { first_broken (breaches_of_sizes self.now) ≡ None }
        ensures { result ≡ first_broken (breaches_of_acpi_parts self.now ++ breaches_of_devices self.now) }
    {
        match first_broken(&self.breaches_of_acpi_parts()) {
            None => first_broken(&self.breaches_of_devices()),
            Some(broken) => Some(broken),
        }
    }

    // The number of each rule on sizes, and the least index at which the machine breaks it, if it does.
    fn breaches_of_sizes(&self) -> [(u16, Option<usize>); 2]
        ensures { result ≡ breaches_of_sizes self.now }
    {
        [
            (1, only_at(0, (64..=3072).contains(&self.top_mib))),
            (2, self.long_list()),
        ]
    }

    // The same of the rules on texts and on parts that no ACPI table tells.
    fn breaches_of_parts(&self) -> [(u16, Option<usize>); 10]
        ensures { result ≡ breaches_of_parts self.now }
    {
        [
            (3, only_at(0, self.has_lawful_texts())),
            (4, self.reserved_uuid()),
            (5, empty_text(self.oem_strings.as_slice())),
            (6, only_at(0, has_lawful_chassis(&self.chassis))),
            (7, unlawful_socket(self.sockets.as_slice())),
            (8, unlawful_dimm(self.dimms.as_slice())),
            (9, only_at(0, self.has_ranges_where_it_has_dimms())),
            (10, unlawful_range(self.ranges.as_slice())),
            (11, only_at(0, self.has_memory_below_its_top())),
            (12, unlawful_slot(self.slots.as_slice())),
        ]
    }

    // The same of the rules on parts that ACPI tables tell.
    fn breaches_of_acpi_parts(&self) -> [(u16, Option<usize>); 12]
        ensures { result ≡ breaches_of_acpi_parts self.now }
    {
        [
            (13, self.part_without_acpi()),
            (14, self.part_without_power()),
            (15, self.list_without_apic()),
            (16, breach_of_acpi(&self.acpi)),
            (17, only_at(0, has_lawful_power(self.power))),
            (18, only_at(0, has_hpet_address(self.hpet))),
            (19, first_refused(self.cpus.as_slice())),
            (20, first_refused(self.io_apics.as_slice())),
            (21, first_refused(self.overrides.as_slice())),
            (22, self.unlawful_nmi()),
            (23, only_at(0, has_lawful_numa(&self.numa))),
            (24, self.missing_node()),
        ]
    }

    // The same of the rules on devices.
    fn breaches_of_devices(&self) -> [(u16, Option<usize>); 4]
        ensures { result ≡ breaches_of_devices self.now }
    {
        [
            (25, only_at(0, has_lawful_ecam(&self.bridge))),
            (26, unlawful_window(&self.bridge)),
            (27, unlawful_route(&self.bridge)),
            (28, unlawful_uart(self.uarts.as_slice())),
        ]
    }
}

fn first_broken(breaches: &[(u16, Option<usize>)]) -> Option<Broken>
    requires { (broken : ABroken) → first_broken breaches.now ≡ Some broken → broken.index < 2 ^ 32 }
    ensures { result ≡ first_broken breaches.now }
{
    for breach in breaches {
        if let Some(index) = breach.1 {
            return Some(Broken {
                rule: breach.0,
                index: index as u32,
            });
        }
    }
    None
}

// The breach of a rule that has no index but this one.
fn only_at(index: usize, holds: bool) -> Option<usize>
    ensures { result ≡ only_at index holds }
{
    if holds { None } else { Some(index) }
}
