//! Laws over the definitions, each the contract of a function that does nothing.

ghost use Rattle.std.specs.Prelude.{◌≡◌, length, drop, map, option_map, option_and_then};
ghost use Rattle.machine_desc.specs.declared.machine.Machine.{Machine};
ghost use Rattle.machine_desc.specs.declared.smbios_parts.MemRange.{MemRange};
ghost use Rattle.machine_desc.specs.Rules.{IsAccepted};
ghost use Rattle.machine_desc.specs.Fields.{HasFittingFields};
ghost use Rattle.acpi_model.specs.Acpi.{acpi_of};
ghost use Rattle.acpi_told.specs.Nodes.{on_told_nodes, node_of_range, range_on};
ghost use Rattle.dsdt_terms.specs.Dsdt.{has_clock, has_keyboard, without_ecam};
ghost use Rattle.acpi_told.specs.Parts.{power_told, bridge_told, parts_in, affinities_in, fadt_of, mcfg_of};

/// States that the parts of an accepted machine of which its tables tell whole are got back from them.
pub fn parts_of_a_machine_are_got_back()
    ensures { (m : Machine) → IsAccepted m → HasFittingFields m
        → parts_in (option_map (acpi_of m) m.acpi) ≡ record {
          acpi = m.acpi;
          hpet = m.hpet;
          controllers =
              record { apic = m.apic; cpus = m.cpus; io_apics = m.io_apics; overrides = m.overrides; nmis = m.nmis };
          numa = m.numa;
        } }
{}

/// States that the nodes of an accepted machine's ranges are got back from its tables: from the entries of the SRAT behind those of its
/// processors.
pub fn nodes_of_ranges_are_got_back()
    ensures { (m : Machine) → IsAccepted m
        → on_told_nodes node_of_range range_on (drop (length m.cpus) (affinities_in (option_map (acpi_of m) m.acpi)))
        (map (λ (r : MemRange). record r { node = 0 }) m.ranges) ≡ m.ranges }
{}

/// States that the power management of an accepted machine is got back from its FADT, and its bridge from what its device tells of it and
/// from the MCFG.
pub fn parts_that_devices_tell_too_are_got_back()
    ensures power { (m : Machine) → IsAccepted m → HasFittingFields m
        → option_map (power_told (has_clock m.power) (has_keyboard m.power)) (option_and_then fadt_of (option_map (acpi_of m) m.acpi)) ≡ m.power }
    ensures bridge { (m : Machine) → IsAccepted m
        → option_map (bridge_told (option_and_then mcfg_of (option_map (acpi_of m) m.acpi))) (option_map without_ecam m.bridge) ≡ m.bridge }
{}
