//! Laws over the definitions, each the contract of a function that does nothing.

ghost use Rattle.std.specs.Prelude.{◌≡◌, ◌<◌, ◌≤◌, ◌^◌, ℕ, List, [], length, IsSome, option_map};
ghost use Rattle.vt_layout.specs.Rows.{linked, spelled as rows_spelled};
ghost use Rattle.aml_terms.specs.Trees.{view, views};
ghost use Rattle.aml_terms.specs.Grammar.{Aml};
ghost use Rattle.aml_terms.specs.WellFormed.{AreGood};
ghost use Rattle.aml_terms.specs.Written.{AreShort, spelled};
ghost use Rattle.aml_generation.specs.Generation.{taken};
ghost use Rattle.machine_desc.specs.declared.machine.Machine.{Machine};
ghost use Rattle.machine_desc.specs.Rules.{IsAccepted};
ghost use Rattle.machine_desc.specs.Fields.{HasFittingFields};
ghost use Rattle.aml_terms.specs.declared.term.Term.TheVariants.{Fixed, Scope};
ghost use Rattle.dsdt_terms.specs.Bridge.{route_term};
ghost use Rattle.dsdt_terms.specs.Devices.{cpu_device, generation_device};
ghost use Rattle.dsdt_terms.specs.Dsdt.{dsdt_terms, terms_at, kept_terms, dsdt_bytes, dsdt_body, id_address, system_bus};
ghost use Rattle.dsdt_terms.specs.WorkedDevices.{route_of_device_1, route_of_device_1_bytes, route_of_device_0, route_of_device_0_bytes};
ghost use Rattle.dsdt_terms.specs.WorkedDevices.{processor_2_bytes, generation_bytes, no_devices_bytes};

/// States that the terms of an accepted machine's DSDT, as they are written, are well formed and short enough to be written, and have at most
/// 160 KiB; and that they are written as the rows of its definition block.
pub fn terms_of_a_machine_can_be_written()
    ensures good { (machine : Machine) → IsAccepted machine → AreGood (views (dsdt_terms machine)) }
    ensures short { (machine : Machine) → IsAccepted machine → AreShort (views (dsdt_terms machine)) }
    ensures few { (machine : Machine) → IsAccepted machine → length (dsdt_bytes machine) ≤ 0x28000 }
    ensures rows { (machine : Machine) → rows_spelled (dsdt_body machine) ≡ dsdt_bytes machine }
{}

/// States that, wherever the files stand, those rows with the place of the id's file added spell the terms that lead to the id there, where
/// the machine's numbers fit their fields, and the address of its id fits 32 bits.
pub fn terms_of_a_machine_are_read_wherever_its_files_stand()
    ensures { (machine : Machine) (place_of : List ℕ → ℕ) → IsAccepted machine → HasFittingFields machine
        → (IsSome machine.generation → id_address place_of < 2 ^ 32)
        → Aml (views (terms_at (id_address place_of) machine)) (rows_spelled (linked place_of (dsdt_body machine))) }
{}

/// States that the terms that lead to the id of a machine's generation at an address below 4 GiB tell this address and no other, and are kept
/// without it; and that those of a machine without an id tell none.
pub fn terms_of_a_machine_lead_to_its_id()
    ensures { (machine : Machine) (address : ℕ) → (IsSome machine.generation → address < 2 ^ 32)
        → taken (views (terms_at address machine)) ≡ (option_map (λ id. address) machine.generation, views (kept_terms machine)) }
{}

/// States what worked devices are written as.
pub fn worked_devices_are_spelled()
    ensures first_route { spelled (view (route_term route_of_device_1)) ≡ route_of_device_1_bytes }
    ensures second_route { spelled (view (route_term route_of_device_0)) ≡ route_of_device_0_bytes }
    ensures processor { spelled (view (cpu_device 2)) ≡ processor_2_bytes }
    ensures generation { spelled (view (generation_device (Fixed 40))) ≡ generation_bytes }
    ensures none { spelled (view (Scope system_bus [])) ≡ no_devices_bytes }
{}
