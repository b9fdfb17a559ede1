//! Laws over the definitions, each the contract of a function that does nothing.

ghost use Rattle.std.specs.Prelude.{◌≡◌, map, option_map};
ghost use Rattle.aml_terms.specs.Trees.{view};
ghost use Rattle.machine_desc.specs.declared.machine.Machine.{Machine};
ghost use Rattle.machine_desc.specs.Rules.{IsAccepted};
ghost use Rattle.machine_desc.specs.Fields.{HasFittingFields};
ghost use Rattle.dsdt_terms.specs.Dsdt.{kept_terms, has_clock, has_keyboard, without_ecam};
ghost use Rattle.dsdt_devices.specs.Told.{devices_in};

/// States that the devices of an accepted machine are got back from the terms that are kept of it, the bridge but for its configuration space.
pub fn devices_of_a_machine_are_got_back()
    ensures { (m : Machine) → IsAccepted m → HasFittingFields m
        → devices_in (map view (kept_terms m)) ≡ record {
          bridge = option_map without_ecam m.bridge;
          uarts = m.uarts;
          rtc = has_clock m.power;
          keyboard = has_keyboard m.power;
        } }
{}
