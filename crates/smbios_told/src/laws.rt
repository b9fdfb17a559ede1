//! Laws over the definitions, each the contract of a function that does nothing.

ghost use Rattle.std.specs.Prelude.{◌≡◌, map};
ghost use Rattle.machine_desc.specs.declared.machine.Machine.{Machine};
ghost use Rattle.machine_desc.specs.declared.smbios_parts.MemRange.{MemRange};
ghost use Rattle.machine_desc.specs.Rules.{IsAccepted, HasFittingUuids};
ghost use Rattle.smbios_model.specs.MachineStructures.{structures_of};
ghost use Rattle.smbios_told.specs.Parts.{parts_in};

/// States that the parts of an accepted machine are got back from its structures, its ranges but for their nodes.
pub fn parts_of_a_machine_are_got_back()
    ensures { (m : Machine) → IsAccepted m → HasFittingUuids m
        → parts_in (structures_of m) ≡ record {
          oem_strings = m.oem_strings;
          system = m.system;
          firmware = m.firmware;
          chassis = m.chassis;
          sockets = m.sockets;
          dimms = m.dimms;
          ranges = map (λ (r : MemRange). record r { node = 0 }) m.ranges;
          slots = m.slots;
        } }
{}
