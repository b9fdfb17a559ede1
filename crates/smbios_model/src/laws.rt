//! Laws over the definitions, each the contract of a function that does nothing.

ghost use Rattle.std.specs.Prelude.{◌≡◌, ◌≢◌, ℕ, ◌+◌, ◌-◌, ◌*◌, ◌^◌, ◌<◌, ◌≤◌, List, Option, IfSome, true};
ghost use Rattle.std.specs.List.{AllByRecursion};
ghost use Rattle.std.specs.Option.{option_map_or};
ghost use Rattle.vt_layout.specs.declared.row.Row.{Row};
ghost use Rattle.vt_layout.specs.Rows.{IsRow, IsPlain, spelled};
ghost use Rattle.vt_layout.specs.Strings.{HasNoNul, AreStrings, AreNamed, numbers_from, strings_of};
ghost use Rattle.machine_desc.specs.declared.machine.System.{System as SystemPart};
ghost use Rattle.machine_desc.specs.declared.smbios_parts.Firmware.{Firmware};
ghost use Rattle.machine_desc.specs.declared.smbios_parts.Chassis.{Chassis as ChassisPart};
ghost use Rattle.machine_desc.specs.declared.smbios_parts.Socket.{Socket};
ghost use Rattle.machine_desc.specs.declared.smbios_parts.Slot.{Slot as SlotPart};
ghost use Rattle.machine_desc.specs.declared.smbios_parts.Dimm.{Dimm};
ghost use Rattle.machine_desc.specs.declared.smbios_parts.MemRange.{MemRange};
ghost use Rattle.machine_desc.specs.Rules.{is_own_uuid, is_lawful_slot};
ghost use Rattle.machine_desc.specs.Fields.{IsFittingRange};
ghost use Rattle.smbios_model.specs.declared.mapped_address.MappedInfo.{MappedInfo as AMappedInfo};
ghost use Rattle.smbios_model.specs.BiosInformation.{bios_of, firmware_in};
ghost use Rattle.smbios_model.specs.SystemInformation.{uuid_field, system_of, uuid_in, system_part_in};
ghost use Rattle.smbios_model.specs.ChassisInformation.{chassis_of, chassis_part_in};
ghost use Rattle.smbios_model.specs.ProcessorInformation.{processor_of, socket_in};
ghost use Rattle.smbios_model.specs.SlotInformation.{slot_of, slot_part_in};
ghost use Rattle.smbios_model.specs.MemoryDevice.{device_of, dimm_in};
ghost use Rattle.smbios_model.specs.MappedAddress.{mapped_of, range_in};
ghost use Rattle.smbios_model.specs.Structures.{IsArea};

/// States that the area of a structure and the strings behind it, as they are written, are read as its texts, of which each
/// that isn't empty is a string.
pub fn written_area_is_read()
    ensures named { (texts : List (List ℕ)) → AreNamed (strings_of texts) (numbers_from 1 texts) texts }
    ensures strings { (texts : List (List ℕ)) → AllByRecursion HasNoNul texts → AreStrings (strings_of texts) }
    ensures area { (rows : List Row) (numbers : List ℕ) (texts : List (List ℕ)) → AllByRecursion IsRow rows → AllByRecursion IsPlain rows
        → numbers ≡ numbers_from 1 texts → IsArea (spelled rows) (strings_of texts) rows numbers texts }
{}

/// States that each part of a machine is got back from the record that it is written as. A UUID must fit its type and be neither all
/// zeros nor all ones, a slot must keep its rule, and the numbers of a range must fit 32 bits; the node of a range is told by no
/// record, and 0 stands for it.
pub fn parts_are_got_back()
    ensures firmware { (f : Firmware) → firmware_in (bios_of f) ≡ f }
    ensures uuid { (uuid : Option ℕ) → IfSome uuid (λ number. number < 2 ^ 128) → option_map_or is_own_uuid uuid true ≡ true
        → uuid_in (uuid_field uuid) ≡ uuid }
    ensures system { (s : SystemPart) → IfSome s.uuid (λ number. number < 2 ^ 128) → option_map_or is_own_uuid s.uuid true ≡ true
        → system_part_in (system_of s) ≡ s }
    ensures chassis { (c : ChassisPart) → chassis_part_in (chassis_of c) ≡ c }
    ensures socket { (s : Socket) → socket_in (processor_of s) ≡ s }
    ensures slot { (s : SlotPart) → is_lawful_slot s ≡ true → slot_part_in (slot_of s) ≡ s }
    ensures dimm { (d : Dimm) → dimm_in (device_of d) ≡ d }
    ensures range { (r : MemRange) → IsFittingRange r → range_in (mapped_of r) ≡ record r { node = 0 } }
{}

/// States that a range is got back with no more memory than was told, in KiB or in bytes.
pub fn ranges_are_rounded_down()
    ensures kib { (i : AMappedInfo) → i.start ≢ 0xFFFFFFFF → (range_in i).size_mib * 1024 ≤ i.end - i.start + 1 }
    ensures bytes { (i : AMappedInfo) → i.start ≡ 0xFFFFFFFF → (range_in i).size_mib * 0x100000 ≤ i.ext_end - i.ext_start + 1 }
{}
