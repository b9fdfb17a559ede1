//! What is got back from records that no machine is written as, worked by hand from DSP0134, 7.2.1, 7.10, 7.18 and 7.20.

ghost use Rattle.std.specs.Prelude.{◌≡◌, [], ◌∷◌, Some, None, replicate, true, false};
ghost use Rattle.smbios_model.specs.SystemInformation.{uuid_in};
ghost use Rattle.smbios_model.specs.SlotInformation.{slot_part_in};
ghost use Rattle.smbios_model.specs.MemoryDevice.{mib_in};
ghost use Rattle.smbios_model.specs.MappedAddress.{range_in};
ghost use Rattle.test_scan.specs.Back.{mapped, range, slot};

use std::test::Fail;

#[test]
fn worked_records(rt: HostRuntime) -> Result<(), Fail> {
    let _rt = rt;
    worked_ranges();
    worked_extended_ranges();
    worked_sizes();
    worked_slots();
    worked_uuids();
    Ok(())
}

// Two KiB around the first MiB are no MiB, and four around two MiB are two; one that ends before it begins is empty.
fn worked_ranges()
    ensures around_one { range_in (mapped 1023 1024 0 0) ≡ range 0 0 }
    ensures around_two { range_in (mapped 1023 3072 0 0) ≡ range 0 2 }
    ensures one { range_in (mapped 1024 2047 0 0) ≡ range 1 1 }
    ensures last { range_in (mapped 0 0xFFFFFFFF 0 0) ≡ range 0 4194304 }
    ensures backwards { range_in (mapped 4096 1024 0 0) ≡ range 4 0 }
{}

// The first field alone says that the extended fields tell. What doesn't fit 32 bits is 0.
fn worked_extended_ranges()
    ensures three { range_in (mapped 0xFFFFFFFF 0 0x100000 0x3FFFFF) ≡ range 1 3 }
    ensures around_one { range_in (mapped 0xFFFFFFFF 0xFFFFFFFF 0xFFFFF 0x100000) ≡ range 0 0 }
    ensures too_high { range_in (mapped 0xFFFFFFFF 0xFFFFFFFF 0x10000000000000 0x100000000FFFFF) ≡ range 0 1 }
    ensures too_large { range_in (mapped 0xFFFFFFFF 0xFFFFFFFF 0 0xFFFFFFFFFFFFFFFF) ≡ range 0 0 }
{}

fn worked_sizes()
    ensures below { mib_in 0x7FFE 9 ≡ 0x7FFE }
    ensures extended { mib_in 0x7FFF 9 ≡ 9 }
    ensures above { mib_in 0x8000 9 ≡ 0x8000 }
{}

// Device 4, function 5. Its use is neither free nor used in the last one.
fn worked_slots()
    ensures device { (slot_part_in (slot 3 0x25)).device ≡ 4 }
    ensures function { (slot_part_in (slot 3 0x25)).function ≡ 5 }
    ensures free { (slot_part_in (slot 3 0)).used ≡ false }
    ensures used { (slot_part_in (slot 4 0)).used ≡ true }
    ensures unknown { (slot_part_in (slot 2 0)).used ≡ false }
{}

fn worked_uuids()
    ensures none { uuid_in (replicate 16 0) ≡ None }
    ensures one { uuid_in (0x33 ∷ 0x22 ∷ 0x11 ∷ 0x00 ∷ 0x55 ∷ 0x44 ∷ 0x77 ∷ 0x66 ∷ 0x88 ∷ 0x99 ∷ 0xAA ∷ 0xBB ∷ 0xCC ∷ 0xDD ∷ 0xEE ∷ 0xFF ∷ [])
        ≡ Some 0x00112233445566778899AABBCCDDEEFF }
{}
