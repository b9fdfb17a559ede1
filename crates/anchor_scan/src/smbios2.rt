ghost use Rattle.std.specs.Prelude.{◌≡◌, ◌+◌, ◌%◌, ◌<◌, ◌≤◌, ◌↔◌, length, take, drop, IsTrue};
ghost use Rattle.vt_bytes.specs.Numbers.{le};
ghost use Rattle.vt_bytes.specs.Memory.{IsRamRange, seen};
ghost use Rattle.smbios_model.specs.declared.anchor.AnchorForm.TheVariants.{Smbios2};
ghost use Rattle.smbios_model.specs.Anchor.{HasAnchorBy};
ghost use Rattle.anchor_scan.specs.Found.{HasLengthAndSums, HasOldNumbers};

use crate::anchor::{Found, has_mark};
use guest_memory::GuestMemory;
use smbios_model::Anchor;
use vt_bytes::{BIOS_END, get_le};

// The mark of an old anchor, with which it begins: the standard's anchor string.
const MARK: &[u8] = b"_SM_";

// The mark of the part that tells where the structures are: the standard's intermediate anchor string.
const RANGE_MARK: &[u8] = b"_DMI_";

// How many bytes an old anchor has, as it tells itself, and that part, which reaches to its end.
const SIZE: u32 = 31;

const LENGTH: u8 = 31;

const RANGE_SIZE: u32 = 15;

// Where that part stands, and the length.
const RANGE_PLACE: u64 = 0x10;

const LENGTH_PLACE: u64 = 5;

// Where its other numbers stand.
const MAJOR_PLACE: usize = 6;

const MINOR_PLACE: usize = 7;

const MAXIMUM_SIZE_PLACE: usize = 0x16;

const STRUCTURES_PLACE: usize = 0x18;

/// Tells whether a valid old anchor (DSP0134 5.2.1) stands at `address`, where an anchor may stand.
pub(crate) fn smbios2_stands(memory: &GuestMemory, address: u64) -> bool
    requires from { 0xF0000 ≤ address }
    requires aligned { address % 16 ≡ 0 }
    requires below { address < 0x100000 }
    ensures { IsTrue result ↔ HasAnchorBy Smbios2 (seen memory.now.memory) address }
{
    if BIOS_END - address < u64::from(SIZE) || !has_mark(memory, address, MARK) {
        return false;
    }
    if !has_mark(memory, address + RANGE_PLACE, RANGE_MARK) {
        return false;
    }
    has_length_and_sums(memory, address)
}

// Whether the length that stands where one of an old anchor would is 31, and its sums are zero.
fn has_length_and_sums(memory: &GuestMemory, address: u64) -> bool
    requires from { 0xF0000 ≤ address }
    requires within { address + 31 ≤ 0x100000 }
    ensures { IsTrue result ↔ HasLengthAndSums (seen memory.now.memory) address }
{
    if memory.read(address + LENGTH_PLACE) != LENGTH {
        return false;
    }
    if memory.sum_range(address, SIZE) != 0 {
        return false;
    }
    memory.sum_range(address + RANGE_PLACE, RANGE_SIZE) == 0
}

/// Reads the numbers of an old anchor at `address`, where 31 bytes must be RAM. Its marks, its length and its sums aren't looked at.
pub(crate) fn read_smbios2(memory: &GuestMemory, address: u64) -> Found
    requires { IsRamRange memory.now.memory.top address 31 }
    ensures { HasOldNumbers (seen memory.now.memory) address result.anchor result.structures }
{
    let mut bytes = [0; SIZE as usize];
    memory.copy_out(address, &mut bytes);
    Found {
        anchor: Anchor {
            length: LENGTH,
            major: bytes[MAJOR_PLACE],
            minor: bytes[MINOR_PLACE],
            docrev: 0,
            maximum_size: word_at(&bytes, MAXIMUM_SIZE_PLACE),
        },
        structures: get_le(&bytes, STRUCTURES_PLACE, 4),
    }
}

// The number in the two bytes from an offset on, low byte first.
fn word_at(bytes: &[u8], at: usize) -> u32
    requires { at + 2 ≤ length bytes.now }
    ensures { result ≡ le (take 2 (drop at bytes.now)) }
{
    get_le(bytes, at, 2) as u32
}
