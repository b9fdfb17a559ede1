ghost use Rattle.std.specs.Prelude.{◌≡◌, ◌+◌, ◌%◌, ◌<◌, ◌≤◌, ◌↔◌, None, refl, length, IsTrue, IfSome};
ghost use Rattle.vt_bytes.specs.Memory.{IsRamRange, seen};
ghost use Rattle.smbios_model.specs.declared.anchor.AnchorForm.TheVariants.{Smbios2};
ghost use Rattle.smbios_model.specs.Anchor.{HasAnchor, HasAnchorBy, least_length};
ghost use Rattle.anchor_scan.specs.Shown.{HasNoAnchor, HasNoAnchorBy, IsFirstAnchor, IsFirstAnchorBy};
ghost use Rattle.anchor_scan.specs.Found.{HasMark, HasNumbers, HasNumbersBy, anchor_place};

use crate::least::{AnchorKind, least_anchor};
use crate::smbios2::{read_smbios2, smbios2_stands};
use guest_memory::GuestMemory;
use smbios_model::{Anchor, AnchorForm, anchor_of, anchor_rows};
use vt_bytes::BIOS_END;
use vt_layout::{Row, read_u8, read_u32, read_u64};

// The mark of a 64-bit entry point, with which it begins: the standard's anchor string.
const MARK: &[u8] = b"_SM3_";

// The fewest bytes of one.
const ANCHOR_SIZE: u64 = 0x18;

// The indices of its numbers among its rows.
const LENGTH_ROW: usize = 2;

const MAJOR_ROW: usize = 3;

const MINOR_ROW: usize = 4;

const DOCREV_ROW: usize = 5;

const MAXIMUM_SIZE_ROW: usize = 8;

const STRUCTURES_ROW: usize = 9;

/// Finds the SMBIOS anchor of `memory` (DSP0134 5.2.2): the least multiple of 16 from 0xF0000 on where a valid one stands. It
/// begins with `_SM3_`, has by its length at least 0x18 bytes, the last of them below 0x100000, and these bytes sum to zero. Returns
/// `None` when there is none. It takes no memory.
pub fn find_smbios(memory: &GuestMemory) -> Option<u64>
    ensures some { IfSome result (IsFirstAnchor (seen memory.now.memory)) }
    ensures none { result ≡ None ↔ HasNoAnchor (seen memory.now.memory) }
{
    find_smbios_by(memory, AnchorForm::Smbios3)
}

/// Finds the old anchor of `memory` (DSP0134 5.2.1): the least multiple of 16 from 0xF0000 on where a valid one stands, the last of its 31
/// bytes below 0x100000. Returns `None` when there is none. It takes no memory.
pub fn find_smbios2(memory: &GuestMemory) -> Option<u64>
    ensures some { IfSome result (IsFirstAnchorBy Smbios2 (seen memory.now.memory)) }
    ensures none { result ≡ None ↔ HasNoAnchorBy Smbios2 (seen memory.now.memory) }
{
    find_smbios_by(memory, AnchorForm::Smbios2)
}

/// Does the same by the form `form`. A valid anchor of the old form (DSP0134 5.2.1) begins with `_SM_` and has `_DMI_` at offset 0x10, and
/// it tells a length of 31 bytes, which sum to zero, and so do those from offset 0x10 on.
pub fn find_smbios_by(memory: &GuestMemory, form: AnchorForm) -> Option<u64>
    ensures some { IfSome result (IsFirstAnchorBy form (seen memory.now.memory)) }
    ensures none { result ≡ None ↔ HasNoAnchorBy form (seen memory.now.memory) }
{
    least_anchor(&SmbiosAnchor(form), memory)
}

// The kind of anchor that leads to SMBIOS structures, of a form.
#[derive(Clone, Copy)]
struct SmbiosAnchor(AnchorForm);

impl AnchorKind for SmbiosAnchor {
    const START: u64 = 0xF_0000;

    ghost START = { 0xF0000 };

    ghost Stands = { λ kind. HasAnchorBy kind.0 };

    fn stands(&self, memory: &GuestMemory, address: u64) -> bool {
        match self.0 {
            AnchorForm::Smbios3 => smbios3_stands(memory, address),
            AnchorForm::Smbios2 => smbios2_stands(memory, address),
        }
    }

    ghost starts = { refl };

    ghost places = { λ kind view address has. anchor_place kind.0 view address has };
}

// Whether a valid 64-bit entry point stands at an address.
fn smbios3_stands(memory: &GuestMemory, address: u64) -> bool
    requires from { 0xF0000 ≤ address }
    requires aligned { address % 16 ≡ 0 }
    requires below { address < 0x100000 }
    ensures { IsTrue result ↔ HasAnchor (seen memory.now.memory) address }
{
    let room = BIOS_END - address;
    if room < ANCHOR_SIZE || !has_mark(memory, address, MARK) {
        return false;
    }
    let length = u64::from(read_smbios3(memory, address).anchor.length);
    if length < ANCHOR_SIZE || room < length {
        return false;
    }
    memory.sum_range(address, length as u32) == 0
}

/// Tells whether the mark `mark`, of at most 16 bytes, stands at `address`, a multiple of 16 where an anchor may stand.
pub(crate) fn has_mark(memory: &GuestMemory, address: u64, mark: &[u8]) -> bool
    requires from { 0xF0000 ≤ address }
    requires aligned { address % 16 ≡ 0 }
    requires below { address < 0x100000 }
    requires short { length mark.now ≤ 16 }
    ensures { IsTrue result ↔ HasMark (seen memory.now.memory) address mark.now }
{
    memory.window(address, mark.len() as u32) == mark
}

/// An anchor, and the address of the structures.
#[derive(Clone, Copy)]
pub(crate) struct Found {
    pub(crate) anchor: Anchor,
    pub(crate) structures: u64,
}

/// Reads the numbers of an anchor of the form `form` at `address`, where as many bytes as one has at least must lie between 0xF0000 and
/// 1 MiB. Its marks and its sums aren't looked at.
pub(crate) fn read_anchor(memory: &GuestMemory, form: AnchorForm, address: u64) -> Found
    requires from { 0xF0000 ≤ address }
    requires within { address + least_length form ≤ 0x100000 }
    ensures { HasNumbersBy form (seen memory.now.memory) address result.anchor result.structures }
{
    match form {
        AnchorForm::Smbios3 => read_smbios3(memory, address),
        AnchorForm::Smbios2 => read_smbios2(memory, address),
    }
}

// The numbers of a 64-bit entry point at an address, where 24 bytes must be RAM.
fn read_smbios3(memory: &GuestMemory, address: u64) -> Found
    requires { IsRamRange memory.now.memory.top address 24 }
    ensures { HasNumbers (seen memory.now.memory) address result.anchor result.structures }
{
    let mut bytes = [0; ANCHOR_SIZE as usize];
    memory.copy_out(address, &mut bytes);
    let rows = anchor_rows(&anchor_of(0), Row::Number(8, 0));
    Found {
        anchor: Anchor {
            length: read_u8(&bytes, &rows, LENGTH_ROW),
            major: read_u8(&bytes, &rows, MAJOR_ROW),
            minor: read_u8(&bytes, &rows, MINOR_ROW),
            docrev: read_u8(&bytes, &rows, DOCREV_ROW),
            maximum_size: read_u32(&bytes, &rows, MAXIMUM_SIZE_ROW),
        },
        structures: read_u64(&bytes, &rows, STRUCTURES_ROW),
    }
}
