ghost use Rattle.std.specs.Prelude.{◌≡◌, ◌-◌, ◌*◌, ◌^◌, ◌<◌, ◌≤◌, refl};
ghost use Rattle.smbios_model.specs.MappedAddress.{mapped_fields, mapped_in, mapped_of, in_kib, in_bytes};

use crate::memory_array::ARRAY_HANDLE;
use machine_desc::MemRange;
use vt_bytes::{BYTES_IN_MIB, KIB_IN_MIB};
use vt_layout::{Laid, RowList, Values};

// What the first fields hold where the extended fields tell the range.
const EXTENDED_ADDRESS: u32 = 0xFFFF_FFFF;

/// Memory Array Mapped Address (DSP0134 7.20).
#[derive(Clone, Copy, Debug, PartialEq, Eq)]
pub struct MappedInfo {
    /// The first KiB, or 0xFFFFFFFF where the extended fields tell. Offset 0x04, dword.
    pub start: u32,
    /// The last KiB, or 0xFFFFFFFF where the extended fields tell. Offset 0x08, dword.
    pub end: u32,
    /// The handle of the array whose memory it is. Offset 0x0C, word.
    pub array: u16,
    /// How many devices form a row of it. Offset 0x0E, byte.
    pub width: u8,
    /// The address of the first byte, or 0 where the first fields tell. Offset 0x0F, qword.
    pub ext_start: u64,
    /// The address of the last byte, or 0 where the first fields tell. Offset 0x17, qword.
    pub ext_end: u64,
}

impl Laid for MappedInfo {
    const ROWS: u8 = 6;

    ghost ROWS = { 6 };

    ghost fields = { mapped_fields };

    ghost made = { mapped_in };

    ghost lawful = { λ t u. record { back = refl; shaped = refl; counted = refl; readable = refl } };

    fn put<'a>(&'a self, rows: &mut RowList<'a>) {
        rows.dword(self.start);
        rows.dword(self.end);
        rows.word(self.array);
        rows.byte(self.width);
        rows.qword(self.ext_start);
        rows.qword(self.ext_end);
    }

    fn take(values: &mut Values) -> MappedInfo {
        MappedInfo {
            start: values.take_dword(),
            end: values.take_dword(),
            array: values.take_word(),
            width: values.take_byte(),
            ext_start: values.take_qword(),
            ext_end: values.take_qword(),
        }
    }
}

/// Returns the address range of a machine's `range`, in the array of the machine. The extended fields tell it where its last KiB
/// isn't below 0xFFFFFFFF.
pub fn mapped_of(range: MemRange) -> MappedInfo
    ensures { result ≡ mapped_of range }
{
    let base = u64::from(range.base_mib);
    let end = base + u64::from(range.size_mib);
    if (end * KIB_IN_MIB).saturating_sub(1) < u64::from(EXTENDED_ADDRESS) {
        in_kib(base, end)
    } else {
        in_bytes(base, end)
    }
}

// The address range from one MiB to the end before another, in KiB.
fn in_kib(base: u64, end: u64) -> MappedInfo
    requires ordered { base ≤ end }
    requires low { end * 1024 - 1 < 0xFFFFFFFF }
    ensures { result ≡ in_kib base end }
{
    MappedInfo {
        start: (base * KIB_IN_MIB) as u32,
        end: (end * KIB_IN_MIB).saturating_sub(1) as u32,
        array: ARRAY_HANDLE,
        width: 1,
        ext_start: 0,
        ext_end: 0,
    }
}

// The same in bytes.
fn in_bytes(base: u64, end: u64) -> MappedInfo
    requires ordered { base ≤ end }
    requires low { end ≤ 2 ^ 33 }
    ensures { result ≡ in_bytes base end }
{
    MappedInfo {
        start: EXTENDED_ADDRESS,
        end: EXTENDED_ADDRESS,
        array: ARRAY_HANDLE,
        width: 1,
        ext_start: base * BYTES_IN_MIB,
        ext_end: (end * BYTES_IN_MIB).saturating_sub(1),
    }
}
