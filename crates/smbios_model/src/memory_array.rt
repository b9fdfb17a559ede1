ghost use Rattle.std.specs.Prelude.{◌≡◌, ◌^◌, ◌≤◌, length, refl};
ghost use Rattle.smbios_model.specs.MemoryArray.{array_fields, array_in, array_of, capacity_of, total_mib};

use machine_desc::Dimm;
use vt_bytes::{BYTES_IN_MIB, KIB_IN_MIB};
use vt_layout::{Laid, RowList, Values};

/// The handle of a machine's array, by which its devices and its mapped addresses name it.
pub(crate) const ARRAY_HANDLE: u16 = 0x1000;

// 2 TiB in MiB, which is a capacity of 0x80000000 KiB.
const TWO_TIB: u64 = 0x20_0000;

// What the first field holds where the second field tells the capacity.
const EXTENDED_CAPACITY: u32 = 0x8000_0000;

/// Physical Memory Array (DSP0134 7.17).
#[derive(Clone, Copy, Debug, PartialEq, Eq)]
pub struct ArrayInfo {
    /// Where it is (7.17.1). Offset 0x04, byte.
    pub location: u8,
    /// What it is used for (7.17.2). Offset 0x05, byte.
    pub purpose: u8,
    /// How it corrects errors (7.17.3). Offset 0x06, byte.
    pub correction: u8,
    /// The greatest capacity in KiB, or 0x80000000 where the second field tells. Offset 0x07, dword.
    pub capacity: u32,
    /// The handle of what tells of its errors, or 0xFFFE where there is none. Offset 0x0B, word.
    pub error: u16,
    /// How many memory devices it has. Offset 0x0D, word.
    pub devices: u16,
    /// The greatest capacity in bytes, or 0 where the first field tells. Offset 0x0F, qword.
    pub extended: u64,
}

impl Laid for ArrayInfo {
    const ROWS: u8 = 7;

    ghost ROWS = { 7 };

    ghost fields = { array_fields };

    ghost made = { array_in };

    ghost lawful = { λ t u. record { back = refl; shaped = refl; counted = refl; readable = refl } };

    fn put<'a>(&'a self, rows: &mut RowList<'a>) {
        rows.byte(self.location);
        rows.byte(self.purpose);
        rows.byte(self.correction);
        rows.dword(self.capacity);
        rows.word(self.error);
        rows.word(self.devices);
        rows.qword(self.extended);
    }

    fn take(values: &mut Values) -> ArrayInfo {
        ArrayInfo {
            location: values.take_byte(),
            purpose: values.take_byte(),
            correction: values.take_byte(),
            capacity: values.take_dword(),
            error: values.take_word(),
            devices: values.take_word(),
            extended: values.take_qword(),
        }
    }
}

/// Returns the array of `dimms`, at most 256 modules: system memory on the board, without error correction.
pub fn array_of(dimms: &[Dimm]) -> ArrayInfo
    requires { length dimms.now ≤ 256 }
    ensures { result ≡ array_of dimms.now }
{
    let total = total_mib(dimms);
    ArrayInfo {
        location: 3,
        purpose: 3,
        correction: 3,
        capacity: capacity_of(total),
        error: 0xFFFE,
        devices: dimms.len() as u16,
        extended: if total < TWO_TIB {
            0
        } else {
            total * BYTES_IN_MIB
        },
    }
}

// The capacity of so many MiB.
fn capacity_of(total: u64) -> u32
    ensures { result ≡ capacity_of total }
{
    if total < TWO_TIB {
        (total * KIB_IN_MIB) as u32
    } else {
        EXTENDED_CAPACITY
    }
}

// The size of all modules in MiB.
fn total_mib(dimms: &[Dimm]) -> u64
    requires { length dimms.now ≤ 256 }
    ensures total { result ≡ total_mib dimms.now }
    ensures small { result ≤ 2 ^ 40 }
{
    let mut total = 0;
    for dimm in dimms {
        total += u64::from(dimm.size_mib);
    }
    total
}
