ghost use Rattle.std.specs.Prelude.{◌≡◌, ◌+◌, ◌^◌, ◌<◌, ◌≤◌, ◌++◌, length, OnOk, OnErr};
ghost use Rattle.aml_terms.specs.Written.{integer, wide};

use vt_bytes::put_le;
use vt_outside::{Bytes, OutOfMemory};

/// Returns how many bytes the shortest integer of `number` has.
#[tactic(auto, unfolding(aml_terms::specs::Written::integer))]
pub(crate) fn integer_size(number: u64) -> u32
    ensures size { result ≡ length (integer number) }
    ensures few { result ≤ 9 }
{
    if number <= 1 {
        1
    } else if number < 0x100 {
        2
    } else if number < 0x1_0000 {
        3
    } else if number < 0x1_0000_0000 {
        5
    } else {
        9
    }
}

/// Appends the shortest integer of `number` to `into`.
#[tactic(auto, unfolding(aml_terms::specs::Written::integer))]
pub(crate) fn put_integer(number: u64, into: &mut Bytes) -> Result<(), OutOfMemory>
    ensures ok { OnOk result (into.new ≡ into.old ++ integer number) }
    ensures err { OnErr result (into.new ≡ into.old) }
{
    if number <= 1 {
        into.push(number as u8)
    } else if number < 0x100 {
        put_wide(0x0A, 1, number, into)
    } else if number < 0x1_0000 {
        put_wide(0x0B, 2, number, into)
    } else if number < 0x1_0000_0000 {
        put_wide(0x0C, 4, number, into)
    } else {
        put_wide(0x0E, 8, number, into)
    }
}

/// Appends `number` as a dword, whatever its value, to `into`.
pub(crate) fn put_dword(number: u32, into: &mut Bytes) -> Result<(), OutOfMemory>
    ensures ok { OnOk result (into.new ≡ into.old ++ wide 0x0C 4 number) }
    ensures err { OnErr result (into.new ≡ into.old) }
{
    put_wide(0x0C, 4, u64::from(number), into)
}

// Appends an opcode and a number in so many bytes, low byte first.
fn put_wide(opcode: u8, width: usize, number: u64, into: &mut Bytes) -> Result<(), OutOfMemory>
    requires some { 1 ≤ width }
    requires few { width ≤ 8 }
    requires fits { number < 256 ^ width }
    ensures ok { OnOk result (into.new ≡ into.old ++ wide opcode width number) }
    ensures err { OnErr result (into.new ≡ into.old) }
{
    let mut bytes = [0u8; 9];
    bytes[0] = opcode;
    put_le(&mut bytes, 1, width, number);
    into.extend(&bytes[..width + 1])
}
