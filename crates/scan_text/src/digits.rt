ghost use Rattle.std.specs.Prelude.{◌≡◌, ◌++◌, ◌+◌, ◌*◌, ◌≤◌, length};
ghost use Rattle.hex.specs.Hex.{encode_lower};

use vt_outside::Line;

// How many digits a number has at most: two for each of 8 bytes.
const DIGITS: usize = 16;

/// Adds two lower-case hexadecimal digits for each of `bytes`, at most 8, at the end of `line`, which has room for them.
pub(crate) fn push_digits(line: &mut Line, bytes: &[u8])
    requires few { length bytes.now ≤ 8 }
    requires room { length line.old.bytes + 2 * length bytes.now ≤ 128 }
    ensures digits { line.new.bytes ≡ line.old.bytes ++ encode_lower bytes.now }
    ensures size { length line.new.bytes ≡ length line.old.bytes + 2 * length bytes.now }
{
    let mut digits = [0; DIGITS];
    let text = &mut digits[..2 * bytes.len()];
    hex::encode_to_slice(bytes, text).unwrap();
    line.push_str(str::from_utf8(text).unwrap());
}
