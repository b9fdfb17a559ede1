//! Hexadecimal digits, in lower case, two for each byte.

ghost use Rattle.std.specs.Prelude.{◌≡◌, ◌*◌, ◌<◌, length, slice_index};
ghost use Rattle.hex.specs.Hex.{encode_lower, lower_digits};
ghost use Rattle.memory_dump.specs.Reading.{bytes_of, digit_value};

/// The digits of `bytes`. It serves lines alone, in place of the crate `hex`, which looks each digit up in a table: a compiler makes of
/// sums, over so many bytes, a loop that takes sixteen at once, and a line costs a third of the time.
pub(crate) fn digits(bytes: &[u8; 24]) -> [u8; 48]
    ensures { result ≡ encode_lower bytes.now }
{
    let mut text = [0; 48];
    for i in 0..24 {
        text[2 * i] = digit(bytes[i] >> 4);
        text[2 * i + 1] = digit(bytes[i] & 15);
    }
    text
}

// The digit of a number below 16: `0` to `9` follow one another, and so do `a` to `f`, 39 places further on.
fn digit(value: u8) -> u8
    requires { value < 16 }
    ensures { result ≡ slice_index lower_digits value }
{
    value + b'0' + if value > 9 { 39 } else { 0 }
}

/// Puts the bytes that `digits` stand for, two for each, over `bytes`. What isn't a digit stands for any number.
pub(crate) fn put_bytes(bytes: &mut [u8], digits: &[u8])
    requires { length digits.now ≡ 2 * length bytes.old }
    ensures { bytes.new ≡ bytes_of digits.now }
{
    for i in 0..bytes.len() {
        bytes[i] = value(digits[2 * i]) * 16 + value(digits[2 * i + 1]);
    }
}

// The number below 16 that a digit stands for.
fn value(digit: u8) -> u8
    ensures value { result ≡ digit_value digit }
    ensures small { result < 16 }
{
    ((digit & 15) + if digit > b'9' { 9 } else { 0 }) & 15
}

/// Writes the digits of `bytes` over `text`.
pub(crate) fn put_hex(text: &mut [u8], bytes: &[u8])
    requires { length text.old ≡ 2 * length bytes.now }
    ensures { text.new ≡ encode_lower bytes.now }
{
    hex::encode_to_slice(bytes, text).unwrap();
}
