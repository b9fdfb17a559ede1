ghost use Rattle.std.specs.Prelude.{◌≡◌, ◌+◌, ◌<◌, ◌≤◌, ◌^◌, ◌++◌, length, take, drop};
ghost use Rattle.vt_bytes.specs.Numbers.{le, be, le_bytes, be_bytes};

/// Reads the unsigned number in `n` bytes, 1 to 8, from the offset `at` on, low byte first. `at` is in bytes, and the `n` bytes
/// must lie within `bytes`.
pub fn get_le(bytes: &[u8], at: usize, n: usize) -> u64
    requires some { 1 ≤ n }
    requires fits { n ≤ 8 }
    requires within { at + n ≤ length bytes.now }
    ensures { result ≡ le (take n (drop at bytes.now)) }
{
    let mut number = 0;
    for place in (at..at + n).rev() {
        number = number << 8 | u64::from(bytes[place]);
    }
    number
}

/// Reads the unsigned number in `n` bytes, 1 to 8, from the offset `at` on, high byte first. `at` is in bytes, and the `n`
/// bytes must lie within `bytes`.
pub fn get_be(bytes: &[u8], at: usize, n: usize) -> u64
    requires some { 1 ≤ n }
    requires fits { n ≤ 8 }
    requires within { at + n ≤ length bytes.now }
    ensures { result ≡ be (take n (drop at bytes.now)) }
{
    let mut number = 0;
    for byte in &bytes[at..at + n] {
        number = number << 8 | u64::from(*byte);
    }
    number
}

/// Writes `value` into `n` bytes, 1 to 8, from the offset `at` on, low byte first. `at` is in bytes, the `n` bytes must lie
/// within `bytes`, and `value` must fit them. The other bytes are what they were.
pub fn put_le(bytes: &mut [u8], at: usize, n: usize, value: u64)
    requires some { 1 ≤ n }
    requires fits { n ≤ 8 }
    requires within { at + n ≤ length bytes.old }
    requires value { value < 256 ^ n }
    ensures { bytes.new ≡ take at bytes.old ++ le_bytes n value ++ drop (at + n) bytes.old }
{
    bytes[at..at + n].copy_from_slice(&value.to_le_bytes()[..n]);
}

/// Writes `value` into `n` bytes, 1 to 8, from the offset `at` on, high byte first. `at` is in bytes, the `n` bytes must lie
/// within `bytes`, and `value` must fit them. The other bytes are what they were.
pub fn put_be(bytes: &mut [u8], at: usize, n: usize, value: u64)
    requires some { 1 ≤ n }
    requires fits { n ≤ 8 }
    requires within { at + n ≤ length bytes.old }
    requires value { value < 256 ^ n }
    ensures { bytes.new ≡ take at bytes.old ++ be_bytes n value ++ drop (at + n) bytes.old }
{
    bytes[at..at + n].copy_from_slice(&value.to_be_bytes()[8 - n..]);
}
