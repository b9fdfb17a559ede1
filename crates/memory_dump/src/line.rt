//! Lines of a text, each of which ends in a line feed.

ghost use Rattle.std.specs.Prelude.{◌≡◌, ◌≢◌, ◌<◌, ◌^◌, [], length, IsTrue, false};
ghost use Rattle.memory_dump.specs.Reading.{lines_of, whole_lines};

/// Returns how many line feeds `bytes` have, which must be fewer than 2^32 bytes: the number of their whole lines.
pub fn whole_lines(bytes: &[u8]) -> u32
    requires { length bytes.now < 2 ^ 32 }
    ensures { result ≡ whole_lines bytes.now }
{
    let mut count = 0;
    for &byte in bytes {
        if byte == b'\n' {
            count += 1;
        }
    }
    count
}

/// Whether `bytes` have a line feed, so that their first line is whole.
pub(crate) fn has_whole_line(bytes: &[u8]) -> bool
    ensures some { IsTrue result → (lines_of bytes.now).whole ≢ [] }
    ensures none { result ≡ false → (lines_of bytes.now).whole ≡ [] }
{
    bytes.contains(&b'\n')
}
