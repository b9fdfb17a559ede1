ghost use Rattle.std.specs.Prelude.{◌≡◌, ◌++◌, ◌+◌, ◌<◌, ◌≤◌, length};
ghost use Rattle.scan_text.specs.List.{shown, shown_byte};

use vt_outside::Line;

/// Adds `text` at the end of `line`, which has room for it, with a question mark for each byte that doesn't show.
pub(crate) fn push_shown(line: &mut Line, text: &[u8])
    requires { length line.old.bytes + length text.now ≤ 128 }
    ensures shown { line.new.bytes ≡ line.old.bytes ++ shown text.now }
    ensures size { length line.new.bytes ≡ length line.old.bytes + length text.now }
{
    for &byte in text {
        line.push(shown_byte(byte));
    }
}

fn shown_byte(byte: u8) -> char
    ensures byte { result ≡ shown_byte byte }
    ensures short { result < 128 }
{
    if 0x20 <= byte && byte <= 0x7E {
        char::from(byte)
    } else {
        '?'
    }
}
