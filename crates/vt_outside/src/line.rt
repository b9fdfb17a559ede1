//! Lines that are told to a person, put together on the stack.

ghost use Rattle.std.specs.Prelude.{◌≡◌, ◌≤◌, ◌++◌, ◌∷◌, [], decimal, length};

use arrayvec::ArrayString;

/// A line in a buffer on the stack, so that telling it takes no memory.
pub type Line = ArrayString<128>;

/// Returns the line of `words`, at most 64 bytes, which end in a line feed.
pub fn words(words: &str) -> Line
    requires { length words.now ≤ 64 }
    ensures { result.bytes ≡ words.now }
{
    let mut line = Line::new();
    line.push_str(words);
    line
}

/// Returns the line of `words`, at most 32 bytes, with `number` and a line feed behind them.
pub fn numbered_line(words: &str, number: u32) -> Line
    requires { length words.now ≤ 32 }
    ensures { result.bytes ≡ words.now ++ decimal number ++ 10 ∷ [] }
{
    let mut digits = itoa::Buffer::new();
    let mut line = Line::new();
    line.push_str(words);
    line.push_str(digits.format(number));
    line.push_str("\n");
    line
}
