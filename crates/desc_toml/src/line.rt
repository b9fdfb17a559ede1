//! The line that tells a fault to a person, put together on the stack.

ghost use Rattle.std.specs.Prelude.{◌≡◌, ◌≤◌, ◌<◌, length};
ghost use Rattle.desc_schema.specs.Names.{key_name};
ghost use Rattle.desc_toml.specs.Keys.{schema};
ghost use Rattle.desc_toml.specs.declared.fault.DescFault.TheVariants.{Broken};
ghost use Rattle.desc_toml.specs.Lines.{table_name, shown_byte, shown, key_line, line_of};

use crate::fault::DescFault;
use crate::schema::SCHEMA;
use arrayvec::ArrayString;
use desc_schema::key_name;
use vt_outside::{Line, words};

impl DescFault {
    /// Returns the line that tells this fault, with its line feed: the cause, the table, its position and the key, as in
    /// `description: unknown key system 0 colour`, or the rule and its index. Of an unknown key it has the first 64 bytes, and a
    /// question mark for each that isn't 0x21 to 0x7E. For want of memory it is `out of memory`.
    pub fn line(&self) -> Line
        ensures { result.bytes ≡ line_of self.now }
    {
        match self {
            DescFault::NotToml => words("description: not TOML\n"),
            DescFault::UnknownKey { table, index, key } => {
                key_line("description: unknown key ", *table, *index, key.as_slice())
            }
            DescFault::MissingKey { table, index, key } => {
                known_line("description: missing key ", *table, *index, *key)
            }
            DescFault::WrongKind { table, index, key } => {
                known_line("description: wrong kind ", *table, *index, *key)
            }
            DescFault::OutOfRange { table, index, key } => {
                known_line("description: out of range ", *table, *index, *key)
            }
            DescFault::Broken { rule, index } => rule_line(*rule, *index),
            DescFault::OutOfMemory => words("out of memory\n"),
        }
    }
}

fn rule_line(rule: u16, index: u32) -> Line
    ensures { result.bytes ≡ line_of (Broken rule index) }
{
    let mut number = itoa::Buffer::new();
    let mut line = Line::new();
    line.push_str("description: rule ");
    line.push_str(number.format(rule));
    line.push_str(" index ");
    line.push_str(number.format(index));
    line.push_str("\n");
    line
}

// The line of a key that the table has.
fn known_line(cause: &str, table: u8, index: u32, key: u8) -> Line
    requires { length cause.now ≤ 32 }
    ensures { result.bytes ≡ key_line cause.now table index (key_name schema table key) }
{
    let name = key_name(SCHEMA, table, key);
    key_line(cause, table, index, name.as_bytes())
}

fn key_line(cause: &str, table: u8, index: u32, key: &[u8]) -> Line
    requires { length cause.now ≤ 32 }
    ensures { result.bytes ≡ key_line cause.now table index key.now }
{
    let mut number = itoa::Buffer::new();
    let shown = shown(key);
    let mut line = Line::new();
    line.push_str(cause);
    line.push_str(table_name(table));
    line.push_str(" ");
    line.push_str(number.format(index));
    line.push_str(" ");
    line.push_str(shown.as_str());
    line.push_str("\n");
    line
}

fn table_name(table: u8) -> &'static str
    ensures name { result.now ≡ table_name table }
    ensures short { length result.now ≤ 8 }
{
    match table {
        0 => "root",
        1 => "system",
        2 => "firmware",
        3 => "chassis",
        4 => "socket",
        5 => "dimm",
        6 => "range",
        7 => "slot",
        8 => "acpi",
        9 => "power",
        10 => "hpet",
        11 => "apic",
        12 => "cpu",
        13 => "ioapic",
        14 => "override",
        15 => "nmi",
        16 => "numa",
        17 => "bridge",
        18 => "window",
        19 => "route",
        20 => "uart",
        _ => "",
    }
}

fn shown(key: &[u8]) -> ArrayString<64>
    ensures { result.bytes ≡ shown key.now }
{
    let mut shown = ArrayString::new();
    let mut place = 0;
    while place < key.len() && place < 64 {
        shown.push(shown_byte(key[place]));
        place += 1;
    }
    shown
}

fn shown_byte(byte: u8) -> char
    ensures byte { result ≡ shown_byte byte }
    ensures short { result < 128 }
{
    if 0x21 <= byte && byte <= 0x7E {
        byte as char
    } else {
        '?'
    }
}
