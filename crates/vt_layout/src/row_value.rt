ghost use Rattle.std.specs.Prelude.{◌≡◌, ◌<◌, ◌≤◌, ◌^◌, ◌⊎◌, length, Ok, Err, IfOk, IfErr};
ghost use Rattle.vt_layout.specs.declared.record_reader.RecordFault.TheVariants.{OutOfMemory as NoMemory};
ghost use Rattle.vt_layout.specs.Rows.{width_of};
ghost use Rattle.vt_layout.specs.Strings.{string_of};
ghost use Rattle.vt_layout.specs.Reading.{value_in};
ghost use Rattle.vt_layout.specs.Values.{number_value, bytes_value};
ghost use Rattle.vt_layout.specs.Records.{text_said, value_said};

use crate::record_reader::RecordFault;
use crate::row::Row;
use crate::value::Value;
use std::alloc::Global;
use vt_bytes::{get_be, get_le};
use vt_outside::Text;

/// Returns the value of `row`, whose bytes are `bytes`. A text is a copy of one of `strings`, in memory from `alloc`. The error is
/// `NoSuchString` if `row` is a string's number, and there is no such string, or `OutOfMemory`.
pub(crate) fn read_value(
    alloc: Global,
    row: &Row,
    bytes: &[u8],
    strings: &[Text],
) -> Result<Value, RecordFault>
    requires { length bytes.now ≡ width_of row.now }
    ensures ok { IfOk result (λ value. value_said row.now bytes.now strings.now ≡ Ok value) }
    ensures err { IfErr result (λ fault. (fault ≡ NoMemory) ⊎ (value_said row.now bytes.now strings.now ≡ Err fault)) }
{
    match row {
        Row::StringNumber(_) => text_of(alloc, strings, bytes[0]),
        Row::Number(_, _) | Row::BigEndian(_, _) => Ok(number_value(row, bytes)),
        Row::Bytes(_, _) => Ok(bytes_value(bytes)),
        _ => Ok(Value::Nothing),
    }
}

/// Reads the number that `bytes`, 1 to 8, are at `row`: high byte first where the row says so, and else low byte first.
pub(crate) fn number_at(row: &Row, bytes: &[u8]) -> u64
    requires some { 1 ≤ length bytes.now }
    requires few { length bytes.now ≤ 8 }
    ensures number { result ≡ value_in row.now bytes.now }
    ensures fits { result < 256 ^ length bytes.now }
{
    match row {
        Row::BigEndian(_, _) => get_be(bytes, 0, bytes.len()),
        _ => get_le(bytes, 0, bytes.len()),
    }
}

// The number that bytes are at a row, where they have a number's width.
fn number_value(row: &Row, bytes: &[u8]) -> Value
    ensures { result ≡ number_value (length bytes.now) (value_in row.now bytes.now) }
{
    match bytes.len() {
        1 => Value::Byte(number_at(row, bytes) as u8),
        2 => Value::Word(number_at(row, bytes) as u16),
        4 => Value::Dword(number_at(row, bytes) as u32),
        8 => Value::Qword(number_at(row, bytes)),
        _ => Value::Nothing,
    }
}

// Bytes as they stand.
fn bytes_value(bytes: &[u8]) -> Value
    ensures { result ≡ bytes_value (length bytes.now) bytes.now }
{
    match bytes.len() {
        4 => Value::Four(*bytes.as_array().unwrap()),
        6 => Value::Six(*bytes.as_array().unwrap()),
        8 => Value::Eight(*bytes.as_array().unwrap()),
        16 => Value::Sixteen(*bytes.as_array().unwrap()),
        _ => Value::Nothing,
    }
}

// A copy of the string of a number, which counts from 1; that of 0 is the empty text.
fn text_of(alloc: Global, strings: &[Text], number: u8) -> Result<Value, RecordFault>
    ensures ok { IfOk result (λ value. text_said number (string_of strings.now number) ≡ Ok value) }
    ensures err { IfErr result (λ fault. (fault ≡ NoMemory) ⊎ (text_said number (string_of strings.now number) ≡ Err fault)) }
{
    if number == 0 {
        return Ok(Value::Text(Text::new(alloc)));
    }
    let place = usize::from(number) - 1;
    if place < strings.len() {
        Ok(Value::Text(strings[place].copy()?))
    } else {
        Err(RecordFault::NoSuchString(number))
    }
}
