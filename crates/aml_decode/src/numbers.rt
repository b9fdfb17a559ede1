ghost use Rattle.std.specs.Prelude.{◌+◌, ◌<◌, ◌≤◌, ◌^◌, length, IfOk};
ghost use Rattle.vt_outside.specs.Readings.{Agrees};
ghost use Rattle.aml_terms.specs.Reading.{byte_at, number_at, total_behind, total_at, enclosing_at, integer_behind, integer_at, reported};
ghost use Rattle.aml_decode.specs.Widths.{IsWide};

use crate::found::Found;
use aml_terms::{AmlFault, Opcode};
use vt_bytes::get_le;

/// Reads the byte at the front of `text`, which begins at `place`.
pub(crate) fn read_byte(place: u32, text: &[u8]) -> Result<u8, AmlFault>
    ensures byte { Agrees reported (λ byte. (byte, 1)) result (byte_at place text.now) }
    ensures some { IfOk result (λ byte. 1 ≤ length text.now) }
{
    match text {
        [] => Err(AmlFault::Truncated(place)),
        [byte, ..] => Ok(*byte),
    }
}

// Reads a number of `width` bytes, low byte first.
#[tactic(auto, unfolding(aml_terms::specs::Reading::number_at))]
fn read_number(width: usize, place: u32, text: &[u8]) -> Result<u64, AmlFault>
    requires some { 1 ≤ width }
    requires narrow { width ≤ 8 }
    requires place { place + length text.now < 2 ^ 32 }
    ensures number { Agrees reported (λ number. (number, width)) result (number_at width place text.now) }
    ensures within { IfOk result (λ number. width ≤ length text.now) }
    ensures fits { IfOk result (λ number. number < 256 ^ width) }
{
    if text.len() < width {
        return Err(AmlFault::Truncated(place + text.len() as u32));
    }
    Ok(get_le(text, 0, width))
}

/// Reads the package length at the front of `text`, which begins at `place`, and tells how many bytes it encloses behind its own
/// (ACPI 6.5, 20.2.4). They are in the text.
#[tactic(auto, unfolding(aml_terms::specs::Reading::enclosing_at))]
pub(crate) fn read_enclosing(place: u32, text: &[u8]) -> Result<Found<usize>, AmlFault>
    requires { place + length text.now < 2 ^ 32 }
    ensures count { Agrees reported (λ found. (found.value, found.size)) result (enclosing_at place text.now) }
    ensures within { IfOk result (λ found. found.size + found.value ≤ length text.now) }
{
    let total = read_total(place, text)?;
    if total.value < total.size || text.len() < total.value {
        return Err(AmlFault::BadLength(place));
    }
    Ok(Found {
        value: total.value - total.size,
        size: total.size,
    })
}

// Reads a package length.
fn read_total(place: u32, text: &[u8]) -> Result<Found<usize>, AmlFault>
    requires { place + length text.now < 2 ^ 32 }
    ensures total { Agrees reported (λ found. (found.value, found.size)) result (total_at place text.now) }
    ensures within { IfOk result (λ found. found.size ≤ length text.now) }
{
    let lead = read_byte(place, text)?;
    let total = total_behind(lead, place + 1, &text[1..])?;
    Ok(total.behind(1))
}

// Reads what is behind the lead byte of a package length, whose two upper bits tell how many bytes these are.
#[tactic(auto, unfolding(aml_terms::specs::Reading::total_behind))]
fn total_behind(lead: u8, place: u32, text: &[u8]) -> Result<Found<usize>, AmlFault>
    requires behind { 1 ≤ place }
    requires place { place + length text.now < 2 ^ 32 }
    ensures total { Agrees reported (λ found. (found.value, found.size)) result (total_behind lead place text.now) }
    ensures within { IfOk result (λ found. found.size ≤ length text.now) }
{
    if lead < 0x40 {
        return Ok(Found {
            value: usize::from(lead),
            size: 0,
        });
    }
    if lead % 64 >= 16 {
        return Err(AmlFault::BadLength(place - 1));
    }
    let size = usize::from(lead / 64);
    let more = read_number(size, place, text)?;
    Ok(Found {
        value: usize::from(lead % 16) + 16 * more as usize,
        size,
    })
}

/// Reads the integer at the front of `text`, which begins at `place`.
#[tactic(auto, using(crate::proofs::Announced::wide))]
pub(crate) fn read_integer(place: u32, text: &[u8]) -> Result<Found<u64>, AmlFault>
    requires { place + length text.now < 2 ^ 32 }
    ensures integer { Agrees reported (λ found. (found.value, found.size)) result (integer_at place text.now) }
    ensures within { IfOk result (λ found. found.size ≤ length text.now) }
{
    let byte = read_byte(place, text)?;
    let integer = integer_behind(byte, Opcode::of(byte), place + 1, &text[1..])?;
    Ok(integer.behind(1))
}

/// Reads the integer behind `byte`, which says `opcode`. `place` is where `text` begins, behind the byte.
#[tactic(auto, unfolding(aml_terms::specs::Reading::integer_behind))]
pub(crate) fn integer_behind(
    byte: u8,
    opcode: Opcode,
    place: u32,
    text: &[u8],
) -> Result<Found<u64>, AmlFault>
    requires wide { IsWide opcode }
    requires behind { 1 ≤ place }
    requires place { place + length text.now < 2 ^ 32 }
    ensures integer { Agrees reported (λ found. (found.value, found.size)) result (integer_behind byte opcode place text.now) }
    ensures within { IfOk result (λ found. found.size ≤ length text.now) }
{
    match opcode {
        Opcode::Constant => Ok(Found {
            value: u64::from(byte),
            size: 0,
        }),
        Opcode::Integer(width) => Ok(Found {
            value: read_number(width, place, text)?,
            size: width,
        }),
        Opcode::Ones
        | Opcode::Chars
        | Opcode::Buffer
        | Opcode::Package
        | Opcode::Name
        | Opcode::Scope
        | Opcode::Extended
        | Opcode::Other => Err(AmlFault::OutsideGrammar(place - 1)),
    }
}
