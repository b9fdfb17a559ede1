ghost use Rattle.std.specs.Prelude.{◌≡◌, ◌/◌, ◌↔◌, false, length, Err, IfOk};
ghost use Rattle.loader_script.specs.Spelling.{entry_of, entries_of, is_script_length, allocate_of, add_pointer_of, add_checksum_of};
ghost use Rattle.loader_script.specs.Spelling.{write_pointer_of};
ghost use Rattle.loader_script.specs.declared.reading.ScriptFault.TheVariants.{OutOfMemory as NoMemory};

use crate::entry::Entry;
use crate::rows::{
    add_checksum_rows, add_pointer_rows, allocate_rows, command_rows, write_pointer_rows,
};
use std::alloc::Global;
use vt_layout::{blank_name, read_name, read_u8, read_u32};
use vt_outside::{List, OutOfMemory};

/// How many bytes an entry of a script has.
pub const ENTRY_BYTES: usize = 128;

/// How many bytes a script has at most.
pub const LONGEST_SCRIPT: usize = 1_048_576;

/// Why bytes are no script.
#[derive(Clone, Copy, Debug, PartialEq, Eq)]
pub enum ScriptFault {
    /// Their length is no multiple of 128, or is above 1,048,576 bytes.
    ScriptLength,
    /// Memory ran out.
    OutOfMemory,
}

impl From<OutOfMemory> for ScriptFault {
    ghost from_gives = { λ _ fault. fault ≡ NoMemory };

    fn from(_fault: OutOfMemory) -> ScriptFault {
        ScriptFault::OutOfMemory
    }
}

/// Decodes `bytes` as one entry. It takes no memory and never fails. Commands 1 to 4 give `Allocate`, `AddPointer`,
/// `AddChecksum` and `WritePointer`, or `Misnamed` where the field of a name holds no file name. Every other command gives
/// `Skipped`. Only names are checked here: `refusal` checks the rest.
pub fn decode_entry(bytes: &[u8; 128]) -> Entry
    ensures { result ≡ entry_of bytes.now }
{
    match read_u32(bytes, &command_rows(0), 0) {
        1 => allocate(bytes),
        2 => add_pointer(bytes),
        3 => add_checksum(bytes),
        4 => write_pointer(bytes),
        command => Entry::Skipped(command),
    }
}

/// Decodes `bytes` as a script, one entry for each 128 bytes, into a list from `alloc`. It fails with `ScriptLength` exactly
/// where the length of `bytes` is no multiple of 128 or is above 1,048,576 bytes, and else with `OutOfMemory` only where memory
/// runs out.
pub fn decode_script(alloc: Global, bytes: &[u8]) -> Result<List<Entry>, ScriptFault>
    ensures ok { IfOk result (λ script. script ≡ entries_of (length bytes.now / 128) bytes.now) }
    ensures fault { (result ≡ Err ScriptFault.ScriptLength) ↔ (is_script_length (length bytes.now) ≡ false) }
{
    let (entries, rest) = bytes.as_chunks::<ENTRY_BYTES>();
    if !rest.is_empty() || bytes.len() > LONGEST_SCRIPT {
        return Err(ScriptFault::ScriptLength);
    }
    let mut script = List::new(alloc);
    for entry in entries {
        script.push(decode_entry(entry))?;
    }
    Ok(script)
}

fn allocate(bytes: &[u8; 128]) -> Entry
    ensures { result ≡ allocate_of bytes.now }
{
    let rows = allocate_rows(&blank_name(), 0, 0);
    let Ok(file) = read_name(bytes, &rows, 1) else {
        return Entry::Misnamed(1);
    };
    Entry::Allocate {
        file,
        align: read_u32(bytes, &rows, 2),
        zone: read_u8(bytes, &rows, 3),
    }
}

fn add_pointer(bytes: &[u8; 128]) -> Entry
    ensures { result ≡ add_pointer_of bytes.now }
{
    let blank = blank_name();
    let rows = add_pointer_rows(&blank, &blank, 0, 0);
    let Ok(dest) = read_name(bytes, &rows, 1) else {
        return Entry::Misnamed(2);
    };
    let Ok(src) = read_name(bytes, &rows, 2) else {
        return Entry::Misnamed(2);
    };
    Entry::AddPointer {
        dest,
        src,
        offset: read_u32(bytes, &rows, 3),
        size: read_u8(bytes, &rows, 4),
    }
}

fn add_checksum(bytes: &[u8; 128]) -> Entry
    ensures { result ≡ add_checksum_of bytes.now }
{
    let rows = add_checksum_rows(&blank_name(), 0, 0, 0);
    let Ok(file) = read_name(bytes, &rows, 1) else {
        return Entry::Misnamed(3);
    };
    Entry::AddChecksum {
        file,
        offset: read_u32(bytes, &rows, 2),
        start: read_u32(bytes, &rows, 3),
        length: read_u32(bytes, &rows, 4),
    }
}

fn write_pointer(bytes: &[u8; 128]) -> Entry
    ensures { result ≡ write_pointer_of bytes.now }
{
    let blank = blank_name();
    let rows = write_pointer_rows(&blank, &blank, 0, 0, 0);
    let Ok(dest) = read_name(bytes, &rows, 1) else {
        return Entry::Misnamed(4);
    };
    let Ok(src) = read_name(bytes, &rows, 2) else {
        return Entry::Misnamed(4);
    };
    Entry::WritePointer {
        dest,
        src,
        dst_offset: read_u32(bytes, &rows, 3),
        src_offset: read_u32(bytes, &rows, 4),
        size: read_u8(bytes, &rows, 5),
    }
}
