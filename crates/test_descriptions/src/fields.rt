//! The fields of faults: a table's number, its place in its array, and the number of a key or the bytes of an unknown one; and lines of
//! fields that no description gives.

use crate::told::is_text;
use desc_toml::{DescFault, read_machine};
use machine_desc::Machine;
use std::alloc::Global;
use std::process::Abort;
use std::test::Fail;

// The top of a description that has another table `system`.
const TOP: &str = "version = 1\ntop_mib = 64\n";

// The front of a description: what each one has, in one line for each key, so that others may follow.
const FRONT: &str = "version = 1\ntop_mib = 64\nsystem = {}\n";

// What stands between the rows of a table. A row is the rest of this line, which may say what the row is about, the lines of a description,
// and behind an arrow the fields of its fault. A table is one text, since a literal costs a proof next to nothing, and an array of them much.
const BETWEEN_ROWS: &str = "\n---";

// What stands behind the front, and the fields of its fault: a row for each table, with the last of its keys.
const FIELDS: &str = r"---
hpet = 1
=> 0 0 13
---
generation = 'x'
=> 0 0 3
---
generation = 5
=> 0 0 3
---
firmware.minor = ''
=> 2 0 4
---
chassis.kind = ''
=> 3 0 5
---
socket = [{cores = 1, threads = 1}, {cores = 1, threads = 1, mhz = ''}]
=> 4 1 8
---
dimm = [{size_mib = 1}, {size_mib = 1}, {size_mib = 1, speed = ''}]
=> 5 2 7
---
range = [{base_mib = 0, size_mib = 64, node = ''}]
=> 6 0 2
---
slot = [{}, {function = ''}]
=> 7 1 7
---
acpi.oem_table_id = 1
=> 8 0 1
---
power = {event = 1, control = 1, timer = 1, keyboard = ''}
=> 9 0 11
---
power = {event = 1, control = 1, timer = 1, rtc = ''}
=> 9 0 10
---
hpet.min_tick = ''
=> 10 0 3
---
apic.legacy = 0
=> 11 0 1
---
cpu = [{apic = 0}, {apic = 1, enabled = 0}]
=> 12 1 2
---
ioapic = [{id = 0, address = 0}, {id = 1, address = 1, gsi = -1}]
=> 13 1 2
---
override = [{irq = 0, gsi = 0, flags = ''}]
=> 14 0 2
---
nmi = [{}, {}, {lint = ''}]
=> 15 2 2
---
numa = {nodes = 1, distance = ['']}
=> 16 0 1
---
bridge.last_bus = ''
=> 17 0 1
---
bridge.window = [{kind = 'io', base = 0, size = 1}, {kind = 'io', base = 0, size = 1, prefetch = 0}]
=> 18 1 3
---
bridge.route = [{device = 0, pin = 0, gsi = ''}]
=> 19 0 2
---
uart = [{port = 0, irq = 0}, {port = 0, irq = ''}]
=> 20 1 1
--- the bytes of an unknown key are all of them
'é' = 1
=> 0 0 é
---
01234567890123456789012345678901234567890123456789012345678901234 = 1
=> 0 0 01234567890123456789012345678901234567890123456789012345678901234";

#[test]
fn fields_of_faults(rt: HostRuntime) -> Result<(), Fail> {
    are_fields(&rt, rt.alloc(), TOP, "system.uuid = 1", "1 0 6")?;
    are_fields(&rt, rt.alloc(), FRONT, "'' = 1", "0 0 ")?;
    for row in FIELDS.split(BETWEEN_ROWS) {
        has_row_fields(&rt, rt.alloc(), row)?;
    }
    Ok(())
}

fn has_row_fields(rt: &impl Abort, alloc: Global, row: &str) -> Result<(), Fail> {
    match text_and_words(row) {
        Some((text, wanted)) => are_fields(rt, alloc, FRONT, text, wanted),
        None => Err(Fail::new("a row that has no arrow")),
    }
}

// The text of a row, and the words behind its arrow.
fn text_and_words(row: &str) -> Option<(&str, &str)> {
    let (_, lines) = row.split_once("\n")?;
    lines.split_once("\n=> ")
}

fn are_fields(
    rt: &impl Abort,
    alloc: Global,
    front: &str,
    text: &str,
    wanted: &str,
) -> Result<(), Fail> {
    let whole = joined(alloc, front, text)?;
    let fields = fields(alloc, whole.as_bytes())?;
    is_text(rt, fields.as_str(), wanted, text);
    Ok(())
}

fn joined(alloc: Global, front: &str, text: &str) -> Result<String, Fail> {
    let mut whole = String::new(alloc);
    whole.push_str(front)?;
    whole.push_str(text)?;
    Ok(whole)
}

/// The fields of the fault of bytes. A machine has twenty parts to drop: it is proved once, in the call.
pub(crate) fn fields(alloc: Global, bytes: &[u8]) -> Result<String, Fail> {
    let read = read_machine(alloc, bytes);
    let fields = fields_in(alloc, &read);
    drop(read);
    fields
}

// By a reference, so that it owns no machine.
fn fields_in(alloc: Global, read: &Result<Machine, DescFault>) -> Result<String, Fail> {
    match read {
        Err(DescFault::UnknownKey { table, index, key }) => {
            of_unknown(alloc, *table, *index, key.as_slice())
        }
        Err(
            DescFault::MissingKey { table, index, key }
            | DescFault::WrongKind { table, index, key }
            | DescFault::OutOfRange { table, index, key },
        ) => of_known(alloc, *table, *index, *key),
        _ => Err(Fail::new("another fault, or a machine")),
    }
}

fn of_unknown(alloc: Global, table: u8, index: u32, key: &[u8]) -> Result<String, Fail> {
    let key = str::from_utf8(key).unwrap_or("not UTF-8");
    Ok(format!(in alloc; "{table} {index} {key}")?)
}

fn of_known(alloc: Global, table: u8, index: u32, key: u8) -> Result<String, Fail> {
    Ok(format!(in alloc; "{table} {index} {key}")?)
}

// The greatest position, and numbers of tables and keys that the schema doesn't have, which have no name.
#[test]
fn lines_of_other_numbers(rt: HostRuntime) {
    let greatest = DescFault::WrongKind {
        table: 8,
        index: u32::MAX,
        key: 0,
    };
    has_line(
        &rt,
        &greatest,
        "description: wrong kind acpi 4294967295 oem_id\n",
    );
    let behind_the_last = DescFault::MissingKey {
        table: 0,
        index: 0,
        key: 22,
    };
    has_line(&rt, &behind_the_last, "description: missing key root 0 \n");
    let past = DescFault::MissingKey {
        table: 21,
        index: 0,
        key: 255,
    };
    has_line(&rt, &past, "description: missing key  0 \n");
}

fn has_line(rt: &impl Abort, fault: &DescFault, wanted: &str) {
    is_text(rt, fault.line().as_str(), wanted, "another number");
}
