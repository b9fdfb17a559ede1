//! What is written is read again, and written as it was.

ghost use Rattle.std.specs.Prelude.{◌≡◌, ◌++◌, [], IfOk, OnOk};
ghost use Rattle.guest_memory.specs.Memory.{Memory, IsMemory};
ghost use Rattle.guest_memory.specs.Bytes.{HoldsBytes};
ghost use Rattle.memory_dump.specs.Dump.{dump};

use fixtures::{
    EMPTY_DUMP, LONG_TEXTS_DUMP, MINIMAL_DUMP, ON_THE_BORDER_DUMP, QUOTES_DUMP,
    WITH_ACPI_AND_HPET_DUMP, WITH_ACPI_DUMP, WITH_ALL_OF_POWER_DUMP, WITH_APIC_DUMP,
    WITH_INTERRUPTS_DUMP, WITH_NODES_DUMP, WITH_POWER_DUMP, is_same, sink,
};
use guest_memory::GuestMemory;
use memory_dump::{dump_to, read_dump, row_count, whole_lines};
use std::alloc::Global;
use std::test::Fail;
use vt_outside::{Failed, ListSink};

static DUMPS: [&str; 12] = [
    EMPTY_DUMP,
    LONG_TEXTS_DUMP,
    MINIMAL_DUMP,
    ON_THE_BORDER_DUMP,
    QUOTES_DUMP,
    WITH_ACPI_AND_HPET_DUMP,
    WITH_ACPI_DUMP,
    WITH_ALL_OF_POWER_DUMP,
    WITH_APIC_DUMP,
    WITH_INTERRUPTS_DUMP,
    WITH_NODES_DUMP,
    WITH_POWER_DUMP,
];

#[test]
fn dumps_are_read_again(rt: HostRuntime) -> Result<(), Fail> {
    for dump in &DUMPS {
        is_read_again(rt.alloc(), dump.as_bytes())?;
    }
    Ok(())
}

/// Tells where the memory that a text is read as hasn't this text.
pub fn is_read_again(alloc: Global, text: &[u8]) -> Result<(), Fail> {
    let mut out = sink(alloc, text.len(), &[])?;
    let done = is_written_again(alloc, text, &mut out);
    drop(out);
    done
}

fn is_written_again(alloc: Global, text: &[u8], out: &mut ListSink) -> Result<(), Fail> {
    write_again(alloc, text, out)?;
    is_same("a dump", "its text", &out.taken(), &text)
}

fn write_again(alloc: Global, text: &[u8], out: &mut ListSink) -> Result<(), Fail> {
    let memory = read(alloc, text)?;
    let written = write(&memory, out);
    drop(memory);
    written
}

/// Writes the dump of a memory to a sink that has room for it.
pub fn write(memory: &GuestMemory, out: &mut ListSink) -> Result<(), Fail>
    ensures taken { OnOk result (out.new.taken ≡ out.old.taken ++ dump memory.now.memory) }
    ensures lawful { IsMemory memory.now.memory }
    ensures holds { HoldsBytes memory.now.memory }
{
    match dump_to(memory, out) {
        Ok(()) => Ok(()),
        Err(Failed) => Err(Fail::new(format_args!("a write failed"))),
    }
}

#[test]
fn memories_are_what_is_read_of_their_dumps(rt: HostRuntime) -> Result<(), Fail> {
    for dump in &DUMPS {
        is_made_again(rt.alloc(), dump.as_bytes())?;
    }
    Ok(())
}

// The memory of a text is made again from its dump.
fn is_made_again(alloc: Global, text: &[u8]) -> Result<(), Fail> {
    let memory = read(alloc, text)?;
    let mut out = sink(alloc, text.len(), &[])?;
    let again = dumped_and_read(alloc, &memory, &mut out);
    drop(out);
    drop(memory);
    drop(again?);
    Ok(())
}

// The memory that is read of a memory's dump: it is that memory.
fn dumped_and_read(
    alloc: Global,
    memory: &GuestMemory,
    out: &mut ListSink,
) -> Result<GuestMemory, Fail>
    requires { out.old.taken ≡ [] }
    ensures { IfOk result (λ again. again.memory ≡ memory.now.memory) }
{
    write(memory, out)?;
    read(alloc, out.taken())
}

fn read(alloc: Global, text: &[u8]) -> Result<GuestMemory, Fail>
    ensures { (m : Memory) → IsMemory m → HoldsBytes m → dump m ≡ text.now → IfOk result (λ held. held.memory ≡ m) }
{
    if text.len() > 0xFFFF_FFFF {
        return Err(Fail::new(format_args!("a dump is too long")));
    }
    match read_dump(alloc, text) {
        Ok(memory) => Ok(memory),
        Err(fault) => Err(Fail::new(format_args!("a dump is refused: {fault:?}"))),
    }
}

// Texts, and how many whole lines they have.
static LINES: [(&str, u32); 5] = [
    ("", 0),
    ("top", 0),
    ("top 04000000 fill 00\n", 1),
    ("\n\na", 2),
    (MINIMAL_DUMP, 7),
];

#[test]
fn whole_lines_are_counted(rt: HostRuntime) -> Result<(), Fail> {
    let _alloc = rt.alloc();
    for (text, count) in &LINES {
        has_lines(text.as_bytes(), *count)?;
    }
    Ok(())
}

fn has_lines(text: &[u8], count: u32) -> Result<(), Fail> {
    if text.len() > 0xFFFF_FFFF {
        return Err(Fail::new(format_args!("a text is too long")));
    }
    is_same("a text", "whole lines", &whole_lines(text), &count)
}

// Dumps, and how many rows they have.
static ROWS: [(&str, u32); 4] = [
    ("top 04000000 fill 5a\nend\n", 0),
    (EMPTY_DUMP, 5),
    (MINIMAL_DUMP, 5),
    (LONG_TEXTS_DUMP, 29),
];

#[test]
fn rows_are_counted(rt: HostRuntime) -> Result<(), Fail> {
    for (text, count) in &ROWS {
        has_rows(rt.alloc(), text, *count)?;
    }
    Ok(())
}

fn has_rows(alloc: Global, text: &str, count: u32) -> Result<(), Fail> {
    let memory = read(alloc, text.as_bytes())?;
    let rows = row_count(&memory);
    drop(memory);
    is_same(text, "rows", &rows, &count)
}
