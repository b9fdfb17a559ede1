//! Loader scripts as bytes, and why a command is refused.

ghost use Rattle.std.specs.Prelude.{◌≡◌, ◌+◌, ◌^◌, ◌≤◌, codes};

use loader_script::{
    Cause, Entry, FileInfo, NameOrder, ScriptFault, decode_entry, decode_script, encode_script,
    entry_size, refusal,
};
use std::alloc::Global;
use std::process::Abort;
use std::test::Fail;
use vt_outside::{Name, OutOfMemory};

// ALLOCATE of "a" to a multiple of 0x10 of the F segment.
fn allocate() -> [u8; 128] {
    let mut entry = [0; 128];
    entry[0] = 1;
    entry[4] = b'a';
    entry[60] = 0x10;
    entry[64] = 2;
    entry
}

#[test]
fn one_command(rt: HostRuntime) -> Result<(), Fail> {
    let Entry::Allocate { file, align, zone } = decode_entry(&allocate()) else {
        return Err(Fail::from("no Allocate"));
    };
    assert!(rt; file == Name::of("a")?);
    assert_eq!(rt; (align, zone), (0x10, 2));
    let written = encode_script(rt.alloc(), &[Entry::Allocate { file, align, zone }])?;
    assert_eq!(rt; written.as_slice(), allocate().as_slice());
    Ok(())
}

#[test]
fn entries_have_128_bytes(rt: HostRuntime) {
    assert_eq!(rt; entry_size(&decode_entry(&allocate())), 128);
    assert_eq!(rt; entry_size(&Entry::Skipped(0)), 128);
}

#[test]
fn commands_of_other_numbers(rt: HostRuntime) {
    for (number, is_skipped) in [
        (0, true),
        (1, false),
        (2, false),
        (3, false),
        (4, false),
        (5, true),
        (0xFF, true),
    ] {
        let mut entry = allocate();
        entry[0] = number;
        assert_eq!(rt;
            matches!(decode_entry(&entry), Entry::Skipped(_)),
            is_skipped,
            "at {number}"
        );
    }
}

// A field that holds no file name: it has no NUL, begins with one, or has a byte that isn't printable before one.
#[test]
fn fields_with_no_name(rt: HostRuntime) {
    for no_name in [field(b'A', b'A'), field(0, b'A'), field(0x1F, 0)] {
        for (command, has_two_names) in [(1, false), (2, true), (3, false), (4, true)] {
            assert_eq!(rt;
                misnamed(&with_names(command, &no_name, &field(b'b', 0))),
                Some(u32::from(command)),
                "at the first of {command}"
            );
            assert_eq!(rt;
                misnamed(&with_names(command, &field(b'a', 0), &no_name)),
                has_two_names.then_some(u32::from(command)),
                "at the second of {command}"
            );
        }
    }
}

// A field of a byte and as many others as it has room for.
fn field(first: u8, others: u8) -> [u8; 56] {
    let mut field = [others; 56];
    field[0] = first;
    field
}

// A command of a number, with two fields where names stand.
fn with_names(number: u8, first: &[u8; 56], second: &[u8; 56]) -> [u8; 128] {
    let mut entry = [0; 128];
    entry[0] = number;
    entry[4..60].copy_from_slice(first);
    entry[60..116].copy_from_slice(second);
    entry
}

// The number of a command that is read as misnamed.
fn misnamed(entry: &[u8; 128]) -> Option<u32> {
    match decode_entry(entry) {
        Entry::Misnamed(command) => Some(command),
        _ => None,
    }
}

#[test]
fn lengths_of_scripts(rt: HostRuntime) {
    assert_eq!(rt; count_of(rt.alloc(), &[]), Ok(0));
    assert_eq!(rt; count_of(rt.alloc(), &[0; 128]), Ok(1));
    assert_eq!(rt;
        count_of(rt.alloc(), &[0; 127]),
        Err(ScriptFault::ScriptLength)
    );
    assert_eq!(rt;
        count_of(rt.alloc(), &[0; 129]),
        Err(ScriptFault::ScriptLength)
    );
}

// How many commands the bytes are read as.
fn count_of(alloc: Global, bytes: &[u8]) -> Result<usize, ScriptFault> {
    decode_script(alloc, bytes).map(|script| script.len())
}

#[test]
fn causes_of_refusal(rt: HostRuntime) -> Result<(), Fail> {
    let order = NameOrder::of(rt.alloc(), &[])?;
    assert_eq!(rt; refusal(&Entry::Skipped(9), &[], &[], &order), None);
    assert_eq!(rt;
        refusal(&Entry::Misnamed(2), &[], &[], &order),
        Some(Cause::BadName)
    );
    assert_eq!(rt;
        refusal(&Entry::Misnamed(4), &[], &[], &order),
        Some(Cause::BadName)
    );
    Ok(())
}

// Of two files "a", of 16 bytes at an address, and "b", of 8 bytes, writable and not placed.
pub(crate) fn cause_at(
    alloc: Global,
    place: u64,
    entry: &Entry,
) -> Result<Option<Cause>, OutOfMemory>
    requires { place + 16 ≤ 2 ^ 32 }
{
    let files = [
        FileInfo {
            name: a(),
            size: 16,
            writable: false,
        },
        FileInfo {
            name: b(),
            size: 8,
            writable: true,
        },
    ];
    let order = NameOrder::of(alloc, &files)?;
    Ok(refusal(entry, &files, &[Some(place), None], &order))
}

pub(crate) fn a() -> Name
    ensures { result ≡ codes "a" }
{
    Name::of("a").unwrap()
}

pub(crate) fn b() -> Name
    ensures { result ≡ codes "b" }
{
    Name::of("b").unwrap()
}

#[test]
fn causes_with_files(rt: HostRuntime) -> Result<(), Fail> {
    allocations(&rt, rt.alloc(), a(), b(), Name::of("etc/other")?);
    pointers(&rt, rt.alloc(), a(), b());
    Ok(())
}

fn allocations(rt: &impl Abort, alloc: Global, a: Name, b: Name, other: Name) {
    is_cause(
        rt,
        alloc,
        &allocate_of(a, 16, 1),
        Some(Cause::AlreadyPlaced),
    );
    is_cause(rt, alloc, &allocate_of(b, 16, 2), None);
    is_cause(rt, alloc, &allocate_of(b, 24, 1), Some(Cause::BadAlign));
    is_cause(rt, alloc, &allocate_of(b, 16, 3), Some(Cause::BadZone));
    is_cause(rt, alloc, &allocate_of(other, 16, 1), Some(Cause::NoFile));
}

fn pointers(rt: &impl Abort, alloc: Global, a: Name, b: Name) {
    is_cause(rt, alloc, &add_pointer(a, a, 8, 8), None);
    is_cause(rt, alloc, &add_pointer(a, a, 9, 8), Some(Cause::OutOfRange));
    is_cause(rt, alloc, &add_pointer(a, a, 8, 3), Some(Cause::BadSize));
    is_cause(rt, alloc, &add_pointer(a, b, 8, 8), Some(Cause::NotPlaced));
}

// The command is refused for this cause, or not refused, where "a" is at 0x03000000.
pub(crate) fn is_cause(rt: &impl Abort, alloc: Global, entry: &Entry, cause: Option<Cause>) {
    assert_eq!(rt;
        cause_at(alloc, 0x0300_0000, entry),
        Ok(cause),
        "at {entry:?}"
    );
}

fn allocate_of(file: Name, align: u32, zone: u8) -> Entry {
    Entry::Allocate { file, align, zone }
}

fn add_pointer(dest: Name, src: Name, offset: u32, size: u8) -> Entry {
    Entry::AddPointer {
        dest,
        src,
        offset,
        size,
    }
}
