//! How a file is found by its name.

use loader_script::{FileInfo, NameOrder};
use std::alloc::Global;
use std::process::Abort;
use std::test::Fail;
use vt_outside::{Name, NameFault, OutOfMemory};

#[test]
fn no_files(rt: HostRuntime) -> Result<(), Fail> {
    are_found(&rt, rt.alloc(), &[], Name::of("a")?)?;
    Ok(())
}

#[test]
fn one_file(rt: HostRuntime) -> Result<(), Fail> {
    let files = [file_of(Name::of("etc/acpi/rsdp")?)];
    are_found(&rt, rt.alloc(), &files, Name::of("etc/acpi/rsdq")?)?;
    are_found(&rt, rt.alloc(), &files, Name::of("etc/acpi/rsd")?)?;
    are_found(&rt, rt.alloc(), &files, Name::of("etc/acpi/rsdp2")?)?;
    Ok(())
}

// Names that begin alike, up to the longest one.
#[test]
fn names_in_names(rt: HostRuntime) -> Result<(), Fail> {
    let files = [
        file_of(Name::of("etc/acpi/tables")?),
        file_of(Name::of("e")?),
        file_of(Name::of("etc/acpi/tables/of/a/machine/with/the/longest/name/of55")?),
        file_of(Name::of("etc")?),
        file_of(Name::of("etc/acpi/tables ")?),
    ];
    are_found(&rt, rt.alloc(), &files, Name::of("etc/")?)?;
    are_found(&rt, rt.alloc(), &files, Name::of("etc/acpi/tables/")?)?;
    are_found(&rt, rt.alloc(), &files, Name::of(" ")?)?;
    are_found(&rt, rt.alloc(), &files, Name::of("~")?)?;
    Ok(())
}

#[test]
fn last_bytes(rt: HostRuntime) -> Result<(), Fail> {
    let files = [
        file_of(Name::of("opt/file-b")?),
        file_of(Name::of("opt/file-~")?),
        file_of(Name::of("opt/file-B")?),
        file_of(Name::of("opt/file- ")?),
    ];
    are_found(&rt, rt.alloc(), &files, Name::of("opt/file-a")?)?;
    are_found(&rt, rt.alloc(), &files, Name::of("opt/file-c")?)?;
    Ok(())
}

// As many files as the longest directory has, the last name first.
#[test]
fn descending(rt: HostRuntime) -> Result<(), Fail> {
    let alloc = rt.alloc();
    let mut files = Vec::with_capacity(alloc, 1024)?;
    for number in 0..1024 {
        files.push(file_of(numbered(1023 - number)?))?;
    }
    are_found(&rt, alloc, files.as_slice(), numbered(1024)?)?;
    Ok(())
}

// Each file is found at its index, and the name of none of them isn't found.
fn are_found(
    rt: &impl Abort,
    alloc: Global,
    files: &[FileInfo],
    none: Name,
) -> Result<(), OutOfMemory> {
    let order = NameOrder::of(alloc, files)?;
    for (index, file) in files.iter().enumerate() {
        assert_eq!(rt; order.index_of(&file.name), Some(index));
    }
    assert_eq!(rt; order.index_of(&none), None);
    Ok(())
}

fn file_of(name: Name) -> FileInfo {
    FileInfo {
        name,
        size: 1,
        writable: false,
    }
}

// The name of a file by its number, of four digits.
fn numbered(number: u32) -> Result<Name, NameFault> {
    let mut field = [0; 56];
    field[0] = b'f';
    field[1] = digit(number / 1000);
    field[2] = digit(number / 100);
    field[3] = digit(number / 10);
    field[4] = digit(number);
    Name::read(&field)
}

fn digit(number: u32) -> u8 {
    b'0' + (number % 10) as u8
}
