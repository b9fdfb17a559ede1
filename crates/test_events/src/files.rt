//! The files of a device, as a container that is written by hand and read.

use crate::scripts::{Line, script_of};
use cfg_directory::{Items, read_image};
use std::alloc::Global;
use std::test::Fail;
use vt_outside::{Bytes, Name, OutOfMemory};

/// The name of a script's file.
pub(crate) const LOADER: &str = "etc/table-loader";

/// A file of a container: its name, whether the guest may write it, and its bytes.
#[derive(Clone, Copy)]
pub(crate) struct File<'a> {
    pub(crate) name: &'a str,
    pub(crate) writable: bool,
    pub(crate) bytes: &'a [u8],
}

/// The files of the small load: one for the F segment, with a number in the bytes 2 to 5 and a sum in the last, one for high memory, and
/// one that stays where it is.
pub(crate) static SMALL_FILES: [File<'static>; 3] = [
    File {
        name: "etc/anchor",
        writable: false,
        bytes: b"\x41\x42\x05\0\0\0\x77\x88\0",
    },
    File {
        name: "etc/tables",
        writable: false,
        bytes: b"\xc1\xc2\xc3\xc4\xc5",
    },
    File {
        name: "etc/spare",
        writable: false,
        bytes: b"\x99",
    },
];

/// The files that the scripts of cases place: one that holds numbers, one that they point to, one of numbers that are nearly too large,
/// one of the greatest number of eight bytes, and one of no bytes.
pub(crate) static FILES: [File<'static>; 5] = [
    File {
        name: "etc/holder",
        writable: false,
        bytes: b"\x11\x22\x08\0\0\0\x33\x44\x55",
    },
    File {
        name: "etc/target",
        writable: false,
        bytes: b"\xa1\xa2\xa3",
    },
    File {
        name: "etc/edge",
        writable: false,
        bytes: b"\xff\xff\xff\xfc\0\0\0\xfd",
    },
    File {
        name: "etc/ones",
        writable: false,
        bytes: b"\xff\xff\xff\xff\xff\xff\xff\xff",
    },
    File {
        name: "etc/empty",
        writable: false,
        bytes: b"",
    },
];

/// The files of loads that write: one that the guest may write, one whose place is written, and another that it may write.
pub(crate) static WRITTEN_FILES: [File<'static>; 3] = [
    File {
        name: "etc/cell",
        writable: true,
        bytes: b"\x10\x11\x12\x13\x14\x15\x16\x17\x18\x19\x1a\x1b",
    },
    File {
        name: "etc/goal",
        writable: false,
        bytes: b"\xe1\xe2\xe3\xe4\xe5",
    },
    File {
        name: "etc/word",
        writable: true,
        bytes: b"\x71\x72\x73\x74\x75\x76\x77\x78",
    },
];

/// Makes the files of a device: these, so many that are empty, and a script.
pub(crate) fn items_of(
    alloc: Global,
    files: &[File<'_>],
    empties: u8,
    lines: &[Line],
) -> Result<Items, Fail> {
    let script = script_of(alloc, lines)?;
    let loader = File {
        name: LOADER,
        writable: false,
        bytes: script.as_slice(),
    };
    items_with(alloc, files, empties, &[loader])
}

/// Makes the files of a device: these, so many that are empty, and the last ones. They have the selectors from 0x20 on.
pub(crate) fn items_with(
    alloc: Global,
    files: &[File<'_>],
    empties: u8,
    last: &[File<'_>],
) -> Result<Items, Fail> {
    let container = container_with(alloc, files, empties, last)?;
    Ok(read_image(alloc, container.as_slice())?)
}

fn container_with(
    alloc: Global,
    files: &[File<'_>],
    empties: u8,
    last: &[File<'_>],
) -> Result<Bytes, Fail> {
    let mut container = Bytes::new(alloc);
    put_directory(&mut container, files, empties, last)?;
    put_flags(&mut container, files)?;
    container.extend(&[0; 255][..usize::from(empties)])?;
    put_flags(&mut container, last)?;
    put_contents(&mut container, files)?;
    put_contents(&mut container, last)?;
    Ok(container)
}

fn put_directory(
    container: &mut Bytes,
    files: &[File<'_>],
    empties: u8,
    last: &[File<'_>],
) -> Result<(), Fail> {
    let before = u16::try_from(files.len())?.wrapping_add(u16::from(empties));
    let count = u32::from(before).wrapping_add(u32::try_from(last.len())?);
    container.extend(&count.to_be_bytes())?;
    put_entries(container, files, 0x20)?;
    put_empties(container, empties, 0x20u16.wrapping_add(before))?;
    put_entries(container, last, 0x20u16.wrapping_add(before))
}

// The entries of files, with selectors from one on: the size, the selector, two bytes without a meaning, and the name.
fn put_entries(container: &mut Bytes, files: &[File<'_>], first: u16) -> Result<(), Fail> {
    let mut select = first;
    for file in files {
        put_entry(container, file, select)?;
        select = select.wrapping_add(1);
    }
    Ok(())
}

fn put_entry(container: &mut Bytes, file: &File<'_>, select: u16) -> Result<(), Fail> {
    let size = u32::try_from(file.bytes.len())?;
    put_numbers(container, size, select)?;
    container.extend(&Name::of(file.name)?.bytes())?;
    Ok(())
}

fn put_numbers(container: &mut Bytes, size: u32, select: u16) -> Result<(), OutOfMemory> {
    container.extend(&size.to_be_bytes())?;
    container.extend(&select.to_be_bytes())?;
    container.extend(&[0; 2])
}

// The entries of empty files, with selectors up to one that is no more theirs.
fn put_empties(container: &mut Bytes, count: u8, end: u16) -> Result<(), OutOfMemory> {
    for number in 0..count {
        let select = end
            .wrapping_sub(u16::from(count))
            .wrapping_add(u16::from(number));
        put_numbers(container, 0, select)?;
        container.extend(&empty_name(number))?;
    }
    Ok(())
}

fn empty_name(number: u8) -> [u8; 56] {
    let mut name = [0; 56];
    name[0] = b'e';
    name[1] = b'a' + number % 16;
    name[2] = b'a' + number / 16;
    name
}

// A flag for each file, which is 1 where the guest may write it.
fn put_flags(container: &mut Bytes, files: &[File<'_>]) -> Result<(), OutOfMemory> {
    for file in files {
        container.push(u8::from(file.writable))?;
    }
    Ok(())
}

fn put_contents(container: &mut Bytes, files: &[File<'_>]) -> Result<(), OutOfMemory> {
    for file in files {
        container.extend(file.bytes)?;
    }
    Ok(())
}
