//! Containers of files, both ways, and the entries of a directory one by one.

use crate::directory::images::two_files as image;
use cfg_directory::{Item, Items, Listed, directory_bytes, list_entries, read_image, write_image};
use std::alloc::Global;
use std::process::Abort;
use std::test::Fail;
use vt_outside::{Name, OutOfMemory};

#[test]
fn two_files(rt: HostRuntime) -> Result<(), Fail> {
    let image = image();
    let items = read_image(rt.alloc(), &image)?;
    let done = are_the_two(&rt, rt.alloc(), &items, &image);
    drop(items);
    done
}

fn are_the_two(
    rt: &impl Abort,
    alloc: Global,
    items: &Items,
    image: &[u8; 137],
) -> Result<(), Fail> {
    for item in items.all() {
        is_one_of_the_two(rt, item);
    }
    has_directory(rt, alloc, items, image.split_at(132).0)?;
    has_container(rt, alloc, items, image)
}

fn is_one_of_the_two(rt: &impl Abort, item: &Item) {
    let wanted = if item.select == 0x21 {
        (true, 0)
    } else {
        (false, 3)
    };
    assert_eq!(rt; (item.writable, item.bytes.len()), wanted);
}

fn has_directory(
    rt: &impl Abort,
    alloc: Global,
    items: &Items,
    directory: &[u8],
) -> Result<(), Fail> {
    let bytes = directory_bytes(alloc, items)?;
    are_bytes(rt, "the directory", bytes.as_slice(), directory);
    Ok(())
}

fn has_container(
    rt: &impl Abort,
    alloc: Global,
    items: &Items,
    container: &[u8],
) -> Result<(), Fail> {
    let bytes = write_image(alloc, items)?;
    are_bytes(rt, "the container", bytes.as_slice(), container);
    Ok(())
}

// Compares bytes.
pub(crate) fn are_bytes(rt: &impl Abort, case: &str, bytes: &[u8], wanted: &[u8]) {
    assert_eq!(rt; bytes, wanted, "{case}");
}

// An entry whose name is none, as the first is once its name begins with a NUL, is passed by.
#[test]
fn entries_one_by_one(rt: HostRuntime) -> Result<(), Fail> {
    let listed = listed(rt.alloc())?;
    are_listed(&rt, listed.as_slice())
}

// The entries of both files, and again with the NUL.
fn listed(alloc: Global) -> Result<Vec<Listed>, OutOfMemory> {
    let mut image = image();
    let mut listed = Vec::with_capacity(alloc, 4)?;
    list_entries(2, &image[4..132], &mut listed);
    image[12] = 0;
    list_entries(2, &image[4..], &mut listed);
    Ok(listed)
}

fn are_listed(rt: &impl Abort, listed: &[Listed]) -> Result<(), Fail> {
    let [first, second, third] = listed else {
        panic!(rt; "not three files");
    };
    let (a, b) = (Name::of("a")?, Name::of("b")?);
    says(rt, first, &a, 0x20, 3);
    says(rt, second, &b, 0x21, 0);
    says(rt, third, &b, 0x21, 0);
    Ok(())
}

fn says(rt: &impl Abort, listed: &Listed, name: &Name, select: u16, size: u32) {
    assert!(rt; listed.name == *name);
    assert_eq!(rt; (listed.select, listed.size), (select, size));
}
