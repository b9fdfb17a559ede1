//! Containers of files of many sizes, at once and in pieces.

ghost use Rattle.std.specs.Prelude.{◌≤◌, length};

use crate::directory::containers::are_bytes;
use crate::directory::images::{entry_of, put_flags};
use crate::directory::pieces::read_by;
use cfg_directory::{Items, read_image, write_image};
use std::alloc::Global;
use std::process::Abort;
use std::test::Fail;
use vt_outside::{Bytes, OutOfMemory};

// How many bytes each file has, in their order.
static SIZES: [(&str, &[u16]); 12] = [
    ("no file", &[]),
    ("an empty file", &[0]),
    ("two empty files", &[0, 0]),
    ("as many empty files as there may be", &[0; 1024]),
    ("one file", &[10_000]),
    ("a file, and an empty one", &[4096, 0]),
    ("an empty file first", &[0, 4097]),
    ("the longest file first", &[9000, 20, 4096]),
    ("the longest file in the middle", &[20, 9000, 4096]),
    ("the longest file last", &[4096, 20, 9000]),
    ("two files of one size", &[5000, 5000]),
    ("no file with half of all bytes", &[40, 50, 40]),
];

#[test]
fn containers_of_many_sizes(rt: HostRuntime) -> Result<(), Fail> {
    for (case, sizes) in &SIZES {
        is_read(&rt, rt.alloc(), case, sizes)?;
    }
    Ok(())
}

fn is_read(rt: &impl Abort, alloc: Global, case: &str, sizes: &[u16]) -> Result<(), Fail> {
    assert!(rt; sizes.len() <= 1024, "{case}");
    let image = image_of(alloc, sizes)?;
    let items = read_image(alloc, image.as_slice())?;
    are_written(rt, alloc, case, items, image.as_slice())?;
    let items = read_by(rt, alloc, image.as_slice(), 65)?;
    are_written(rt, alloc, case, items, image.as_slice())
}

// The files are written as this container.
fn are_written(
    rt: &impl Abort,
    alloc: Global,
    case: &str,
    items: Items,
    image: &[u8],
) -> Result<(), Fail> {
    let written = write_image(alloc, &items);
    drop(items);
    are_bytes(rt, case, written?.as_slice(), image);
    Ok(())
}

// The container of files of these sizes.
fn image_of(alloc: Global, sizes: &[u16]) -> Result<Bytes, OutOfMemory>
    requires { length sizes.now ≤ 1024 }
{
    let mut image = Bytes::new(alloc);
    image.extend(&(sizes.len() as u32).to_be_bytes())?;
    put_entries(&mut image, sizes)?;
    put_flags(&mut image, sizes.len() as u16)?;
    put_contents(&mut image, sizes)?;
    Ok(image)
}

fn put_entries(image: &mut Bytes, sizes: &[u16]) -> Result<(), OutOfMemory>
    requires { length sizes.now ≤ 1024 }
{
    for (number, size) in sizes.iter().enumerate() {
        image.extend(&entry_of(number as u16, u32::from(*size)))?;
    }
    Ok(())
}

// No byte is the one before it, and no file begins as another.
fn put_contents(image: &mut Bytes, sizes: &[u16]) -> Result<(), OutOfMemory> {
    for (number, size) in sizes.iter().enumerate() {
        put_content(image, number, *size)?;
    }
    Ok(())
}

fn put_content(image: &mut Bytes, number: usize, size: u16) -> Result<(), OutOfMemory> {
    for index in 0..size {
        let byte = usize::from(index).wrapping_add(number.wrapping_mul(100)) % 251;
        image.push(byte as u8)?;
    }
    Ok(())
}
