//! Containers of as many bytes as the files of a device may have, 67,108,864, in one file and in as many as there may be, 1,024. What
//! they are as bytes was made by hand from QEMU, docs/specs/fw_cfg.

ghost use Rattle.std.specs.Prelude.{◌≡◌, ◌<◌, ◌≤◌, ◌+◌, ◌*◌, [], length, IfOk, OnOk};
ghost use Rattle.test_files.specs.Filled.{HasFiles};

use crate::directory::images::{entry_of, field_of, put_flags};
use crate::directory::pieces::read_by;
use cfg_directory::{Items, directory_bytes, read_image, write_image};
use std::alloc::Global;
use std::process::Abort;
use std::test::Fail;
use vt_outside::{Bytes, Name, OutOfMemory};

// How many bytes the files are made of, a chunk after the other.
const CHUNK: usize = 65_536;

#[test]
fn the_largest_containers_of_one_file_and_of_1024(rt: HostRuntime) -> Result<(), Fail> {
    is_read_and_written(&rt, rt.alloc(), 1, 1024)?;
    is_read_and_written(&rt, rt.alloc(), 1024, 1)
}

// So many files of so many chunks each are read from their container, and written as it.
fn is_read_and_written(rt: &impl Abort, alloc: Global, count: u16, chunks: u16) -> Result<(), Fail>
    requires count { count ≤ 1024 }
    requires chunks { chunks ≤ 1024 }
{
    let image = image(alloc, count, chunks)?;
    is_read(rt, alloc, image.as_slice(), count)?;
    is_read_by_chunks(rt, alloc, image.as_slice(), count)
}

fn is_read(rt: &impl Abort, alloc: Global, image: &[u8], count: u16) -> Result<(), Fail> {
    let items = read_image(alloc, image)?;
    let done = are_written_all(rt, alloc, &items, image, count);
    drop(items);
    done
}

fn is_read_by_chunks(rt: &impl Abort, alloc: Global, image: &[u8], count: u16) -> Result<(), Fail> {
    let items = read_by(rt, alloc, image, CHUNK)?;
    let done = are_written_all(rt, alloc, &items, image, count);
    drop(items);
    done
}

fn are_written_all(
    rt: &impl Abort,
    alloc: Global,
    items: &Items,
    image: &[u8],
    count: u16,
) -> Result<(), Fail> {
    assert_eq!(rt; items.all().len(), usize::from(count));
    are_written(rt, alloc, items, image)
}

// The files are written as this container, which begins with their directory.
fn are_written(rt: &impl Abort, alloc: Global, items: &Items, image: &[u8]) -> Result<(), Fail> {
    begins_with_directory(rt, alloc, items, image)?;
    let written = write_image(alloc, items)?;
    is_image(rt, written.as_slice(), image);
    Ok(())
}

// Without the bytes of either, which are many.
fn is_image(rt: &impl Abort, written: &[u8], image: &[u8]) {
    assert!(rt; written == image);
}

fn begins_with_directory(
    rt: &impl Abort,
    alloc: Global,
    items: &Items,
    image: &[u8],
) -> Result<(), Fail> {
    let directory = directory_bytes(alloc, items)?;
    is_front(rt, directory.as_slice(), items, image);
    Ok(())
}

fn is_front(rt: &impl Abort, directory: &[u8], items: &Items, image: &[u8]) {
    assert_eq!(rt; directory.len(), 4 + 64 * items.all().len());
    assert!(rt; image.starts_with(directory));
}

#[test]
fn the_largest_file_and_1024_files_are_added(rt: HostRuntime) -> Result<(), Fail> {
    is_added_and_written(&rt, rt.alloc(), 1, 1024)?;
    is_added_and_written(&rt, rt.alloc(), 1024, 1)
}

// So many files of so many chunks each are added, and written as their container.
fn is_added_and_written(rt: &impl Abort, alloc: Global, count: u16, chunks: u16) -> Result<(), Fail>
    requires count { count ≤ 1024 }
    requires chunks { chunks ≤ 1024 }
    requires small { count * (chunks * 65536) ≤ 67108864 }
{
    let image = image(alloc, count, chunks)?;
    let items = device(alloc, count, chunks)?;
    let done = are_written(rt, alloc, &items, image.as_slice());
    drop(items);
    done
}

// The files of a device, so many of so many chunks each.
fn device(alloc: Global, count: u16, chunks: u16) -> Result<Items, Fail>
    requires few { count ≤ 1024 }
    requires small { count * (chunks * 65536) ≤ 67108864 }
{
    let mut items = Items::new(alloc);
    add_files(alloc, &mut items, count, chunks)?;
    Ok(items)
}

fn add_files(alloc: Global, items: &mut Items, count: u16, chunks: u16) -> Result<(), Fail>
    requires few { count ≤ 1024 }
    requires small { count * (chunks * 65536) ≤ 67108864 }
    requires none { items.old ≡ [] }
{
    for number in 0..count {
        add_file(alloc, items, number, chunks)?;
    }
    Ok(())
}

// Adds the file of a number, unless its name is another's.
#[tactic(auto, using(crate::proofs::Filled::none_named))]
fn add_file(alloc: Global, items: &mut Items, number: u16, chunks: u16) -> Result<(), Fail>
    requires few { number < 1024 }
    requires small { number * (chunks * 65536) + chunks * 65536 ≤ 67108864 }
    requires files { HasFiles items.old number (chunks * 65536) }
    ensures { OnOk result (HasFiles items.new (number + 1) (chunks * 65536)) }
{
    let name = Name::read(&field_of(number))?;
    if items.find(&name).is_some() {
        return Err(Fail::from("a name that is another's"));
    }
    let contents = contents(alloc, number, chunks)?;
    items.add(name, false, contents)?;
    Ok(())
}

// The container: the number of files, an entry for each, a flag for each that says that it is only read, and what they hold.
fn image(alloc: Global, count: u16, chunks: u16) -> Result<Bytes, OutOfMemory>
    requires count { count ≤ 1024 }
    requires chunks { chunks ≤ 1024 }
{
    let mut image = Bytes::new(alloc);
    put_image(&mut image, count, chunks)?;
    Ok(image)
}

fn put_image(image: &mut Bytes, count: u16, chunks: u16) -> Result<(), OutOfMemory>
    requires count { count ≤ 1024 }
    requires chunks { chunks ≤ 1024 }
{
    image.extend(&u32::from(count).to_be_bytes())?;
    put_entries(image, count, chunks)?;
    put_flags(image, count)?;
    put_all_contents(image, count, chunks)
}

fn put_entries(image: &mut Bytes, count: u16, chunks: u16) -> Result<(), OutOfMemory>
    requires count { count ≤ 1024 }
    requires chunks { chunks ≤ 1024 }
{
    for number in 0..count {
        image.extend(&entry_of(number, u32::from(chunks) * 65_536))?;
    }
    Ok(())
}

fn put_all_contents(image: &mut Bytes, count: u16, chunks: u16) -> Result<(), OutOfMemory> {
    for number in 0..count {
        put_contents(image, number, chunks)?;
    }
    Ok(())
}

// What a file holds.
fn contents(alloc: Global, number: u16, chunks: u16) -> Result<Bytes, OutOfMemory>
    ensures { IfOk result (λ bytes. length bytes ≡ chunks * 65536) }
{
    let mut contents = Bytes::new(alloc);
    put_contents(&mut contents, number, chunks)?;
    Ok(contents)
}

// Each chunk is one byte again and again, which tells it from those beside it.
fn put_contents(bytes: &mut Bytes, number: u16, chunks: u16) -> Result<(), OutOfMemory>
    ensures { OnOk result (length bytes.new ≡ length bytes.old + chunks * 65536) }
{
    for chunk in 0..chunks {
        let byte = (number.wrapping_add(chunk) % 251) as u8;
        bytes.extend(&[byte; CHUNK])?;
    }
    Ok(())
}
