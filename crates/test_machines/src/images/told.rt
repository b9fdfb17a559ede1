//! The items and the commands of an image in words.

use cfg_directory::Item;
use fixtures::is_same;
use image_files::Image;
use loader_script::{Entry, decode_script};
use std::alloc::{AllocError, Global};
use std::test::Fail;
use vt_outside::Name;

// An image is one of these items and of these commands, and its last item is the commands as bytes, 128 for each. The image is given up
// here, in one call, so that no proof but this one has steps for its parts.
pub(crate) fn is_image(
    alloc: Global,
    case: &str,
    image: Image,
    items: &[&str],
    commands: &[&str],
) -> Result<(), Fail> {
    let told = is_told(alloc, case, &image, items, commands);
    drop(image);
    told
}

fn is_told(
    alloc: Global,
    case: &str,
    image: &Image,
    items: &[&str],
    commands: &[&str],
) -> Result<(), Fail> {
    are_items(alloc, case, image.items.all(), items)?;
    are_commands(alloc, case, image.script.as_slice(), commands)?;
    match image.items.all().last() {
        Some(item) => are_bytes_of(alloc, case, item.bytes.as_slice(), commands),
        None => Err(Fail::from("an image without items")),
    }
}

fn are_bytes_of(alloc: Global, case: &str, bytes: &[u8], commands: &[&str]) -> Result<(), Fail> {
    is_same(
        case,
        "bytes of the script",
        &bytes.len(),
        &commands.len().saturating_mul(128),
    )?;
    let script = decode_script(alloc, bytes)?;
    are_commands(alloc, case, script.as_slice(), commands)
}

fn are_items(alloc: Global, case: &str, items: &[Item], rows: &[&str]) -> Result<(), Fail> {
    if items.len() != rows.len() {
        return is_same(case, "number of items", &items.len(), &rows.len());
    }
    for place in 0..rows.len() {
        is_item(alloc, case, &items[place], rows[place])?;
    }
    Ok(())
}

fn is_item(alloc: Global, case: &str, item: &Item, row: &str) -> Result<(), Fail> {
    let told = told_item(alloc, item)?;
    is_same(case, "item", &told.as_str(), &row)
}

fn are_commands(alloc: Global, case: &str, script: &[Entry], rows: &[&str]) -> Result<(), Fail> {
    if script.len() != rows.len() {
        return is_same(case, "number of commands", &script.len(), &rows.len());
    }
    for place in 0..rows.len() {
        is_command(alloc, case, &script[place], rows[place])?;
    }
    Ok(())
}

fn is_command(alloc: Global, case: &str, entry: &Entry, row: &str) -> Result<(), Fail> {
    let told = told_command(alloc, entry)?;
    is_same(case, "command", &told.as_str(), &row)
}

// The selector of an item in hexadecimal digits, its name, whether it can be written, and its size.
fn told_item(alloc: Global, item: &Item) -> Result<String, AllocError> {
    let field = item.name.bytes();
    let (select, name, size) = (item.select, text_in(&field), item.bytes.len());
    let access = if item.writable { "written" } else { "read" };
    format!(in alloc; "{select:x} {name} {access} {size}")
}

// A command in words: its files, and then its numbers in the order of its fields.
fn told_command(alloc: Global, entry: &Entry) -> Result<String, AllocError> {
    match entry {
        Entry::Allocate { file, align, zone } => {
            told_of_one(alloc, "place", file, (*align, *zone as u32, None))
        }
        Entry::AddChecksum {
            file,
            offset,
            start,
            length,
        } => told_of_one(alloc, "sum", file, (*offset, *start, Some(*length))),
        Entry::AddPointer {
            dest,
            src,
            offset,
            size,
        } => told_of_two(alloc, "point", (dest, src), (*offset, *size as u32, None)),
        Entry::WritePointer {
            dest,
            src,
            dst_offset,
            src_offset,
            size,
        } => told_of_two(
            alloc,
            "write",
            (dest, src),
            (*dst_offset, *src_offset, Some(*size as u32)),
        ),
        Entry::Misnamed(number) => told_of_none(alloc, "misnamed", *number),
        Entry::Skipped(number) => told_of_none(alloc, "skipped", *number),
    }
}

fn told_of_none(alloc: Global, verb: &str, number: u32) -> Result<String, AllocError> {
    format!(in alloc; "{verb} {number}")
}

fn told_of_one(
    alloc: Global,
    verb: &str,
    file: &Name,
    numbers: (u32, u32, Option<u32>),
) -> Result<String, AllocError> {
    let field = file.bytes();
    let file = text_in(&field);
    match numbers {
        (first, second, Some(third)) => told_of_three(alloc, verb, file, (first, second, third)),
        (first, second, None) => format!(in alloc; "{verb} {file} {first} {second}"),
    }
}

fn told_of_three(
    alloc: Global,
    verb: &str,
    file: &str,
    (first, second, third): (u32, u32, u32),
) -> Result<String, AllocError> {
    format!(in alloc; "{verb} {file} {first} {second} {third}")
}

fn told_of_two(
    alloc: Global,
    verb: &str,
    files: (&Name, &Name),
    numbers: (u32, u32, Option<u32>),
) -> Result<String, AllocError> {
    let field = files.1.bytes();
    let src = text_in(&field);
    let dest = told_of_one(alloc, verb, files.0, numbers)?;
    format!(in alloc; "{dest} to {src}")
}

// The text in a field, which ends at its first NUL.
fn text_in(field: &[u8; 56]) -> &str {
    let count = field
        .iter()
        .position(|byte| *byte == 0)
        .unwrap_or(field.len());
    str::from_utf8(&field[..count]).unwrap_or("not UTF-8")
}
