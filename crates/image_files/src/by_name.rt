//! Files in the order of their names.

ghost use Rattle.std.specs.Prelude.{◌≡◌, ◌≤◌, length, OnOk, IfOk};
ghost use Rattle.std.specs.List.{position_or_len};
ghost use Rattle.image_files.specs.Files.{is_not_behind, among, by_name};

use crate::file::ImageFile;
use std::alloc::Global;
use vt_outside::{Name, OutOfMemory};

// The files in the order of their names.
pub(crate) fn by_name(
    alloc: Global,
    mut files: Vec<ImageFile>,
) -> Result<Vec<ImageFile>, OutOfMemory>
    ensures { IfOk result (λ sorted. sorted.items ≡ by_name files.items) }
{
    let mut sorted = Vec::with_capacity(alloc, files.len())?;
    while let Some(file) = files.pop() {
        put_among(&mut sorted, file)?;
    }
    Ok(sorted)
}

// Puts a file in front of the first one whose name it isn't behind.
pub(crate) fn put_among(files: &mut Vec<ImageFile>, file: ImageFile) -> Result<(), OutOfMemory>
    ensures { OnOk result (files.new.items ≡ among file files.old.items) }
{
    let name = file.name;
    let place = place_among(files.as_slice(), name);
    files.insert(place, file)?;
    Ok(())
}

// How many files stand in front of the first one whose name this one isn't behind.
fn place_among(files: &[ImageFile], name: Name) -> usize
    ensures within { result ≤ length files.now }
    ensures first { result ≡ position_or_len (λ other. is_not_behind name other.name) files.now }
{
    files
        .iter()
        .position(|other| is_not_behind(&name, &other.name))
        .unwrap_or(files.len())
}

// Whether a name isn't behind another one, by their bytes. The zeros behind it in its field change nothing, since no name has a zero byte.
fn is_not_behind(name: &Name, other: &Name) -> bool
    ensures { result ≡ is_not_behind name.now other.now }
{
    name.bytes().cmp(&other.bytes()).is_le()
}
