//! How many bytes an image has, counted before memory is taken.

ghost use Rattle.std.specs.Prelude.{◌≡◌, ◌+◌, min, sum_by};
ghost use Rattle.image_files.specs.Script.{allocation, add_pointers, add_checksums};
ghost use Rattle.image_files.specs.Items.{size_of_commands, size_with_commands};

use crate::file::ImageFile;
use crate::script::{place_command, pointer_command, sum_command};
use loader_script::{Entry, entry_size};

/// Counts the bytes of the image of `files`, whose script goes on with the commands `later`: those of the files, and of the script's.
/// Returns the greatest `usize` when there are more bytes than that.
pub(crate) fn image_size(files: &[ImageFile], later: &[Entry]) -> usize
    ensures { result ≡ min (sum_by size_with_commands files.now + size_of_commands later.now) usize.MAX }
{
    files_size(files).saturating_add(commands_size(later))
}

fn files_size(files: &[ImageFile]) -> usize
    ensures { result ≡ min (sum_by size_with_commands files.now) usize.MAX }
{
    let mut total = 0usize;
    for file in files {
        total = total.saturating_add(file_size(file));
    }
    total
}

// Counts the bytes of a file, and of the commands that place it and fill its holes.
fn file_size(file: &ImageFile) -> usize
    ensures { result ≡ min (size_with_commands file.now) usize.MAX }
{
    file.parts
        .bytes
        .len()
        .saturating_add(allocation_size(file))
        .saturating_add(pointers_size(file))
        .saturating_add(sums_size(file))
}

fn allocation_size(file: &ImageFile) -> usize
    ensures { result ≡ size_of_commands (allocation file.now) }
{
    match file.placing {
        Some(placing) => entry_size(&place_command(file.name, placing)),
        None => 0,
    }
}

fn pointers_size(file: &ImageFile) -> usize
    ensures { result ≡ min (size_of_commands (add_pointers file.now)) usize.MAX }
{
    let mut total = 0usize;
    for hole in file.parts.pointers.as_slice() {
        total = total.saturating_add(entry_size(&pointer_command(file.name, hole)));
    }
    total
}

fn sums_size(file: &ImageFile) -> usize
    ensures { result ≡ min (size_of_commands (add_checksums file.now)) usize.MAX }
{
    let mut total = 0usize;
    for hole in file.parts.sums.as_slice() {
        total = total.saturating_add(entry_size(&sum_command(file.name, hole)));
    }
    total
}

fn commands_size(commands: &[Entry]) -> usize
    ensures { result ≡ min (size_of_commands commands.now) usize.MAX }
{
    let mut total = 0usize;
    for command in commands {
        total = total.saturating_add(entry_size(command));
    }
    total
}
