//! The commands that place and link files.

ghost use Rattle.std.specs.Prelude.{◌≡◌, ◌++◌, [], ◌∷◌, map, OnOk};
ghost use Rattle.std.specs.List.{flat_map};
ghost use Rattle.image_files.specs.Script.{place_command, allocation, add_pointer, add_pointers, add_checksum, add_checksums};

use crate::file::{ImageFile, Placing};
use blob_holes::{PointerHole, SumHole};
use loader_script::Entry;
use vt_outside::{List, Name, OutOfMemory};

// Adds the command that places each file for which a place is asked.
pub(crate) fn push_allocations(
    script: &mut List<Entry>,
    files: &[ImageFile],
) -> Result<(), OutOfMemory>
    ensures { OnOk result (script.new ≡ script.old ++ flat_map allocation files.now) }
{
    for file in files {
        push_allocation(script, file)?;
    }
    Ok(())
}

fn push_allocation(script: &mut List<Entry>, file: &ImageFile) -> Result<(), OutOfMemory>
    ensures { OnOk result (script.new ≡ script.old ++ allocation file.now) }
{
    match file.placing {
        Some(placing) => script.push(place_command(file.name, placing)),
        None => Ok(()),
    }
}

// Adds a command for each pointer of each file, in their order.
pub(crate) fn push_pointers(
    script: &mut List<Entry>,
    files: &[ImageFile],
) -> Result<(), OutOfMemory>
    ensures { OnOk result (script.new ≡ script.old ++ flat_map add_pointers files.now) }
{
    for file in files {
        push_pointers_of(script, file)?;
    }
    Ok(())
}

fn push_pointers_of(script: &mut List<Entry>, file: &ImageFile) -> Result<(), OutOfMemory>
    ensures { OnOk result (script.new ≡ script.old ++ add_pointers file.now) }
{
    for hole in file.parts.pointers.as_slice() {
        script.push(pointer_command(file.name, hole))?;
    }
    Ok(())
}

// Adds a command for each sum of each file, in their order.
pub(crate) fn push_checksums(
    script: &mut List<Entry>,
    files: &[ImageFile],
) -> Result<(), OutOfMemory>
    ensures { OnOk result (script.new ≡ script.old ++ flat_map add_checksums files.now) }
{
    for file in files {
        push_checksums_of(script, file)?;
    }
    Ok(())
}

fn push_checksums_of(script: &mut List<Entry>, file: &ImageFile) -> Result<(), OutOfMemory>
    ensures { OnOk result (script.new ≡ script.old ++ add_checksums file.now) }
{
    for hole in file.parts.sums.as_slice() {
        script.push(sum_command(file.name, hole))?;
    }
    Ok(())
}

/// Returns the command that places the file `name` where `placing` says.
pub(crate) fn place_command(name: Name, placing: Placing) -> Entry
    ensures { result ≡ place_command name placing }
{
    Entry::Allocate {
        file: name,
        align: placing.align,
        zone: placing.zone.number(),
    }
}

/// Returns the command that fills the field of `hole`, which is in the file `name`.
pub(crate) fn pointer_command(name: Name, hole: &PointerHole) -> Entry
    ensures { result ≡ add_pointer name hole.now }
{
    Entry::AddPointer {
        dest: name,
        src: hole.target,
        offset: hole.at,
        size: hole.size,
    }
}

/// Returns the command that fills the byte of `hole`, which is in the file `name`.
pub(crate) fn sum_command(name: Name, hole: &SumHole) -> Entry
    ensures { result ≡ add_checksum name hole.now }
{
    Entry::AddChecksum {
        file: name,
        offset: hole.at,
        start: hole.start,
        length: hole.length,
    }
}
