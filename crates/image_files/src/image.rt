ghost use Rattle.std.specs.Prelude.{◌≡◌, ◌++◌, ◌<◌, ◌≤◌, ◌↔◌, length, Err, IfOk, IfErr, OnOk};
ghost use Rattle.std.specs.List.{flat_map, AllByRecursion};
ghost use Rattle.loader_script.specs.Spelling.{CanBeWritten, Fits};
ghost use Rattle.cfg_directory.specs.Items.{total_size};
ghost use Rattle.image_files.specs.declared.image.ImageBuildFault.TheVariants.{ImageTooLarge, OutOfMemory as NoMemory};
ghost use Rattle.image_files.specs.Files.{by_name};
ghost use Rattle.image_files.specs.Script.{script_of, add_pointers};
ghost use Rattle.loader_script.specs.LoaderName.{loader_name};
ghost use Rattle.image_files.specs.Items.{AreSorted, items_of, image_limit, loader_file};
ghost use Rattle.image_files.specs.Linkable.{HasNoName, AreDistinct};

use crate::by_name::{by_name, put_among};
use crate::file::ImageFile;
use crate::items::items_of;
use crate::script::{push_allocations, push_checksums, push_pointers};
use crate::sizes::image_size;
use blob_holes::Parts;
use cfg_directory::Items;
use loader_script::{Entry, encode_script, loader_name};
use std::alloc::Global;
use vt_outside::{List, OutOfMemory};

// The most bytes that the files of an image may have in all.
const IMAGE_LIMIT: usize = 409_600;

/// What a firmware loads: the items of fw_cfg, and the script that one of them holds.
#[derive(Drop)]
pub struct Image {
    /// The files, and the script's file, in the order of their names.
    pub items: Items,
    /// The commands that `etc/table-loader` holds.
    pub script: List<Entry>,
}

/// Why an image isn't built.
#[derive(Clone, Copy, Debug, PartialEq, Eq)]
pub enum ImageBuildFault {
    /// The files, with that of the script, have more than 409,600 bytes in all.
    ImageTooLarge,
    /// Memory ran out.
    OutOfMemory,
}

impl From<OutOfMemory> for ImageBuildFault {
    ghost from_gives = { λ _ fault. fault ≡ NoMemory };

    fn from(_error: OutOfMemory) -> ImageBuildFault {
        ImageBuildFault::OutOfMemory
    }
}

/// Makes the image of `files`, in memory from `alloc`. Its script places them in their order, links them, and goes on with the
/// commands `later`, which hold no `Misnamed` and no `Skipped` of 1 to 4. There are fewer than 1,024 files, their names differ,
/// and none is `etc/table-loader`. Returns `ImageTooLarge` where they have, with the script's file, more than 409,600 bytes in
/// all, which are counted before memory is taken, and else `OutOfMemory` when memory runs out.
pub fn link(alloc: Global, files: Vec<ImageFile>, later: &[Entry]) -> Result<Image, ImageBuildFault>
    requires distinct { AreDistinct files.items }
    requires others { HasNoName files.items loader_name }
    requires few { length files.items < 1024 }
    requires later { AllByRecursion CanBeWritten later.now }
    ensures items { IfOk result (λ image. image.items ≡ items_of files.items later.now) }
    ensures script { IfOk result (λ image. image.script ≡ script_of files.items later.now) }
    ensures fits { IfOk result (λ image. AllByRecursion Fits image.script) }
    ensures small { OnOk result (total_size (items_of files.items later.now) ≤ image_limit) }
    ensures large { (result ≡ Err ImageTooLarge) ↔ (image_limit < total_size (items_of files.items later.now)) }
{
    if image_size(files.as_slice(), later) > IMAGE_LIMIT {
        return Err(ImageBuildFault::ImageTooLarge);
    }
    Ok(image_from(alloc, files, later)?)
}

// Makes the image of files that have few bytes in all.
fn image_from(alloc: Global, files: Vec<ImageFile>, later: &[Entry]) -> Result<Image, OutOfMemory>
    requires distinct { AreDistinct files.items }
    requires others { HasNoName files.items loader_name }
    requires few { length files.items < 1024 }
    requires later { AllByRecursion CanBeWritten later.now }
    requires small { total_size (items_of files.items later.now) ≤ image_limit }
    ensures items { IfOk result (λ image. image.items ≡ items_of files.items later.now) }
    ensures script { IfOk result (λ image. image.script ≡ script_of files.items later.now) }
    ensures fits { IfOk result (λ image. AllByRecursion Fits image.script) }
{
    let Arranged { sorted, script } = arrange_all(alloc, files, later)?;
    let items = items_of(alloc, sorted)?;
    Ok(Image { items, script })
}

// Files in the order of their names, and their script.
#[derive(Drop)]
struct Arranged {
    sorted: Vec<ImageFile>,
    script: List<Entry>,
}

// Sorts files and the file of their script by their names. The script goes on with the commands `later`.
fn arrange_all(
    alloc: Global,
    files: Vec<ImageFile>,
    later: &[Entry],
) -> Result<Arranged, OutOfMemory>
    requires { AllByRecursion CanBeWritten later.now }
    ensures sorted { IfOk result (λ arranged. AreSorted files.items later.now arranged.sorted.items) }
    ensures script { IfOk result (λ arranged. arranged.script ≡ script_of files.items later.now) }
    ensures fits { IfOk result (λ arranged. AllByRecursion Fits arranged.script) }
{
    let Arranged { mut sorted, script } = arrange(alloc, files, later)?;
    put_among(&mut sorted, loader_file(alloc, script.as_slice())?)?;
    Ok(Arranged { sorted, script })
}

// Sorts files by their names, and makes their script, which goes on with the commands `later`.
fn arrange(alloc: Global, files: Vec<ImageFile>, later: &[Entry]) -> Result<Arranged, OutOfMemory>
    ensures sorted { IfOk result (λ arranged. arranged.sorted.items ≡ by_name files.items) }
    ensures script { IfOk result (λ arranged. arranged.script ≡ script_of files.items later.now) }
{
    let mut script = List::new(alloc);
    push_allocations(&mut script, files.as_slice())?;
    let mut sums = List::new(alloc);
    push_checksums(&mut sums, files.as_slice())?;
    let sorted = by_name(alloc, files)?;
    push_links(&mut script, sorted.as_slice(), sums.as_slice(), later)?;
    Ok(Arranged { sorted, script })
}

// Adds the commands on the pointers of files in the order of their names, those on sums, and others.
fn push_links(
    script: &mut List<Entry>,
    sorted: &[ImageFile],
    sums: &[Entry],
    later: &[Entry],
) -> Result<(), OutOfMemory>
    ensures { OnOk result (script.new ≡ script.old ++ flat_map add_pointers sorted.now ++ sums.now ++ later.now) }
{
    push_pointers(script, sorted)?;
    script.extend(sums)?;
    script.extend(later)
}

// The file of a script, which is not placed.
fn loader_file(alloc: Global, script: &[Entry]) -> Result<ImageFile, OutOfMemory>
    requires { AllByRecursion CanBeWritten script.now }
    ensures file { IfOk result (λ file. file ≡ loader_file script.now) }
    ensures fits { OnOk result (AllByRecursion Fits script.now) }
{
    let bytes = encode_script(alloc, script)?;
    let parts = Parts {
        bytes,
        pointers: List::new(alloc),
        sums: List::new(alloc),
    };
    Ok(ImageFile::new(loader_name(), parts, None, false))
}
