ghost use Rattle.std.specs.Prelude.{◌≡◌, ◌/◌, true, length, IfOk};
ghost use Rattle.std.specs.List.{position};
ghost use Rattle.cfg_directory.specs.SmbiosNames.{anchor_name, structures_name};
ghost use Rattle.loader_script.specs.declared.entry.Entry.TheVariants.{Allocate, AddPointer, AddChecksum};
ghost use Rattle.loader_script.specs.Spelling.{entries_of, entry_of, is_script_length};
ghost use Rattle.smbios_install.specs.Forms.{pointer_place, pointer_size};
ghost use Rattle.smbios_install.specs.Commands.{added_bytes, placing, places_either};

use crate::anchor::{pointer_place, pointer_size};
use cfg_directory::{anchor_name, structures_name};
use loader_script::{ENTRY_BYTES, Entry, decode_entry, encode_script};
use smbios_model::AnchorForm;
use std::alloc::Global;
use vt_outside::{Bytes, OutOfMemory};

// How many bytes a place for either file is a multiple of, and the zones: 1 is high memory, and 2 the F segment.
const ALIGN: u32 = 16;

const HIGH: u8 = 1;

const F_SEGMENT: u8 = 2;

/// Returns the bytes of the commands that install structures with an anchor of the form `form`, in memory from `alloc`.
pub(crate) fn added_bytes(alloc: Global, form: AnchorForm) -> Result<Bytes, OutOfMemory>
    ensures { IfOk result (λ bytes. bytes ≡ added_bytes form) }
{
    match form {
        AnchorForm::Smbios3 => encode_script(
            alloc,
            &[
                structures_allocate(),
                anchor_allocate(),
                anchor_pointer(form),
                anchor_sum(5, 0, 24),
            ],
        ),
        // The second sum covers the byte that the first one sets.
        AnchorForm::Smbios2 => encode_script(
            alloc,
            &[
                structures_allocate(),
                anchor_allocate(),
                anchor_pointer(form),
                anchor_sum(0x15, 0x10, 15),
                anchor_sum(4, 0, 31),
            ],
        ),
    }
}

fn structures_allocate() -> Entry
    ensures { result ≡ Allocate structures_name 16 1 }
{
    Entry::Allocate {
        file: structures_name(),
        align: ALIGN,
        zone: HIGH,
    }
}

fn anchor_allocate() -> Entry
    ensures { result ≡ Allocate anchor_name 16 2 }
{
    Entry::Allocate {
        file: anchor_name(),
        align: ALIGN,
        zone: F_SEGMENT,
    }
}

fn anchor_pointer(form: AnchorForm) -> Entry
    ensures { result ≡ AddPointer anchor_name structures_name (pointer_place form) (pointer_size form) }
{
    Entry::AddPointer {
        dest: anchor_name(),
        src: structures_name(),
        offset: pointer_place(form),
        size: pointer_size(form),
    }
}

// The sum of so many bytes of the anchor from a start on, in the byte at an offset.
fn anchor_sum(offset: u32, start: u32, length: u32) -> Entry
    ensures { result ≡ AddChecksum anchor_name offset start length }
{
    Entry::AddChecksum {
        file: anchor_name(),
        offset,
        start,
        length,
    }
}

/// Returns the index of the first command of `script` that takes a place for one of the two files, or `None`. The length of `script` must be
/// a script's.
pub(crate) fn placing(script: &[u8]) -> Option<u32>
    requires { is_script_length (length script.now) ≡ true }
    ensures { result ≡ placing (entries_of (length script.now / 128) script.now) }
{
    let (entries, _rest) = script.as_chunks::<ENTRY_BYTES>();
    match placing_among(entries) {
        Some(index) => Some(index as u32),
        None => None,
    }
}

// The index of the first of these entries that does.
fn placing_among(entries: &[[u8; ENTRY_BYTES]]) -> Option<usize>
    ensures { result ≡ position (λ entry. places_either (entry_of entry)) entries.now }
{
    entries.iter().position(
        |entry|
            ensures { result ≡ places_either (entry_of entry.now) }
        { places_either(&decode_entry(entry)) },
    )
}

fn places_either(entry: &Entry) -> bool
    ensures { result ≡ places_either entry.now }
{
    match entry {
        Entry::Allocate { file, .. } => *file == anchor_name() || *file == structures_name(),
        _ => false,
    }
}
