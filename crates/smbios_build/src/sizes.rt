ghost use Rattle.std.specs.Prelude.{◌≡◌, ◌+◌, ◌≤◌, ◌==◌, min, max, length, if◌then◌else◌};
ghost use Rattle.std.specs.List.{AllByRecursion};
ghost use Rattle.vt_layout.specs.Strings.{HasNoNul, strings_of, with_nuls};
ghost use Rattle.vt_layout.specs.Fields.{field_rows, field_texts};
ghost use Rattle.smbios_build.specs.Spelling.{layout_bytes, structure_bytes, structures_bytes};
ghost use Rattle.smbios_build.specs.Buildable.{IsBuildable};

use smbios_model::{Body, Structure};
use std::alloc::Global;
use vt_layout::{Laid, record_size_of};
use vt_outside::Text;

/// Counts the bytes that `structures` have when they are built. Each of them can be built. Returns the greatest `usize` when
/// there are more bytes than that. No memory is taken from `alloc`.
pub(crate) fn structures_size(alloc: Global, structures: &[Structure]) -> usize
    requires { AllByRecursion (λ s. IsBuildable s.body) structures.now }
    ensures { result ≡ min (length (structures_bytes structures.now)) usize.MAX }
{
    let mut total = 0usize;
    for structure in structures {
        total = total.saturating_add(structure_size(alloc, structure));
    }
    total
}

fn structure_size(alloc: Global, structure: &Structure) -> usize
    requires { IsBuildable structure.now.body }
    ensures { result ≡ min (length (structure_bytes structure.now)) usize.MAX }
{
    match &structure.body {
        Body::Bios(info) => record_size(alloc, info),
        Body::System(info) => record_size(alloc, info),
        Body::Chassis(info) => record_size(alloc, info),
        Body::Processor(info) => record_size(alloc, info),
        Body::Slot(info) => record_size(alloc, info),
        Body::OemStrings(texts) => whole_size(1, strings_size(texts.as_slice())),
        Body::Array(info) => record_size(alloc, info),
        Body::Device(info) => record_size(alloc, info),
        Body::Mapped(info) => record_size(alloc, info),
        Body::Boot(info) => record_size(alloc, info),
        Body::End => whole_size(0, 0),
        Body::Raw { area, strings, .. } => whole_size(area.len(), strings_size(strings.as_slice())),
    }
}

// Counts a structure that says what `info` does. No memory is taken from `alloc`.
fn record_size<T: Laid>(alloc: Global, info: &T) -> usize
    requires { AllByRecursion HasNoNul (field_texts (T.fields info.now)) }
    ensures { result ≡ min (length (layout_bytes 0 0 (field_rows (T.fields info.now)) (field_texts (T.fields info.now)))) usize.MAX }
{
    let size = record_size_of(alloc, info);
    whole_size(size.area, size.strings)
}

// Counts a structure whose area has `area` bytes, and whose strings have so many with their NULs.
fn whole_size(area: usize, strings: usize) -> usize
    ensures { result ≡ min (4 + area + max 2 (strings + 1)) usize.MAX }
{
    strings
        .saturating_add(1)
        .max(2)
        .saturating_add(area)
        .saturating_add(4)
}

// Counts the strings of `texts` with their NULs.
fn strings_size(texts: &[Text]) -> usize
    ensures { result ≡ min (length (with_nuls (strings_of texts.now))) usize.MAX }
{
    let mut total = 0;
    for text in texts {
        total = with_text(total, text);
    }
    total
}

// Adds the bytes of `text` and its NUL to `total`, and nothing for the empty text, which is no string.
fn with_text(total: usize, text: &Text) -> usize
    ensures { result ≡ min (total + (if length text.now == 0 then 0 else length text.now + 1)) usize.MAX }
{
    if text.len() == 0 {
        return total;
    }
    total.saturating_add(text.len()).saturating_add(1)
}
