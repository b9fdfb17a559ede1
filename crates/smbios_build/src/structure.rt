ghost use Rattle.std.specs.Prelude.{◌≡◌, ◌≤◌, ◌+◌, ◌∷◌, ◌++◌, length, map, OnOk};
ghost use Rattle.std.specs.List.{AllByRecursion};
ghost use Rattle.vt_bytes.specs.Numbers.{le_bytes};
ghost use Rattle.vt_layout.specs.Rows.{IsRow, size, spelled};
ghost use Rattle.vt_layout.specs.Strings.{HasNoNul, IsString, strings_of, string_set};
ghost use Rattle.vt_layout.specs.Fields.{field_rows, field_texts};
ghost use Rattle.smbios_model.specs.Structures.{number_of, layout_of};
ghost use Rattle.smbios_model.specs.Smbios.{formatted};
ghost use Rattle.smbios_build.specs.Buildable.{IsBuildable, IsPut, IsPutAs};

use crate::string_set::{set_of, set_of_texts};
use smbios_model::{
    ARRAY_TYPE, BIOS_TYPE, BOOT_TYPE, Body, CHASSIS_TYPE, DEVICE_TYPE, END_TYPE, MAPPED_TYPE,
    OEM_STRINGS_TYPE, PROCESSOR_TYPE, SLOT_TYPE, SYSTEM_TYPE, Structure,
};
use std::alloc::Global;
use vt_layout::{Laid, Row, put_rows, rows_of, size_of};
use vt_outside::{Bytes, OutOfMemory, Text};

/// Appends the bytes of `structure`, which can be built, to `bytes`. Its rows and the set of its strings take memory from `alloc`
/// meanwhile. Returns `OutOfMemory` when memory runs out; what `bytes` then holds is unspecified.
pub(crate) fn put_structure(
    alloc: Global,
    bytes: &mut Bytes,
    structure: &Structure,
) -> Result<(), OutOfMemory>
    requires { IsBuildable structure.now.body }
    ensures { OnOk result (IsPut structure.now bytes.old bytes.new) }
{
    put_body(alloc, bytes, structure.handle, &structure.body)
}

// Appends a structure with this handle that says this.
fn put_body(alloc: Global, bytes: &mut Bytes, handle: u16, body: &Body) -> Result<(), OutOfMemory>
    requires { IsBuildable body.now }
    ensures { OnOk result (IsPutAs (number_of body.now) handle (layout_of body.now).rows (layout_of body.now).texts bytes.old bytes.new) }
{
    match body {
        Body::Bios(info) => put_record(alloc, bytes, BIOS_TYPE, handle, info),
        Body::System(info) => put_record(alloc, bytes, SYSTEM_TYPE, handle, info),
        Body::Chassis(info) => put_record(alloc, bytes, CHASSIS_TYPE, handle, info),
        Body::Processor(info) => put_record(alloc, bytes, PROCESSOR_TYPE, handle, info),
        Body::Slot(info) => put_record(alloc, bytes, SLOT_TYPE, handle, info),
        Body::OemStrings(texts) => put_raw(
            alloc,
            bytes,
            OEM_STRINGS_TYPE,
            handle,
            &[texts.len() as u8],
            texts.as_slice(),
        ),
        Body::Array(info) => put_record(alloc, bytes, ARRAY_TYPE, handle, info),
        Body::Device(info) => put_record(alloc, bytes, DEVICE_TYPE, handle, info),
        Body::Mapped(info) => put_record(alloc, bytes, MAPPED_TYPE, handle, info),
        Body::Boot(info) => put_record(alloc, bytes, BOOT_TYPE, handle, info),
        Body::End => put_raw(alloc, bytes, END_TYPE, handle, &[], &[]),
        Body::Raw {
            kind,
            area,
            strings,
        } => put_raw(
            alloc,
            bytes,
            *kind,
            handle,
            area.as_slice(),
            strings.as_slice(),
        ),
    }
}

// Appends a structure of the type `number` that says what `info` does.
fn put_record<T: Laid>(
    alloc: Global,
    bytes: &mut Bytes,
    number: u8,
    handle: u16,
    info: &T,
) -> Result<(), OutOfMemory>
    requires short { size (field_rows (T.fields info.now)) ≤ 251 }
    requires no_nuls { AllByRecursion HasNoNul (field_texts (T.fields info.now)) }
    ensures { OnOk result (IsPutAs number handle (field_rows (T.fields info.now)) (field_texts (T.fields info.now)) bytes.old bytes.new) }
{
    let rows = rows_of(alloc, info)?;
    put_rows_and_strings(alloc, bytes, number, handle, rows.rows(), rows.texts())
}

// Appends a structure of the type `number` whose area has these rows, and whose strings are those of these texts that aren't empty.
fn put_rows_and_strings(
    alloc: Global,
    bytes: &mut Bytes,
    number: u8,
    handle: u16,
    rows: &[Row],
    texts: &[&Text],
) -> Result<(), OutOfMemory>
    requires fit { AllByRecursion IsRow rows.now }
    requires short { size rows.now ≤ 251 }
    requires few { length texts.now ≤ 255 }
    requires no_nuls { AllByRecursion HasNoNul (map (λ text. text.now) texts.now) }
    ensures { OnOk result (bytes.new
        ≡ bytes.old ++ (formatted number handle (spelled rows.now) ++ string_set (strings_of (map (λ text. text.now) texts.now)))) }
{
    let set = set_of_texts(alloc, texts)?;
    put_header(bytes, number, size_of(rows) as u8, handle)?;
    put_rows(bytes, rows)?;
    set.put_after(bytes)
}

// Appends a structure of the type `number` with this area and these strings.
fn put_raw(
    alloc: Global,
    bytes: &mut Bytes,
    number: u8,
    handle: u16,
    area: &[u8],
    strings: &[Text],
) -> Result<(), OutOfMemory>
    requires short { length area.now ≤ 251 }
    requires few { length strings.now ≤ 255 }
    requires texts { AllByRecursion IsString strings.now }
    ensures { OnOk result (bytes.new ≡ bytes.old ++ formatted number handle area.now ++ string_set strings.now) }
{
    let set = set_of(alloc, strings)?;
    put_header(bytes, number, area.len() as u8, handle)?;
    bytes.extend(area)?;
    set.put_after(bytes)
}

// Appends a structure's header (6.1.2): its type, its length, of which `size` bytes follow the header, and its handle.
fn put_header(bytes: &mut Bytes, number: u8, size: u8, handle: u16) -> Result<(), OutOfMemory>
    requires { size ≤ 251 }
    ensures { OnOk result (bytes.new ≡ bytes.old ++ number ∷ (4 + size) ∷ le_bytes 2 handle) }
{
    let [low, high] = handle.to_le_bytes();
    bytes.extend(&[number, 4 + size, low, high])
}
