ghost use Rattle.std.specs.Prelude.{◌≡◌, ◌↔◌, IsTrue, IfOk};

use crate::records::are_same_records;
use crate::same::are_all_same;
use smbios_model::{Body, Structure};
use std::alloc::Global;
use vt_outside::OutOfMemory;

/// Tells whether two lists of structures are equal: as long as one another, and structure by structure, up to the first that differs. Memory
/// for the rows of two structures at a time is taken from `alloc`. Returns `OutOfMemory` when memory runs out.
pub(crate) fn are_same_structures(
    alloc: Global,
    left: &[Structure],
    right: &[Structure],
) -> Result<bool, OutOfMemory>
    ensures { IfOk result (λ same. IsTrue same ↔ (left.now ≡ right.now)) }
{
    if left.len() != right.len() {
        return Ok(false);
    }
    for (at, structure) in left.iter().enumerate() {
        if !is_same_structure(alloc, structure, &right[at])? {
            return Ok(false);
        }
    }
    Ok(true)
}

// Whether two structures have one handle and say the same.
fn is_same_structure(
    alloc: Global,
    left: &Structure,
    right: &Structure,
) -> Result<bool, OutOfMemory>
    ensures { IfOk result (λ same. IsTrue same ↔ (left.now ≡ right.now)) }
{
    if left.handle != right.handle {
        return Ok(false);
    }
    is_same_body(alloc, &left.body, &right.body)
}

// Whether two structures say the same.
fn is_same_body(alloc: Global, left: &Body, right: &Body) -> Result<bool, OutOfMemory>
    ensures { IfOk result (λ same. IsTrue same ↔ (left.now ≡ right.now)) }
{
    match (left, right) {
        (Body::Bios(left), Body::Bios(right)) => are_same_records(alloc, left, right),
        (Body::System(left), Body::System(right)) => are_same_records(alloc, left, right),
        (Body::Chassis(left), Body::Chassis(right)) => are_same_records(alloc, left, right),
        (Body::Processor(left), Body::Processor(right)) => are_same_records(alloc, left, right),
        (Body::Slot(left), Body::Slot(right)) => are_same_records(alloc, left, right),
        (Body::Device(left), Body::Device(right)) => are_same_records(alloc, left, right),
        (Body::OemStrings(left), Body::OemStrings(right)) => Ok(are_all_same(
            left.as_slice(),
            right.as_slice(),
        )),
        (Body::Array(left), Body::Array(right)) => Ok(left == right),
        (Body::Mapped(left), Body::Mapped(right)) => Ok(left == right),
        (Body::Boot(left), Body::Boot(right)) => Ok(left == right),
        (Body::End, Body::End) => Ok(true),
        (
            Body::Raw {
                kind,
                area,
                strings,
            },
            Body::Raw {
                kind: other_kind,
                area: other_area,
                strings: other_strings,
            },
        ) => Ok(
            kind == other_kind
                && area.as_slice() == other_area.as_slice()
                && are_all_same(strings.as_slice(), other_strings.as_slice()),
        ),
        _ => Ok(false),
    }
}
