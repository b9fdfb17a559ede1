//! The parts that structures tell, whatever their kind.

ghost use Rattle.std.specs.Prelude.{◌≡◌, ◌++◌, Option as Maybe, IfOk, OnOk, slice_get};
ghost use Rattle.std.specs.Option.{option_to_list};
ghost use Rattle.smbios_model.specs.declared.smbios.Body.{Body as ABody};
ghost use Rattle.smbios_model.specs.ToldParts.{all_told};

use smbios_model::{Body, Structure};
use std::alloc::Global;
use vt_outside::{List, OutOfMemory};

// A part of a machine that structures of one type tell.
pub(crate) trait Told: Drop {
    // The part that a body tells, where it is of the type.
    ghost told: { ABody → Maybe Self };

    // Makes the part that `body` tells. A list in it takes its memory from `alloc`, and each copy of a text from that text's allocator.
    fn from_body(alloc: Global, body: &Body) -> Result<Option<Self>, OutOfMemory>
        ensures { IfOk result (λ part. part ≡ told body.now) };
}

// All parts of a kind that `structures` tell, in order.
pub(crate) fn all_told<T: Told>(
    alloc: Global,
    structures: &[Structure],
) -> Result<List<T>, OutOfMemory>
    ensures { IfOk result (λ parts. parts ≡ all_told T.told structures.now) }
{
    let mut parts = List::new(alloc);
    for structure in structures {
        push_told(alloc, &mut parts, &structure.body)?;
    }
    Ok(parts)
}

fn push_told<T: Told>(alloc: Global, parts: &mut List<T>, body: &Body) -> Result<(), OutOfMemory>
    ensures { OnOk result (parts.new ≡ parts.old ++ option_to_list (T.told body.now)) }
{
    match T::from_body(alloc, body)? {
        Some(part) => parts.push(part),
        None => Ok(()),
    }
}

// The first part of a kind that `structures` tell. No other one is made.
pub(crate) fn first_told<T: Told>(
    alloc: Global,
    structures: &[Structure],
) -> Result<Option<T>, OutOfMemory>
    ensures { IfOk result (λ part. part ≡ slice_get (all_told T.told structures.now) 0) }
{
    for structure in structures {
        if let Some(part) = T::from_body(alloc, &structure.body)? {
            return Ok(Some(part));
        }
    }
    Ok(None)
}
