ghost use Rattle.std.specs.Prelude.{◌≡◌, IfOk};
ghost use Rattle.smbios_model.specs.ToldParts.{texts_told, oem_strings_in};

use crate::told::{Told, first_told};
use smbios_model::{Body, Structure, copies_of};
use std::alloc::Global;
use vt_outside::{List, OutOfMemory, Text};

impl Told for List<Text> {
    ghost told = { texts_told };

    fn from_body(alloc: Global, body: &Body) -> Result<Option<List<Text>>, OutOfMemory> {
        match body {
            Body::OemStrings(texts) => Ok(Some(copies_of(alloc, texts.as_slice())?)),
            _ => Ok(None),
        }
    }
}

// The texts of the first OEM Strings (DSP0134 7.12) among `structures`, or none where there are none.
pub(crate) fn oem_strings_in(
    alloc: Global,
    structures: &[Structure],
) -> Result<List<Text>, OutOfMemory>
    ensures { IfOk result (λ texts. texts ≡ oem_strings_in structures.now) }
{
    match first_told(alloc, structures)? {
        Some(texts) => Ok(texts),
        None => Ok(List::new(alloc)),
    }
}
