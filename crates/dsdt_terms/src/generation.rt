//! The device that leads to the id of a machine's generation.

ghost use Rattle.std.specs.Prelude.{◌≡◌, [], ◌∷◌, ◌++◌, codes, IfOk, OnOk};
ghost use Rattle.aml_terms.specs.declared.term.Term.TheVariants.{Int, Package};
ghost use Rattle.dsdt_terms.specs.Names.{name};
ghost use Rattle.dsdt_terms.specs.Devices.{generation_device};
ghost use Rattle.dsdt_terms.specs.IdLink.{low_half};

use crate::names::{device, push_name, push_text};
use aml_terms::Term;
use std::alloc::Global;
use vt_outside::{List, OutOfMemory};

/// How many bytes from the start of its file the id of a generation is.
pub const ID_OFFSET: u32 = 40;

// What the device tells as the low half of the id's address.
#[derive(Clone, Copy)]
pub(crate) enum IdLink {
    // The offset in its file, in a dword to which the place of the file is to be added.
    Written,
    // Nothing.
    Kept,
}

// The device, with the low half of the address.
pub(crate) fn generation_device(alloc: Global, link: IdLink) -> Result<Term, OutOfMemory>
    ensures { IfOk result (λ term. term ≡ generation_device (low_half link)) }
{
    let mut values = List::new(alloc);
    push_text(&mut values, *b"_HID", b"QEMUVGID")?;
    push_text(&mut values, *b"_CID", b"VM_Gen_Counter")?;
    push_address(&mut values, link)?;
    device(alloc, *b"VGEN", values)
}

// Adds the package of both halves.
fn push_address(values: &mut List<Term>, link: IdLink) -> Result<(), OutOfMemory>
    ensures { OnOk result (values.new ≡ values.old ++ name (codes "ADDR") (Package (low_half link ∷ Int 0 ∷ [])) ∷ []) }
{
    let mut halves = List::new(values.allocator());
    halves.push(low_half(link))?;
    halves.push(Term::Int(0))?;
    push_name(values, *b"ADDR", Term::Package(halves))
}

fn low_half(link: IdLink) -> Term
    ensures { result ≡ low_half link }
{
    match link {
        IdLink::Written => Term::Fixed(ID_OFFSET),
        IdLink::Kept => Term::Int(0),
    }
}
