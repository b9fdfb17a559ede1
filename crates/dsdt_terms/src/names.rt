//! A device as a name and named values.

ghost use Rattle.std.specs.Prelude.{◌≡◌, [], ◌∷◌, ◌++◌, IfOk, OnOk};
ghost use Rattle.aml_terms.specs.declared.term.Term.TheVariants.{Int, Chars};
ghost use Rattle.dsdt_terms.specs.Names.{path_to, name, device, hardware_id, compatible_id, unique_id, resources};

use aml_terms::{Path, Term};
use resource_items::{ResourceItem, resource_template};
use std::alloc::Global;
use vt_outside::{Boxed, List, OutOfMemory, Text};

// Ids in EISA form (ACPI 6.5, 6.1.5): three letters of 5 bits, then four hexadecimal digits, with its high byte first.
pub(crate) const PCI_BRIDGE: u32 = 0x030A_D041;

pub(crate) const PCI_EXPRESS_BRIDGE: u32 = 0x080A_D041;

pub(crate) const SERIAL_PORT: u32 = 0x0105_D041;

pub(crate) const REAL_TIME_CLOCK: u32 = 0x000B_D041;

pub(crate) const KEYBOARD_CONTROLLER: u32 = 0x0303_D041;

pub(crate) const EVENT_TIMER: u32 = 0x0301_D041;

// The path to what stands beside it.
fn path_to(alloc: Global, segment: [u8; 4]) -> Result<Path, OutOfMemory>
    ensures { IfOk result (λ path. path ≡ path_to segment) }
{
    let mut segments = List::new(alloc);
    segments.push(segment)?;
    Ok(Path {
        root: false,
        parents: 0,
        segments,
    })
}

// The device with this name and these named values.
pub(crate) fn device(
    alloc: Global,
    segment: [u8; 4],
    values: List<Term>,
) -> Result<Term, OutOfMemory>
    ensures { IfOk result (λ term. term ≡ device segment values) }
{
    match path_to(alloc, segment) {
        Ok(path) => Ok(Term::Device(path, values)),
        Err(error) => {
            drop(values);
            Err(error)
        }
    }
}

// Adds a value with a name to others.
pub(crate) fn push_name(
    values: &mut List<Term>,
    segment: [u8; 4],
    value: Term,
) -> Result<(), OutOfMemory>
    ensures { OnOk result (values.new ≡ values.old ++ name segment value ∷ []) }
{
    let alloc = values.allocator();
    let value = Boxed::new(alloc, value)?;
    let path = path_to(alloc, segment)?;
    values.push(Term::Named(path, value))
}

// Adds a text with a name to others. Its bytes are 01 to 7F.
pub(crate) fn push_text(
    values: &mut List<Term>,
    segment: [u8; 4],
    text: &[u8],
) -> Result<(), OutOfMemory>
    ensures { OnOk result (values.new ≡ values.old ++ name segment (Chars text.now) ∷ []) }
{
    let mut chars = Text::new(values.allocator());
    chars.extend(text)?;
    push_name(values, segment, Term::Chars(chars))
}

// Adds the id that says what a device is.
pub(crate) fn push_hardware_id(values: &mut List<Term>, id: u32) -> Result<(), OutOfMemory>
    ensures { OnOk result (values.new ≡ values.old ++ hardware_id id ∷ []) }
{
    push_name(values, *b"_HID", Term::Int(u64::from(id)))
}

// Adds the id of what it is compatible with.
pub(crate) fn push_compatible_id(values: &mut List<Term>, id: u32) -> Result<(), OutOfMemory>
    ensures { OnOk result (values.new ≡ values.old ++ compatible_id id ∷ []) }
{
    push_name(values, *b"_CID", Term::Int(u64::from(id)))
}

// Adds its number among the devices with its id.
pub(crate) fn push_unique_id(values: &mut List<Term>, number: u64) -> Result<(), OutOfMemory>
    ensures { OnOk result (values.new ≡ values.old ++ unique_id number ∷ []) }
{
    push_name(values, *b"_UID", Term::Int(number))
}

// Adds what it takes and hands on.
pub(crate) fn push_resources(
    values: &mut List<Term>,
    items: &[ResourceItem],
) -> Result<(), OutOfMemory>
    ensures { OnOk result (values.new ≡ values.old ++ resources items.now ∷ []) }
{
    let template = resource_template(values.allocator(), items)?;
    push_name(values, *b"_CRS", Term::Buffer(template))
}
