ghost use Rattle.std.specs.Prelude.{◌≡◌, ◌≤◌, true, Some, IfOk, string_bytes};
ghost use Rattle.toml.specs.Data.{members_depth, members_have_valid_dates};
ghost use Rattle.toml.specs.Parse.{parse_document};
ghost use Rattle.toml.specs.View.{table_view};
ghost use Rattle.machine_desc.specs.Rules.{IsAccepted};
ghost use Rattle.desc_toml.specs.Printed.{document_of};
ghost use Rattle.desc_toml.specs.Reading.{Reads};

use crate::schema::SCHEMA;
use crate::values::values_of;
use desc_schema::laws::{written_documents_are_shallow, written_documents_have_valid_dates};
use desc_schema::write_document;
use machine_desc::Machine;
use machine_desc::laws::numbers_of_a_machine_fit;
use std::alloc::Global;
use toml::Table;
use vt_outside::{Bytes, OutOfMemory};

/// Returns the root table of the document that describes `machine`, which is accepted. Each key of each part that the machine has
/// stands in it, also one that has its default, but for one of no value and for an empty array that may be left out. `alloc` is where
/// the table takes its memory from.
pub fn table_of(alloc: Global, machine: &Machine) -> Result<Table, OutOfMemory>
    requires { IsAccepted machine.now }
    ensures { IfOk result (λ table. table_view table ≡ document_of machine.now) }
{
    numbers_of_a_machine_fit(machine);
    let mut values = values_of(alloc, machine)?;
    write_document(alloc, SCHEMA, &mut values)
}

/// Returns the text of the document that describes `machine`, which is accepted, as UTF-8. `read_machine` makes the same machine of
/// it, unless memory runs out. `alloc` is where the text takes its memory from.
pub fn write_machine(alloc: Global, machine: &Machine) -> Result<Bytes, OutOfMemory>
    requires { IsAccepted machine.now }
    ensures document { IfOk result (λ bytes. parse_document bytes ≡ Some (document_of machine.now)) }
    ensures read { IfOk result (λ bytes. Reads bytes machine.now) }
{
    numbers_of_a_machine_fit(machine);
    written_documents_are_shallow();
    written_documents_have_valid_dates();
    let table = table_of(alloc, machine)?;
    let text = text_of(alloc, &table)?;
    bytes_of(alloc, text.as_str())
}

// The text of a document that can be printed, and that isn't too deep for a reader.
fn text_of(alloc: Global, table: &Table) -> Result<String, OutOfMemory>
    requires shallow { members_depth (table_view table.now) ≤ 80 }
    requires dated { members_have_valid_dates (table_view table.now) ≡ true }
    ensures { IfOk result (λ text. parse_document (string_bytes text) ≡ Some (table_view table.now)) }
{
    match toml::table_to_string(alloc, table) {
        Ok(text) => Ok(text),
        Err(toml::ser::Error::OutOfMemory) => Err(OutOfMemory),
        Err(toml::ser::Error::DateInvalid) => unreachable!(),
    }
}

// The bytes of a text.
fn bytes_of(alloc: Global, text: &str) -> Result<Bytes, OutOfMemory>
    ensures { IfOk result (λ bytes. bytes ≡ text.now) }
{
    let mut bytes = Bytes::with_room(alloc, text.len())?;
    bytes.extend(text.as_bytes())?;
    Ok(bytes)
}
