ghost use Rattle.std.specs.Prelude.{◌≡◌, Err};
ghost use Rattle.std.specs.Str.{IsUtf8};
ghost use Rattle.vt_outside.specs.Readings.{Agrees};
ghost use Rattle.toml.specs.View.{table_view};
ghost use Rattle.desc_toml.specs.Reading.{root_in, values_in, machine_in, accepted, read_of, reported};

use crate::fault::{DescFault, told};
use crate::machine::machine_of;
use crate::schema::SCHEMA;
use desc_schema::{Values, WalkError, walk_document};
use machine_desc::Machine;
use std::alloc::Global;
use std::str;
use toml::Table;

/// Returns the machine that `bytes` describe: they are a TOML document in UTF-8, each key is one that the description may have, with
/// a value of its kind and within its limits, and the machine keeps every rule of `Machine::check`. Else the error is the first
/// fault of the bytes, in this order, or `DescFault::OutOfMemory`, which never comes of bytes that aren't UTF-8. The machine takes its
/// memory from `alloc`.
pub fn read_machine(alloc: Global, bytes: &[u8]) -> Result<Machine, DescFault>
    ensures read { Agrees reported (λ machine. machine) result (read_of bytes.now) }
    // Bytes that aren't UTF-8 are told before memory is taken.
    ensures no_text { ¬ IsUtf8 bytes.now → result ≡ Err DescFault.NotToml }
{
    let Ok(text) = str::from_utf8(bytes) else {
        return Err(DescFault::NotToml);
    };
    let machine = machine_in(alloc, text)?;
    accepted(machine)
}

// The machine, where it breaks no rule.
fn accepted(machine: Machine) -> Result<Machine, DescFault>
    ensures { Agrees reported (λ machine. machine) result (accepted machine) }
{
    match machine.check() {
        Ok(()) => Ok(machine),
        Err(broken) => {
            // Given up by a call, since each of its parts would be a step of this proof if it ended in place.
            drop(machine);
            Err(DescFault::Broken {
                rule: broken.rule,
                index: broken.index,
            })
        }
    }
}

// The machine that a text describes, whether or not it keeps the rules.
fn machine_in(alloc: Global, text: &str) -> Result<Machine, DescFault>
    ensures { Agrees reported (λ machine. machine) result (machine_in text.now) }
{
    let root = root_in(alloc, text)?;
    let mut values = values_in(alloc, &root)?;
    Ok(machine_of(alloc, &mut values)?)
}

// The root table of a document.
fn root_in(alloc: Global, text: &str) -> Result<Table, DescFault>
    ensures { Agrees reported table_view result (root_in text.now) }
{
    match toml::table_from_str(alloc, text) {
        Ok(root) => Ok(root),
        Err(error) if error.is_memory() => Err(DescFault::OutOfMemory),
        Err(_) => Err(DescFault::NotToml),
    }
}

// The values of a document, in the schema's order.
fn values_in(alloc: Global, root: &Table) -> Result<Values, DescFault>
    ensures { Agrees reported (λ values. values) result (values_in (table_view root.now)) }
{
    match walk_document(alloc, SCHEMA, root) {
        Ok(values) => Ok(values),
        Err(WalkError::Fault(fault)) => Err(told(fault)),
        Err(WalkError::OutOfMemory) => Err(DescFault::OutOfMemory),
    }
}
