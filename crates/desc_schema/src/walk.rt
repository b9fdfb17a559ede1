ghost use Rattle.std.specs.Prelude.{◌≡◌, option_map};
ghost use Rattle.std.specs.List.{list_any};
ghost use Rattle.std.specs.Option.{ok_or};
ghost use Rattle.std.specs.Str.{bytes_eq};
ghost use Rattle.vt_outside.specs.Readings.{Agrees};
ghost use Rattle.toml.specs.Data.{get_member, as_table, as_array};
ghost use Rattle.toml.specs.View.{view, table_view, items_view};
ghost use Rattle.desc_schema.specs.Form.{form_of, shape_of, default_of, field_of, fields_of, schema_of};
ghost use Rattle.desc_schema.specs.declared.fault.WalkFault.TheVariants.{WrongKind};
ghost use Rattle.desc_schema.specs.Faults.{reported};
ghost use Rattle.desc_schema.specs.Single.{value_of, otherwise_of};
ghost use Rattle.desc_schema.specs.Walk.{after, one, element, elements, singles, shaped, at_field, all_known, table_walked, walked};

use crate::fault::{KeyPlace, Place, WalkError, WalkFault};
use crate::positions::{first_positions, take_position};
use crate::schema::{Key, Kind, Otherwise, Scalar, TableSchema, keys_at};
use crate::single::{otherwise_of, text_of, value_of};
use crate::value::{Value, Values};
use std::alloc::Global;
use toml::Table;
use vt_outside::List;

// How far a walk is: the values so far, and how many elements of each table were met.
#[derive(Drop)]
struct Progress {
    values: Values,
    positions: List<u32>,
}

/// Returns the values of the document whose root table is `root`, in the order of `schema`, or the first fault. The root's keys
/// are those of the schema's table 0. Each table of the schema is to stand before the tables inside it, so that none stands inside
/// itself: of tables inside one another no more are walked than the schema has. `alloc` is where the values, and the name of an
/// unknown key, take their memory from.
pub fn walk_document(
    alloc: Global,
    schema: &[TableSchema],
    root: &Table,
) -> Result<Values, WalkError>
    ensures { Agrees reported (λ values. values) result (walked (schema_of schema.now) (table_view root.now)) }
{
    let mut progress = Progress {
        values: Values::new(alloc),
        positions: first_positions(alloc, schema.len())?,
    };
    let place = Place { table: 0, index: 0 };
    push_table(alloc, schema, schema.len(), place, root, &mut progress)?;
    Ok(progress.values)
}

// The values of a table.
#[cycle(walking)]
fn push_table(
    alloc: Global,
    schema: &[TableSchema],
    depth: usize,
    place: Place,
    table: &Table,
    progress: &mut Progress,
) -> Result<(), WalkError>
    ensures { Agrees reported (λ _. (progress.new.values, progress.new.positions)) result
        (after progress.old.values (table_walked (schema_of schema.now) depth place (table_view table.now) progress.old.positions)) }
{
    if depth == 0 {
        return Ok(());
    }
    let keys = keys_at(schema, place.table);
    only_known(alloc, place, keys, table)?;
    let inner = depth - 1;
    let mut index = 0;
    while index < keys.len() {
        push_key(alloc, schema, inner, place, keys[index], table, progress)?;
        index += 1;
    }
    Ok(())
}

// The values at a key.
#[cycle(walking)]
fn push_key(
    alloc: Global,
    schema: &[TableSchema],
    depth: usize,
    place: Place,
    key: Key,
    table: &Table,
    progress: &mut Progress,
) -> Result<(), WalkError>
    ensures { Agrees reported (λ _. (progress.new.values, progress.new.positions)) result
        (after progress.old.values (at_field (table_walked (schema_of schema.now) depth) place (field_of key) (table_view table.now) progress.old.positions)) }
{
    let at = place.key(key.number);
    match node_at(table, key.name) {
        Some(node) => push_node(alloc, schema, depth, at, key.kind, node, progress),
        None => push_default(alloc, at, key.otherwise, progress),
    }
}

// The values of the node at a key.
#[cycle(walking)]
fn push_node(
    alloc: Global,
    schema: &[TableSchema],
    depth: usize,
    at: KeyPlace,
    kind: Kind,
    node: &toml::Value,
    progress: &mut Progress,
) -> Result<(), WalkError>
    ensures { Agrees reported (λ _. (progress.new.values, progress.new.positions)) result
        (after progress.old.values (shaped (table_walked (schema_of schema.now) depth) at (shape_of kind) (view node.now) progress.old.positions)) }
{
    match kind {
        Kind::One(scalar) => push_one(alloc, at, scalar, node, progress),
        Kind::Table(table) => {
            let inside = table_of(at, node)?;
            progress.values.push(Value::Count(1))?;
            let place = Place { table, index: 0 };
            push_table(alloc, schema, depth, place, inside, progress)
        }
        Kind::Tables(table) => {
            let nodes = nodes_of(at, node)?;
            progress.values.push(Value::Count(nodes.len()))?;
            push_elements(alloc, schema, depth, at, table, nodes, progress)
        }
        Kind::Values(scalar) => {
            let nodes = nodes_of(at, node)?;
            progress.values.push(Value::Count(nodes.len()))?;
            push_singles(alloc, at, scalar, nodes, progress)
        }
    }
}

// The values of the tables of an array.
#[cycle(walking)]
fn push_elements(
    alloc: Global,
    schema: &[TableSchema],
    depth: usize,
    at: KeyPlace,
    table: u8,
    nodes: &[toml::Value],
    progress: &mut Progress,
) -> Result<(), WalkError>
    ensures { Agrees reported (λ _. (progress.new.values, progress.new.positions)) result
        (after progress.old.values (elements (table_walked (schema_of schema.now) depth) at table (items_view nodes.now) progress.old.positions)) }
{
    let mut index = 0;
    while index < nodes.len() {
        push_element(alloc, schema, depth, at, table, &nodes[index], progress)?;
        index += 1;
    }
    Ok(())
}

// The values of one table of an array.
#[cycle(walking)]
fn push_element(
    alloc: Global,
    schema: &[TableSchema],
    depth: usize,
    at: KeyPlace,
    table: u8,
    node: &toml::Value,
    progress: &mut Progress,
) -> Result<(), WalkError>
    ensures { Agrees reported (λ _. (progress.new.values, progress.new.positions)) result
        (after progress.old.values (element (table_walked (schema_of schema.now) depth) at table (view node.now) progress.old.positions)) }
{
    let inside = table_of(at, node)?;
    let index = take_position(&mut progress.positions, table);
    let place = Place { table, index };
    push_table(alloc, schema, depth, place, inside, progress)
}

// The values of an array of single values.
fn push_singles(
    alloc: Global,
    at: KeyPlace,
    scalar: Scalar,
    nodes: &[toml::Value],
    progress: &mut Progress,
) -> Result<(), WalkError>
    ensures { Agrees reported (λ _. (progress.new.values, progress.new.positions)) result
        (after progress.old.values (singles at (form_of scalar) (items_view nodes.now) progress.old.positions)) }
{
    let mut index = 0;
    while index < nodes.len() {
        push_one(alloc, at, scalar, &nodes[index], progress)?;
        index += 1;
    }
    Ok(())
}

// A single value.
fn push_one(
    alloc: Global,
    at: KeyPlace,
    scalar: Scalar,
    node: &toml::Value,
    progress: &mut Progress,
) -> Result<(), WalkError>
    ensures { Agrees reported (λ _. (progress.new.values, progress.new.positions)) result
        (after progress.old.values (one (value_of at (form_of scalar) (view node.now)) progress.old.positions)) }
{
    let value = value_of(alloc, at, scalar, node)?;
    progress.values.push(value)?;
    Ok(())
}

// What stands for a key that is left out.
fn push_default(
    alloc: Global,
    at: KeyPlace,
    otherwise: Otherwise,
    progress: &mut Progress,
) -> Result<(), WalkError>
    ensures { Agrees reported (λ _. (progress.new.values, progress.new.positions)) result
        (after progress.old.values (one (otherwise_of at (default_of otherwise)) progress.old.positions)) }
{
    let value = otherwise_of(alloc, at, otherwise)?;
    progress.values.push(value)?;
    Ok(())
}

fn table_of<'a>(at: KeyPlace, node: &'a toml::Value) -> Result<&'a Table, WalkError>
    ensures { Agrees reported (λ inside. table_view inside.now) result (ok_or (as_table (view node.now)) (WrongKind at)) }
{
    match node.as_table() {
        Some(inside) => Ok(inside),
        None => Err(WalkError::Fault(WalkFault::WrongKind(at))),
    }
}

fn nodes_of<'a>(at: KeyPlace, node: &'a toml::Value) -> Result<&'a [toml::Value], WalkError>
    ensures { Agrees reported (λ nodes. items_view nodes.now) result (ok_or (as_array (view node.now)) (WrongKind at)) }
{
    match node.as_array() {
        Some(nodes) => Ok(nodes.as_slice()),
        None => Err(WalkError::Fault(WalkFault::WrongKind(at))),
    }
}

// Refuses the first key of the table that isn't one of `keys`: the least one, since the table's keys ascend.
fn only_known(alloc: Global, place: Place, keys: &[Key], table: &Table) -> Result<(), WalkError>
    ensures { Agrees reported (λ done. done) result (all_known place (fields_of keys.now) (table_view table.now)) }
{
    for name in table.keys() {
        if !is_named(keys, name.as_str()) {
            let unknown = text_of(alloc, name.as_str())?;
            return Err(WalkError::Fault(WalkFault::UnknownKey(place, unknown)));
        }
    }
    Ok(())
}

fn is_named(keys: &[Key], name: &str) -> bool
    ensures { result ≡ list_any (λ key. bytes_eq key.name.now name.now) keys.now }
{
    keys.iter().any(|key| *key.name == *name)
}

fn node_at<'a>(table: &'a Table, key: &str) -> Option<&'a toml::Value>
    ensures { option_map (λ node. view node.now) result ≡ get_member key.now (table_view table.now) }
{
    table.get(key)
}
