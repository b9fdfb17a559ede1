ghost use Rattle.std.specs.Prelude.{◌≡◌, ◌&&◌, ◌==◌, pos, nat_le, Some, None, option_map, is_some, if◌then◌else◌, IfOk, OnOk};
ghost use Rattle.toml.specs.Data.{string, integer, array};
ghost use Rattle.toml.specs.View.{view, table_view, items_view};
ghost use Rattle.uuid.specs.Text.{lower, hyphenated_text};
ghost use Rattle.desc_schema.specs.Form.{form_of, default_of, field_of, schema_of, texts_of};
ghost use Rattle.desc_schema.specs.Form as forms;
ghost use Rattle.desc_schema.specs.Taken.{first, rest};
ghost use Rattle.desc_schema.specs.Written.{hyphenated, greatest_integer, IsTextValue, AreTexts, node_of, single_or_empty, tables_written, singles_written};
ghost use Rattle.desc_schema.specs.Written.{array_written, table_written, field_written, put_member, with_member, written_to, written};

use crate::schema::{Key, Kind, Otherwise, Scalar, TableSchema, keys_at};
use crate::value::{Value, Values};
use std::alloc::Global;
use toml::Table;
use uuid::Uuid;
use vt_outside::OutOfMemory;

/// Returns the root table of the document that is written of `values` by `schema`, whose table 0 is the root's. The values are taken
/// out from the front, in the schema's order, and each text is to be UTF-8. A key stands in the document unless its table isn't there,
/// its value is none of its kind, or its array is empty and it may be left out; a value that equals what stands where the key is left
/// out is written too. A single value of an array that is none of its kind is the empty string. Of tables inside one another no more
/// are written than the schema has. A UUID is in the hyphenated form, in lower case (RFC 9562, section 4). `alloc` is where the
/// document takes its memory from.
pub fn write_document(
    alloc: Global,
    schema: &[TableSchema],
    values: &mut Values,
) -> Result<Table, OutOfMemory>
    requires { AreTexts values.old }
    ensures { IfOk result (λ table. table_view table ≡ written hyphenated (schema_of schema.now) values.old) }
{
    write_table(alloc, schema, schema.len(), 0, values)
}

// A table.
#[cycle(writing)]
fn write_table(
    alloc: Global,
    schema: &[TableSchema],
    depth: usize,
    number: u8,
    values: &mut Values,
) -> Result<Table, OutOfMemory>
    requires { AreTexts values.old }
    ensures made { IfOk result (λ table. (table_view table, values.new) ≡ written_to hyphenated (schema_of schema.now) depth number values.old) }
    ensures texts { OnOk result (AreTexts values.new) }
{
    let mut made = Table::new(alloc);
    if depth == 0 {
        return Ok(made);
    }
    let keys = keys_at(schema, number);
    let inner = depth - 1;
    let mut index = 0;
    while index < keys.len() {
        write_key(alloc, schema, inner, keys[index], values, &mut made)?;
        index += 1;
    }
    Ok(made)
}

// A key and its node, unless it is left out, among those that were made before.
#[cycle(writing)]
fn write_key(
    alloc: Global,
    schema: &[TableSchema],
    depth: usize,
    key: Key,
    values: &mut Values,
    made: &mut Table,
) -> Result<(), OutOfMemory>
    requires { AreTexts values.old }
    ensures made { OnOk result (let here = field_written hyphenated (written_to hyphenated (schema_of schema.now) depth) (field_of key) values.old in
        table_view made.new ≡ with_member key.name.now here.0 (table_view made.old)) }
    ensures left { OnOk result (values.new ≡ (field_written hyphenated (written_to hyphenated (schema_of schema.now) depth) (field_of key) values.old).1) }
    ensures texts { OnOk result (AreTexts values.new) }
{
    match write_node(alloc, schema, depth, key, values)? {
        Some(node) => put(alloc, made, key.name, node),
        None => Ok(()),
    }
}

// The node at a key, unless it is left out.
#[cycle(writing)]
fn write_node(
    alloc: Global,
    schema: &[TableSchema],
    depth: usize,
    key: Key,
    values: &mut Values,
) -> Result<Option<toml::Value>, OutOfMemory>
    requires { AreTexts values.old }
    ensures made { IfOk result (λ node. (option_map view node, values.new)
        ≡ field_written hyphenated (written_to hyphenated (schema_of schema.now) depth) (field_of key) values.old) }
    ensures texts { OnOk result (AreTexts values.new) }
{
    let optional = may_be_left_out(key.otherwise);
    match key.kind {
        Kind::One(scalar) => node_of(alloc, scalar, &values.take_first()),
        Kind::Table(number) => write_inner(alloc, schema, depth, number, values),
        Kind::Tables(number) => write_tables(alloc, schema, depth, number, optional, values),
        Kind::Values(scalar) => write_singles(alloc, scalar, optional, values),
    }
}

// A table at a key, where there is one.
#[cycle(writing)]
fn write_inner(
    alloc: Global,
    schema: &[TableSchema],
    depth: usize,
    number: u8,
    values: &mut Values,
) -> Result<Option<toml::Value>, OutOfMemory>
    requires { AreTexts values.old }
    ensures made { IfOk result (λ node. (option_map view node, values.new)
        ≡ table_written (written_to hyphenated (schema_of schema.now) depth number) (first values.old) (rest values.old)) }
    ensures texts { OnOk result (AreTexts values.new) }
{
    if values.take_count() == 0 {
        return Ok(None);
    }
    let table = write_table(alloc, schema, depth, number, values)?;
    Ok(Some(toml::Value::Table(table)))
}

// An array of tables, unless it is left out.
#[cycle(writing)]
fn write_tables(
    alloc: Global,
    schema: &[TableSchema],
    depth: usize,
    number: u8,
    optional: bool,
    values: &mut Values,
) -> Result<Option<toml::Value>, OutOfMemory>
    requires { AreTexts values.old }
    ensures made { IfOk result (λ node. (option_map view node, values.new)
        ≡ array_written optional (tables_written (written_to hyphenated (schema_of schema.now) depth) number) (first values.old) (rest values.old)) }
    ensures texts { OnOk result (AreTexts values.new) }
{
    match values.take_first() {
        Value::Count(count) => {
            let nodes = write_elements(alloc, schema, depth, number, count, values)?;
            Ok(array_of(optional, count, nodes))
        }
        _ => Ok(None),
    }
}

// So many tables of an array.
#[cycle(writing)]
fn write_elements(
    alloc: Global,
    schema: &[TableSchema],
    depth: usize,
    number: u8,
    count: usize,
    values: &mut Values,
) -> Result<Vec<toml::Value>, OutOfMemory>
    requires { AreTexts values.old }
    ensures made { IfOk result (λ nodes. (items_view nodes.items, values.new)
        ≡ tables_written (written_to hyphenated (schema_of schema.now) depth) number count values.old) }
    ensures texts { OnOk result (AreTexts values.new) }
{
    let mut nodes = Vec::new(alloc);
    let mut left = count;
    while left > 0 {
        let table = write_table(alloc, schema, depth, number, values)?;
        nodes.push(toml::Value::Table(table))?;
        left -= 1;
    }
    Ok(nodes)
}

// An array of single values, unless it is left out.
fn write_singles(
    alloc: Global,
    scalar: Scalar,
    optional: bool,
    values: &mut Values,
) -> Result<Option<toml::Value>, OutOfMemory>
    requires { AreTexts values.old }
    ensures made { IfOk result (λ node. (option_map view node, values.new)
        ≡ array_written optional (singles_written hyphenated (form_of scalar)) (first values.old) (rest values.old)) }
    ensures texts { OnOk result (AreTexts values.new) }
{
    match values.take_first() {
        Value::Count(count) => {
            let nodes = single_nodes(alloc, scalar, count, values)?;
            Ok(array_of(optional, count, nodes))
        }
        _ => Ok(None),
    }
}

// So many single values of an array.
fn single_nodes(
    alloc: Global,
    scalar: Scalar,
    count: usize,
    values: &mut Values,
) -> Result<Vec<toml::Value>, OutOfMemory>
    requires { AreTexts values.old }
    ensures made { IfOk result (λ nodes. (items_view nodes.items, values.new) ≡ singles_written hyphenated (form_of scalar) count values.old) }
    ensures texts { OnOk result (AreTexts values.new) }
{
    let mut nodes = Vec::new(alloc);
    let mut left = count;
    while left > 0 {
        let node = single_node(alloc, scalar, &values.take_first())?;
        nodes.push(node)?;
        left -= 1;
    }
    Ok(nodes)
}

// A single value of an array.
fn single_node(alloc: Global, scalar: Scalar, value: &Value) -> Result<toml::Value, OutOfMemory>
    requires { IsTextValue value.now }
    ensures { IfOk result (λ node. view node ≡ single_or_empty (node_of hyphenated (form_of scalar) value.now)) }
{
    match node_of(alloc, scalar, value)? {
        Some(node) => Ok(node),
        None => string_node(alloc, ""),
    }
}

// An array, unless it is empty and its key may be left out.
fn array_of(optional: bool, count: usize, nodes: Vec<toml::Value>) -> Option<toml::Value>
    ensures { option_map view result ≡ (if optional && (count == 0) then None else Some (array (items_view nodes.items))) }
{
    if optional && count == 0 {
        None
    } else {
        Some(toml::Value::Array(nodes))
    }
}

// A single value, unless it is of another kind.
fn node_of(alloc: Global, scalar: Scalar, value: &Value) -> Result<Option<toml::Value>, OutOfMemory>
    requires { IsTextValue value.now }
    ensures { IfOk result (λ node. option_map view node ≡ node_of hyphenated (form_of scalar) value.now) }
{
    match scalar {
        Scalar::Text => text_of(alloc, value),
        Scalar::Number(least, most) => Ok(number_of(least, most, value)),
        Scalar::Flag => Ok(flag_of(value)),
        Scalar::Uuid => uuid_of(alloc, value),
        Scalar::Word(words) => word_of(alloc, words, value),
    }
}

fn text_of(alloc: Global, value: &Value) -> Result<Option<toml::Value>, OutOfMemory>
    requires { IsTextValue value.now }
    ensures { IfOk result (λ node. option_map view node ≡ node_of hyphenated forms.Text value.now) }
{
    match value {
        Value::Text(text) => {
            let string = String::from_utf8_lossy(alloc, text.as_slice())?;
            Ok(Some(toml::Value::String(string)))
        }
        _ => Ok(None),
    }
}

// A number that is no integer of TOML is written as nothing.
fn number_of(least: u64, most: u64, value: &Value) -> Option<toml::Value>
    ensures { option_map view result ≡ node_of hyphenated (forms.Number least most) value.now }
{
    match value {
        Value::Number(number) if least <= *number && *number <= most => integer_of(*number),
        _ => None,
    }
}

fn integer_of(number: u64) -> Option<toml::Value>
    ensures { option_map view result ≡ (if nat_le number greatest_integer then Some (integer (pos number)) else None) }
{
    match i64::try_from(number) {
        Ok(integer) => Some(toml::Value::Integer(integer)),
        Err(_) => None,
    }
}

fn flag_of(value: &Value) -> Option<toml::Value>
    ensures { option_map view result ≡ node_of hyphenated forms.Flag value.now }
{
    match value {
        Value::Flag(flag) => Some(toml::Value::Boolean(*flag)),
        _ => None,
    }
}

fn uuid_of(alloc: Global, value: &Value) -> Result<Option<toml::Value>, OutOfMemory>
    ensures { IfOk result (λ node. option_map view node ≡ node_of hyphenated forms.Uuid value.now) }
{
    match value {
        Value::Uuid(number) => Ok(Some(uuid_node(alloc, Uuid::from_u128(*number))?)),
        _ => Ok(None),
    }
}

fn uuid_node(alloc: Global, uuid: Uuid) -> Result<toml::Value, OutOfMemory>
    ensures { IfOk result (λ node. view node ≡ string (hyphenated_text lower uuid)) }
{
    let mut buffer = Uuid::encode_buffer();
    string_node(alloc, uuid.hyphenated().encode_lower(&mut buffer))
}

fn word_of(alloc: Global, words: &[&str], value: &Value) -> Result<Option<toml::Value>, OutOfMemory>
    ensures { IfOk result (λ node. option_map view node ≡ node_of hyphenated (forms.Word (texts_of words.now)) value.now) }
{
    match value {
        Value::Word(place) => match words.get(*place) {
            Some(word) => Ok(Some(string_node(alloc, word)?)),
            None => Ok(None),
        },
        _ => Ok(None),
    }
}

fn string_node(alloc: Global, text: &str) -> Result<toml::Value, OutOfMemory>
    ensures { IfOk result (λ node. view node ≡ string text.now) }
{
    Ok(toml::Value::String(String::from_str(alloc, text)?))
}

// Puts a node at a key of the table.
fn put(alloc: Global, table: &mut Table, name: &str, node: toml::Value) -> Result<(), OutOfMemory>
    ensures { OnOk result (table_view table.new ≡ put_member name.now (view node) (table_view table.old)) }
{
    let key = String::from_str(alloc, name)?;
    table.insert(key, node)?;
    Ok(())
}

fn may_be_left_out(otherwise: Otherwise) -> bool
    ensures { result ≡ is_some (default_of otherwise) }
{
    match otherwise {
        Otherwise::Required => false,
        _ => true,
    }
}
