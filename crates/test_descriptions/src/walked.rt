//! What a walk of a document gives, in words.

use crate::schema::SCHEMA;
use desc_schema::{KeyPlace, Place, Value, Values, WalkError, WalkFault, walk_document};
use std::alloc::Global;
use std::process::Abort;
use std::test::Fail;
use toml::table_from_str;

// A walk of each text gives what stands beside it.
pub(crate) fn are_told(rt: &impl Abort, alloc: Global, rows: &[(&str, &str)]) -> Result<(), Fail> {
    for (text, wanted) in rows {
        is_told(rt, alloc, text, wanted)?;
    }
    Ok(())
}

fn is_told(rt: &impl Abort, alloc: Global, text: &str, wanted: &str) -> Result<(), Fail> {
    let told = told(alloc, text)?;
    are_words(rt, told.as_str(), wanted, text);
    Ok(())
}

fn are_words(rt: &impl Abort, told: &str, wanted: &str, text: &str) {
    if told != wanted {
        panic!(rt; "{told} in place of {wanted}, of {text}");
    }
}

// What a walk gives of a text, in words: its values, or its fault.
fn told(alloc: Global, text: &str) -> Result<String, Fail> {
    match walked(alloc, text)? {
        Ok(mut values) => told_values(alloc, &mut values),
        Err(WalkError::Fault(fault)) => told_fault(alloc, &fault),
        Err(WalkError::OutOfMemory) => told_words(alloc, "no memory"),
    }
}

fn told_words(alloc: Global, words: &str) -> Result<String, Fail> {
    Ok(String::from_str(alloc, words)?)
}

/// What a walk gives of a text.
pub(crate) fn walked(alloc: Global, text: &str) -> Result<Result<Values, WalkError>, Fail> {
    let root = table_from_str(alloc, text)?;
    Ok(walk_document(alloc, SCHEMA, &root))
}

fn told_values(alloc: Global, values: &mut Values) -> Result<String, Fail> {
    let mut told = String::new(alloc);
    push_values(alloc, &mut told, values)?;
    Ok(told)
}

fn push_values(alloc: Global, told: &mut String, values: &mut Values) -> Result<(), Fail> {
    for _ in 0..values.len() {
        push_value(alloc, told, &values.take_first())?;
    }
    Ok(())
}

fn push_value(alloc: Global, told: &mut String, value: &Value) -> Result<(), Fail> {
    let value = told_value(alloc, value)?;
    told.push_str(value.as_str())?;
    told.push_str(";")?;
    Ok(())
}

fn told_value(alloc: Global, value: &Value) -> Result<String, Fail> {
    match value {
        Value::Text(text) => told_text(alloc, text.as_slice()),
        Value::Number(number) => Ok(format!(in alloc; "{number}")?),
        Value::Flag(flag) => told_words(alloc, if *flag { "true" } else { "false" }),
        Value::Uuid(uuid) => told_uuid(alloc, *uuid),
        Value::Word(place) => told_count(alloc, "word", *place),
        Value::Nothing => told_words(alloc, "nothing"),
        Value::Count(count) => told_count(alloc, "count", *count),
    }
}

fn told_text(alloc: Global, text: &[u8]) -> Result<String, Fail> {
    let text = str::from_utf8(text).unwrap_or("not UTF-8");
    Ok(format!(in alloc; "{text:?}")?)
}

fn told_uuid(alloc: Global, uuid: u128) -> Result<String, Fail> {
    Ok(format!(in alloc; "uuid {uuid:x}")?)
}

fn told_count(alloc: Global, name: &str, count: usize) -> Result<String, Fail> {
    Ok(format!(in alloc; "{name} {count}")?)
}

fn told_fault(alloc: Global, fault: &WalkFault) -> Result<String, Fail> {
    match fault {
        WalkFault::UnknownKey(place, key) => told_unknown(alloc, *place, key.as_slice()),
        WalkFault::MissingKey(at) => told_key(alloc, "missing", *at),
        WalkFault::WrongKind(at) => told_key(alloc, "wrong kind", *at),
        WalkFault::OutOfRange(at) => told_key(alloc, "out of range", *at),
    }
}

fn told_unknown(alloc: Global, place: Place, key: &[u8]) -> Result<String, Fail> {
    let Place { table, index } = place;
    let key = str::from_utf8(key).unwrap_or("not UTF-8");
    Ok(format!(in alloc; "unknown {table} {index} {key}")?)
}

fn told_key(alloc: Global, cause: &str, at: KeyPlace) -> Result<String, Fail> {
    let KeyPlace { table, index, key } = at;
    Ok(format!(in alloc; "{cause} {table} {index} {key}")?)
}
