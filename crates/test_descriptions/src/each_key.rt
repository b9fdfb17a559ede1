//! What the description with every key is read as where one key is changed.

use crate::changed::changed;
use crate::fields::fields;
use crate::keys::{ELEMENTS, KEYS, Key, TABLES, VALUES, Values, is_among};
use crate::told::{MACHINE, is_text, told};
use std::alloc::Global;
use std::process::Abort;
use std::test::Fail;

#[test]
fn keys_of_the_root(rt: HostRuntime) -> Result<(), Fail> {
    are_read(&rt, rt.alloc(), TABLES[0], 0)
}

#[test]
fn keys_of_smbios_tables(rt: HostRuntime) -> Result<(), Fail> {
    are_read(&rt, rt.alloc(), TABLES[1], 0)
}

#[test]
fn keys_of_acpi_tables(rt: HostRuntime) -> Result<(), Fail> {
    are_read(&rt, rt.alloc(), TABLES[2], 0)
}

#[test]
fn keys_of_first_smbios_elements(rt: HostRuntime) -> Result<(), Fail> {
    are_read(&rt, rt.alloc(), ELEMENTS[0], 0)
}

#[test]
fn keys_of_first_interrupts(rt: HostRuntime) -> Result<(), Fail> {
    are_read(&rt, rt.alloc(), ELEMENTS[1], 0)
}

#[test]
fn keys_of_first_devices(rt: HostRuntime) -> Result<(), Fail> {
    are_read(&rt, rt.alloc(), ELEMENTS[2], 0)
}

#[test]
fn keys_of_second_smbios_elements(rt: HostRuntime) -> Result<(), Fail> {
    are_read(&rt, rt.alloc(), ELEMENTS[0], 1)
}

#[test]
fn keys_of_second_interrupts(rt: HostRuntime) -> Result<(), Fail> {
    are_read(&rt, rt.alloc(), ELEMENTS[1], 1)
}

#[test]
fn keys_of_second_devices(rt: HostRuntime) -> Result<(), Fail> {
    are_read(&rt, rt.alloc(), ELEMENTS[2], 1)
}

// The keys of these tables are read as their lines say, in the table at this place of its array.
fn are_read(rt: &impl Abort, alloc: Global, tables: &str, index: u32) -> Result<(), Fail> {
    for line in KEYS.split("\n") {
        is_line_kept(rt, alloc, line, tables, index)?;
    }
    Ok(())
}

fn is_line_kept(
    rt: &impl Abort,
    alloc: Global,
    line: &str,
    tables: &str,
    index: u32,
) -> Result<(), Fail> {
    match Key::of(line, index) {
        Some(key) if is_among(tables, key.table) => is_read(rt, alloc, &key),
        Some(_) => Ok(()),
        None => Err(Fail::new("a line that has no key")),
    }
}

fn is_read(rt: &impl Abort, alloc: Global, key: &Key<'_>) -> Result<(), Fail> {
    is_left_out(rt, alloc, key)?;
    is_misnamed(rt, alloc, key)?;
    for line in VALUES.split("\n") {
        are_values_told(rt, alloc, key, line)?;
    }
    Ok(())
}

fn is_left_out(rt: &impl Abort, alloc: Global, key: &Key<'_>) -> Result<(), Fail> {
    match key.default {
        "!" => has_numbered_fault(rt, alloc, key, "", "missing key"),
        "none" => is_machine_with(rt, alloc, key, "", key.rule_without),
        _ => has_its_default(rt, alloc, key),
    }
}

// Without the key the same is read as where its default is written out.
fn has_its_default(rt: &impl Abort, alloc: Global, key: &Key<'_>) -> Result<(), Fail> {
    let wanted = told_with(alloc, key, key.default)?;
    let told = told_with(alloc, key, "")?;
    is_text(rt, told.as_str(), wanted.as_str(), key.line);
    is_machine(rt, told.as_str(), key.rule_without, key.line);
    Ok(())
}

// No key has the name of another with an underscore behind it.
fn is_misnamed(rt: &impl Abort, alloc: Global, key: &Key<'_>) -> Result<(), Fail> {
    let name = format!(in alloc; "{}_", key.name)?;
    let other = Key {
        name: name.as_str(),
        ..*key
    };
    has_fault(rt, alloc, &other, "1", "unknown key")
}

fn are_values_told(rt: &impl Abort, alloc: Global, key: &Key<'_>, line: &str) -> Result<(), Fail> {
    match Values::of(line) {
        Some(values) if is_among(values.kinds, key.kind) => {
            are_told(rt, alloc, key, values.answer, values.values)
        }
        Some(_) => Ok(()),
        None => Err(Fail::new("a line that has no values")),
    }
}

fn are_told(
    rt: &impl Abort,
    alloc: Global,
    key: &Key<'_>,
    answer: &str,
    values: &str,
) -> Result<(), Fail> {
    for value in values.split(" | ") {
        is_value_told(rt, alloc, key, answer, value)?;
    }
    Ok(())
}

fn is_value_told(
    rt: &impl Abort,
    alloc: Global,
    key: &Key<'_>,
    answer: &str,
    value: &str,
) -> Result<(), Fail> {
    match answer {
        "accepted" => is_accepted(rt, alloc, key, value),
        _ if answer.starts_with("rule ") => is_told_with(rt, alloc, key, value, answer),
        _ => has_numbered_fault(rt, alloc, key, value, answer),
    }
}

// A rule that a key's most breaks is told at the last table alone: a range that is long goes over those behind it.
fn is_accepted(rt: &impl Abort, alloc: Global, key: &Key<'_>, value: &str) -> Result<(), Fail> {
    if key.is_last() {
        is_machine_with(rt, alloc, key, value, key.rule)?;
    }
    Ok(())
}

fn is_machine_with(
    rt: &impl Abort,
    alloc: Global,
    key: &Key<'_>,
    value: &str,
    rule: &str,
) -> Result<(), Fail> {
    let told = told_with(alloc, key, value)?;
    is_machine(rt, told.as_str(), rule, key.line);
    Ok(())
}

// The words are those of a machine, or of the rule that it breaks, where there is one.
fn is_machine(rt: &impl Abort, told: &str, rule: &str, of: &str) {
    if !rule.is_empty() {
        is_text(rt, told, rule, of);
    } else if !told.starts_with(MACHINE) {
        is_text(rt, told, "a machine", of);
    }
}

// With this value the description has this fault of the key, which the fault tells by its number.
fn has_numbered_fault(
    rt: &impl Abort,
    alloc: Global,
    key: &Key<'_>,
    value: &str,
    fault: &str,
) -> Result<(), Fail> {
    has_fault(rt, alloc, key, value, fault)?;
    let text = changed(alloc, key, value)?;
    let fields = fields(alloc, text.as_bytes())?;
    let Some((_, number)) = fields.as_str().rsplit_once(" ") else {
        return Err(Fail::new("a fault that has one field"));
    };
    is_text(rt, number, key.number, key.line);
    Ok(())
}

// With this value the description has this fault of the key.
fn has_fault(
    rt: &impl Abort,
    alloc: Global,
    key: &Key<'_>,
    value: &str,
    fault: &str,
) -> Result<(), Fail> {
    let Key {
        table,
        index,
        name,
        ..
    } = *key;
    let wanted = format!(in alloc; "{fault} {table} {index} {name}")?;
    is_told_with(rt, alloc, key, value, wanted.as_str())
}

fn is_told_with(
    rt: &impl Abort,
    alloc: Global,
    key: &Key<'_>,
    value: &str,
    wanted: &str,
) -> Result<(), Fail> {
    let told = told_with(alloc, key, value)?;
    is_text(rt, told.as_str(), wanted, value);
    Ok(())
}

// What the description with this value at the key is read as, in words; with no value the key is left out.
fn told_with(alloc: Global, key: &Key<'_>, value: &str) -> Result<String, Fail> {
    let text = changed(alloc, key, value)?;
    told(alloc, text.as_bytes())
}
