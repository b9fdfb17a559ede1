//! The description with every key, changed at one of them.

use crate::every_key::EVERY_KEY;
use crate::keys::Key;
use std::alloc::Global;
use std::test::Fail;

// Where a line stands: the path of the table, as its header has it, and the table's place in its array.
#[derive(Clone, Copy)]
struct Place<'a> {
    path: &'a str,
    index: u32,
}

/// The description with every key, in which this one has another value, or is left out where the value is no text.
pub(crate) fn changed(alloc: Global, key: &Key<'_>, value: &str) -> Result<String, Fail> {
    let mut text = String::new(alloc);
    push_changed(&mut text, key, value)?;
    Ok(text)
}

fn push_changed(text: &mut String, key: &Key<'_>, value: &str) -> Result<(), Fail> {
    let mut place = Place {
        path: "root",
        index: 0,
    };
    if key.table == "root" {
        push_value(text, key.name, value)?;
    }
    for line in EVERY_KEY.split("\n") {
        place = place_at(place, line);
        push_old(text, key, value, place, line)?;
    }
    Ok(())
}

// A line of the description, without the key's own, and the key's new value behind the header of its table.
fn push_old(
    text: &mut String,
    key: &Key<'_>,
    value: &str,
    place: Place<'_>,
    line: &str,
) -> Result<(), Fail> {
    if is_of(key, place, line) {
        return Ok(());
    }
    push_line(text, line)?;
    if is_in(key, place) && header(line).is_some() {
        push_value(text, key.name, value)?;
    }
    Ok(())
}

fn push_value(text: &mut String, name: &str, value: &str) -> Result<(), Fail> {
    if !value.is_empty() {
        text.push_str(name)?;
        text.push_str(" = ")?;
        push_line(text, value)?;
    }
    Ok(())
}

fn push_line(text: &mut String, line: &str) -> Result<(), Fail> {
    text.push_str(line)?;
    text.push_str("\n")?;
    Ok(())
}

// Whether a line gives the key its value: it is the key's, or one of the table or array that stands at the key.
fn is_of(key: &Key<'_>, place: Place<'_>, line: &str) -> bool {
    if is_below(key, place.path) {
        return true;
    }
    match line.split_once(" = ") {
        Some((name, _)) => name == key.name && is_in(key, place),
        None => false,
    }
}

// Whether a path is that of the table or array at the key, or of a table in that.
fn is_below(key: &Key<'_>, path: &str) -> bool {
    match path.split_once(".") {
        Some((outer, name)) => {
            key.table == "root" && outer == key.name || key.table == outer && name == key.name
        }
        None => key.table == "root" && path == key.name,
    }
}

fn is_in(key: &Key<'_>, place: Place<'_>) -> bool {
    table_of(place.path) == key.table && place.index == key.index
}

// The table of a path, which is the last of its names.
fn table_of(path: &str) -> &str {
    match path.split_once(".") {
        Some((_, name)) => name,
        None => path,
    }
}

// The place of a line that stands behind a line of this place.
fn place_at<'a>(place: Place<'a>, line: &'a str) -> Place<'a> {
    match header(line) {
        Some(path) if path == place.path => Place {
            path,
            index: place.index.saturating_add(1),
        },
        Some(path) => Place { path, index: 0 },
        None => place,
    }
}

// The path of the table that a header is of.
fn header(line: &str) -> Option<&str> {
    let (path, _) = line.strip_prefix("[")?.split_once("]")?;
    Some(path.strip_prefix("[").unwrap_or(path))
}
