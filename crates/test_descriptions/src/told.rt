//! What a description is read as, in words.

use desc_toml::{DescFault, read_machine};
use machine_desc::Machine;
use std::alloc::Global;
use std::process::Abort;
use std::test::Fail;

/// What the words of a machine begin with.
pub(crate) const MACHINE: &str = "Machine {";

/// Compares a text. A failure names what it is told of.
pub(crate) fn is_text(rt: &impl Abort, text: &str, wanted: &str, of: &str) {
    if text != wanted {
        panic!(rt; "{text} in place of {wanted}, of {of}");
    }
}

/// What bytes are read as, in words: a machine, with each of its fields, or the first fault as its line tells it. A machine has twenty parts
/// to drop: it is proved once, in the call.
pub(crate) fn told(alloc: Global, bytes: &[u8]) -> Result<String, Fail> {
    let read = read_machine(alloc, bytes);
    let told = told_reading(alloc, &read);
    drop(read);
    told
}

// By a reference, so that it owns no machine.
fn told_reading(alloc: Global, read: &Result<Machine, DescFault>) -> Result<String, Fail> {
    match read {
        Ok(machine) => Ok(format!(in alloc; "{machine:?}")?),
        Err(fault) => told_line(alloc, fault.line().as_str()),
    }
}

// A line, without what all of them have.
fn told_line(alloc: Global, line: &str) -> Result<String, Fail> {
    Ok(String::from_str(alloc, words_of(line).unwrap_or(line))?)
}

fn words_of(line: &str) -> Option<&str> {
    line.strip_prefix("description: ")?.strip_suffix("\n")
}
