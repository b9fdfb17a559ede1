//! Values of a walk that are taken out one after the other.

use crate::walked::walked;
use desc_schema::{Value, Values};
use std::alloc::Global;
use std::fmt::Debug;
use std::process::Abort;
use std::test::Fail;
use vt_outside::OutOfMemory;

// A document that gives each kind once.
const EACH_KIND: &str =
    "version = 1\nname = \"a\"\nid = \"00112233-4455-6677-8899-aabbccddeeff\"\nfast = false\nmode = \"mem64\"\ncpu = 7\ntags = [\"b\"]";

// The values of that document.
fn each_kind(alloc: Global) -> Result<Values, Fail> {
    match walked(alloc, EACH_KIND)? {
        Ok(values) => Ok(values),
        Err(_) => Err(Fail::from("a document that isn't walked")),
    }
}

#[test]
fn values_are_taken_as_their_kinds(rt: HostRuntime) -> Result<(), Fail> {
    let mut values = each_kind(rt.alloc())?;
    are_taken(&rt, rt.alloc(), &mut values);
    Ok(())
}

fn are_taken(rt: &impl Abort, alloc: Global, values: &mut Values) {
    is(rt, &values.len(), &11);
    is(rt, &values.take_number(0xFF), &1);
    is_text_taken(rt, alloc, values, b"a");
    is(
        rt,
        &values.take_uuid(),
        &Some(0x0011_2233_4455_6677_8899_AABB_CCDD_EEFF),
    );
    is(rt, &values.take_flag(), &false);
    is(rt, &values.take_word(), &2);
    is(rt, &values.take_optional_number(0xFFFF_FFFF), &Some(7));
    is(rt, &values.take_count(), &1);
}

fn is_text_taken(rt: &impl Abort, alloc: Global, values: &mut Values, wanted: &[u8]) {
    let text = values.take_text(alloc);
    is(rt, &text.as_slice(), &wanted);
}

#[test]
fn numbers_out_of_range(rt: HostRuntime) -> Result<(), Fail> {
    let mut values = Values::new(rt.alloc());
    push_two(&mut values)?;
    are_none(&rt, &mut values);
    Ok(())
}

fn push_two(values: &mut Values) -> Result<(), OutOfMemory> {
    values.push(Value::Number(256))?;
    values.push(Value::Nothing)
}

// Of an empty list the count is 0 too.
fn are_none(rt: &impl Abort, values: &mut Values) {
    is(rt, &values.take_number(0xFF), &0);
    is(rt, &values.take_optional_number(0xFF), &None);
    is(rt, &values.take_count(), &0);
}

#[test]
fn values_of_another_kind_are_none(rt: HostRuntime) -> Result<(), Fail> {
    let mut values = Values::new(rt.alloc());
    push_others(&mut values)?;
    are_of_another_kind(&rt, rt.alloc(), &mut values);
    Ok(())
}

// A flag for each of the six kinds that aren't flags, and a number.
fn push_others(values: &mut Values) -> Result<(), OutOfMemory> {
    for _ in 0..6 {
        values.push(Value::Flag(true))?;
    }
    values.push(Value::Number(1))
}

fn are_of_another_kind(rt: &impl Abort, alloc: Global, values: &mut Values) {
    is(rt, &values.len(), &7);
    is(rt, &values.take_number(0xFF), &0);
    is_text_taken(rt, alloc, values, b"");
    is(rt, &values.take_uuid(), &None);
    is(rt, &values.take_word(), &0);
    is(rt, &values.take_optional_number(0xFF), &None);
    is(rt, &values.take_count(), &0);
    is(rt, &values.take_flag(), &false);
}

fn is<T: Debug + PartialEq>(rt: &impl Abort, taken: &T, wanted: &T) {
    assert_eq!(rt; *taken, *wanted);
}
