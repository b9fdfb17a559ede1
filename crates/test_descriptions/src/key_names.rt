//! The names of keys by their numbers.

use crate::schema::SCHEMA;
use desc_schema::key_name;
use std::process::Abort;

// Numbers of tables and of keys, and the names of these keys. A number that is no key's has none.
static NAMES: &[(u8, u8, &str)] = &[
    (0, 0, "version"),
    (0, 4, "mode"),
    (0, 5, ""),
    (0, 6, "cpu"),
    (0, 254, ""),
    (0, 255, "bridge"),
    (2, 0, ""),
    (2, 2, "window"),
    (3, 3, ""),
    (4, 0, ""),
];

#[test]
fn keys_are_named_by_their_numbers(rt: HostRuntime) {
    for (table, number, name) in NAMES {
        is_name(&rt, key_name(SCHEMA, *table, *number), name);
    }
}

fn is_name(rt: &impl Abort, named: &str, wanted: &str) {
    assert_eq!(rt; *named, *wanted);
}
