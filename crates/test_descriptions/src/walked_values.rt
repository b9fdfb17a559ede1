//! Documents, and the values that a walk of each gives.

use crate::walked::are_told;
use std::test::Fail;

// Documents, and their values in the schema's order.
static VALUES: [(&str, &str); 9] = [
    (
        "version = 1",
        "1;\"vm\";nothing;true;word 1;nothing;count 0;count 0;count 0;count 0;",
    ),
    (
        "name = \"a\"\nversion = 1\nfast = false\ncpu = 0",
        "1;\"a\";nothing;false;word 1;0;count 0;count 0;count 0;count 0;",
    ),
    (
        "version = 1\nmode = \"io\"\ncpu = 4294967295",
        "1;\"vm\";nothing;true;word 0;4294967295;count 0;count 0;count 0;count 0;",
    ),
    (
        "version = 1\nmode = \"mem64\"\ntags = []",
        "1;\"vm\";nothing;true;word 2;nothing;count 0;count 0;count 0;count 0;",
    ),
    (
        "version = 1\nid = \"00112233-4455-6677-8899-aabbccddeeff\"",
        "1;\"vm\";uuid 112233445566778899aabbccddeeff;true;word 1;nothing;count 0;count 0;count 0;count 0;",
    ),
    (
        "version = 1\ntags = [\"b\", \"\"]\ndistance = [10, 255]",
        "1;\"vm\";nothing;true;word 1;nothing;count 2;\"b\";\"\";count 2;10;255;count 0;count 0;",
    ),
    (
        "version = 1\n[system]\ncores = 2",
        "1;\"vm\";nothing;true;word 1;nothing;count 0;count 0;count 1;\"\";2;count 0;",
    ),
    (
        "version = 1\n[[bridge]]\n[[bridge]]\nlast_bus = 0",
        "1;\"vm\";nothing;true;word 1;nothing;count 0;count 0;count 0;count 2;255;count 0;0;count 0;",
    ),
    (
        "version = 1\n[[bridge]]\nwindow = [{kind = \"io\"}, {base = 7, kind = \"mem32\", ports = [7]}]",
        "1;\"vm\";nothing;true;word 1;nothing;count 0;count 0;count 0;count 1;255;count 2;word 0;0;count 0;word 1;7;count 1;7;",
    ),
];

#[test]
fn values_come_in_the_schemas_order(rt: HostRuntime) -> Result<(), Fail> {
    are_told(&rt, rt.alloc(), &VALUES)
}
