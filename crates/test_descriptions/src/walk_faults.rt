//! Documents, and the first fault that a walk of each tells.

use crate::walked::are_told;
use std::test::Fail;

// Faults at the root, of each kind of value.
static AT_THE_ROOT: [(&str, &str); 23] = [
    ("", "missing 0 0 0"),
    ("zz = 1\nversio = 2\nabc = 3", "unknown 0 0 abc"),
    ("b = 1\nB = 2\n\"\" = 3\nversion = 1", "unknown 0 0 "),
    ("versions = 1\nversion = \"1\"", "unknown 0 0 versions"),
    ("version = \"1\"", "wrong kind 0 0 0"),
    ("version = 1.0", "wrong kind 0 0 0"),
    ("version = 0", "out of range 0 0 0"),
    ("version = 2", "out of range 0 0 0"),
    ("version = -1", "out of range 0 0 0"),
    ("version = 1\nname = 1", "wrong kind 0 0 1"),
    ("version = 1\nid = 1", "wrong kind 0 0 2"),
    ("version = 1\nid = \"0011\"", "out of range 0 0 2"),
    ("version = 1\nfast = \"true\"", "wrong kind 0 0 3"),
    ("version = 1\nmode = 0", "wrong kind 0 0 4"),
    ("version = 1\nmode = \"mem\"", "out of range 0 0 4"),
    ("version = 1\ncpu = 4294967296", "out of range 0 0 6"),
    ("version = 1\ntags = \"a\"", "wrong kind 0 0 7"),
    ("version = 1\ntags = [\"a\", \"b\", 3]", "wrong kind 0 0 7"),
    ("version = 1\ndistance = [9, \"a\"]", "out of range 0 0 8"),
    ("version = 1\ndistance = [10, 256]", "out of range 0 0 8"),
    ("version = 1\nsystem = 1", "wrong kind 0 0 10"),
    ("version = 1\nbridge = {}", "wrong kind 0 0 255"),
    ("version = 1\nbridge = [{}, 1]", "wrong kind 0 0 255"),
];

// Faults in a table, in an element of an array, and in an array inside one, whose positions count through all of them.
static INSIDE: [(&str, &str); 16] = [
    ("version = 1\n[system]", "missing 1 0 3"),
    ("version = 1\n[system]\nz = 1\nd = 1", "unknown 1 0 d"),
    ("version = 1\n[system]\nserial = 1", "wrong kind 1 0 0"),
    ("version = 1\n[system]\ncores = 256", "out of range 1 0 3"),
    (
        "version = 1\nbridge = [1]\n[system]\ncores = 0",
        "out of range 1 0 3",
    ),
    (
        "version = 1\n[[bridge]]\n[[bridge]]\nbus = 1",
        "unknown 2 1 bus",
    ),
    (
        "version = 1\n[[bridge]]\nlast_bus = 256\n[[bridge]]\nbus = 1",
        "out of range 2 0 1",
    ),
    (
        "version = 1\n[[bridge]]\n[[bridge]]\nlast_bus = true",
        "wrong kind 2 1 1",
    ),
    (
        "version = 1\n[[bridge]]\n[[bridge]]\nwindow = 5",
        "wrong kind 2 1 2",
    ),
    (
        "version = 1\n[[bridge]]\n[[bridge]]\nwindow = [5]",
        "wrong kind 2 1 2",
    ),
    (
        "version = 1\n[[bridge]]\n[[bridge.window]]\n[[bridge]]\n[[bridge.window]]\nkind = 1",
        "missing 3 0 0",
    ),
    (
        "version = 1\n[[bridge]]\n[[bridge.window]]\nkind = \"io\"\n[[bridge.window]]\nkind = \"io\"\n[[bridge]]\n[[bridge.window]]",
        "missing 3 2 0",
    ),
    (
        "version = 1\n[[bridge]]\n[[bridge.window]]\nkind = \"io\"\n[[bridge]]\n[[bridge.window]]\nkind = \"io\"\n[[bridge.window]]\nkind = 1",
        "wrong kind 3 2 0",
    ),
    (
        "version = 1\n[[bridge]]\n[[bridge.window]]\nkind = \"io\"\n[[bridge]]\n[[bridge]]\n[[bridge.window]]\nkind = \"io\"\nbase = 65536",
        "out of range 3 1 1",
    ),
    (
        "version = 1\n[[bridge]]\n[[bridge.window]]\nkind = \"io\"\n[[bridge]]\n[[bridge.window]]\nsize = 1\nbase2 = 2",
        "unknown 3 1 base2",
    ),
    (
        "version = 1\n[[bridge]]\n[[bridge.window]]\nkind = \"io\"\nports = [0, 8]\n[[bridge]]\nlast_bus = 256",
        "out of range 3 0 2",
    ),
];

#[test]
fn faults_at_the_root(rt: HostRuntime) -> Result<(), Fail> {
    are_told(&rt, rt.alloc(), &AT_THE_ROOT)
}

#[test]
fn faults_inside(rt: HostRuntime) -> Result<(), Fail> {
    are_told(&rt, rt.alloc(), &INSIDE)
}
