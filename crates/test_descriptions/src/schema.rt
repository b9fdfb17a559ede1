//! The schema by which the tests walk documents.

use desc_schema::{Key, Kind, Otherwise, Scalar, TableSchema};

// A schema with each kind of value at the root, a table, an array of tables, and arrays of tables inside one another. Some numbers are no
// key's, and one is the greatest.
pub(crate) static SCHEMA: &[TableSchema] = &[
    TableSchema { keys: ROOT },
    TableSchema { keys: SYSTEM },
    TableSchema { keys: BRIDGE },
    TableSchema { keys: WINDOW },
];

const ROOT: &[Key] = &[
    Key {
        number: 0,
        name: "version",
        kind: Kind::One(Scalar::Number(1, 1)),
        otherwise: Otherwise::Required,
    },
    Key {
        number: 1,
        name: "name",
        kind: Kind::One(Scalar::Text),
        otherwise: Otherwise::Text("vm"),
    },
    Key {
        number: 2,
        name: "id",
        kind: Kind::One(Scalar::Uuid),
        otherwise: Otherwise::Nothing,
    },
    Key {
        number: 3,
        name: "fast",
        kind: Kind::One(Scalar::Flag),
        otherwise: Otherwise::Flag(true),
    },
    Key {
        number: 4,
        name: "mode",
        kind: Kind::One(Scalar::Word(&["io", "mem32", "mem64"])),
        otherwise: Otherwise::Word(1),
    },
    Key {
        number: 6,
        name: "cpu",
        kind: Kind::One(Scalar::Number(0, 0xFFFF_FFFF)),
        otherwise: Otherwise::Nothing,
    },
    Key {
        number: 7,
        name: "tags",
        kind: Kind::Values(Scalar::Text),
        otherwise: Otherwise::Empty,
    },
    Key {
        number: 8,
        name: "distance",
        kind: Kind::Values(Scalar::Number(10, 255)),
        otherwise: Otherwise::Empty,
    },
    Key {
        number: 10,
        name: "system",
        kind: Kind::Table(1),
        otherwise: Otherwise::Empty,
    },
    Key {
        number: 255,
        name: "bridge",
        kind: Kind::Tables(2),
        otherwise: Otherwise::Empty,
    },
];

const SYSTEM: &[Key] = &[
    Key {
        number: 0,
        name: "serial",
        kind: Kind::One(Scalar::Text),
        otherwise: Otherwise::Text(""),
    },
    Key {
        number: 3,
        name: "cores",
        kind: Kind::One(Scalar::Number(1, 255)),
        otherwise: Otherwise::Required,
    },
];

const BRIDGE: &[Key] = &[
    Key {
        number: 1,
        name: "last_bus",
        kind: Kind::One(Scalar::Number(0, 255)),
        otherwise: Otherwise::Number(255),
    },
    Key {
        number: 2,
        name: "window",
        kind: Kind::Tables(3),
        otherwise: Otherwise::Empty,
    },
];

const WINDOW: &[Key] = &[
    Key {
        number: 0,
        name: "kind",
        kind: Kind::One(Scalar::Word(&["io", "mem32", "mem64"])),
        otherwise: Otherwise::Required,
    },
    Key {
        number: 1,
        name: "base",
        kind: Kind::One(Scalar::Number(0, 0xFFFF)),
        otherwise: Otherwise::Number(0),
    },
    Key {
        number: 2,
        name: "ports",
        kind: Kind::Values(Scalar::Number(0, 7)),
        otherwise: Otherwise::Empty,
    },
];
