//! The keys of a machine's description, table by table, in the order in which they are walked.

use desc_schema::{Key, Kind, Otherwise, Scalar, TableSchema};

macro_rules! key {
    ($number:literal, $name:literal, $kind:expr, $otherwise:expr) => {
        Key {
            number: $number,
            name: $name,
            kind: $kind,
            otherwise: $otherwise,
        }
    };
}

macro_rules! text {
    ($number:literal, $name:literal) => {
        text!($number, $name, "")
    };
    ($number:literal, $name:literal, $default:literal) => {
        key!(
            $number,
            $name,
            Kind::One(Scalar::Text),
            Otherwise::Text($default)
        )
    };
}

macro_rules! number {
    ($number:literal, $name:literal, $most:literal) => {
        key!(
            $number,
            $name,
            Kind::One(Scalar::Number(0, $most)),
            Otherwise::Required
        )
    };
    ($number:literal, $name:literal, $most:literal, $default:literal) => {
        key!(
            $number,
            $name,
            Kind::One(Scalar::Number(0, $most)),
            Otherwise::Number($default)
        )
    };
}

macro_rules! flag {
    ($number:literal, $name:literal, $default:literal) => {
        key!(
            $number,
            $name,
            Kind::One(Scalar::Flag),
            Otherwise::Flag($default)
        )
    };
}

// A table that may be left out.
macro_rules! part {
    ($number:literal, $name:literal, $table:literal) => {
        key!($number, $name, Kind::Table($table), Otherwise::Empty)
    };
}

// An array of tables.
macro_rules! parts {
    ($number:literal, $name:literal, $table:literal) => {
        key!($number, $name, Kind::Tables($table), Otherwise::Empty)
    };
}

const VERSION: Kind = Kind::One(Scalar::Number(1, 1));

const ANY_U32: Kind = Kind::One(Scalar::Number(0, 0xFFFF_FFFF));

const UUID: Kind = Kind::One(Scalar::Uuid);

const BYTES: Kind = Kind::Values(Scalar::Number(0, 0xFF));

const TEXTS: Kind = Kind::Values(Scalar::Text);

const WINDOW_KIND: Kind = Kind::One(Scalar::Word(&["io", "mem32", "mem64"]));

// A line for each key, which begins with its number.
const ROOT: &[Key] = &[
    key!(0, "version", VERSION, Otherwise::Required),
    number!(1, "top_mib", 0xFFFF_FFFF),
    key!(2, "oem_strings", TEXTS, Otherwise::Empty),
    key!(3, "generation", UUID, Otherwise::Nothing),
    key!(4, "system", Kind::Table(1), Otherwise::Required),
    part!(5, "firmware", 2),
    part!(6, "chassis", 3),
    parts!(7, "socket", 4),
    parts!(8, "dimm", 5),
    parts!(9, "range", 6),
    parts!(10, "slot", 7),
    part!(11, "acpi", 8),
    part!(12, "power", 9),
    part!(13, "hpet", 10),
    part!(14, "apic", 11),
    parts!(15, "cpu", 12),
    parts!(16, "ioapic", 13),
    parts!(17, "override", 14),
    parts!(18, "nmi", 15),
    part!(19, "numa", 16),
    part!(20, "bridge", 17),
    parts!(21, "uart", 20),
];

const SYSTEM: &[Key] = &[
    text!(0, "manufacturer"),
    text!(1, "product"),
    text!(2, "version"),
    text!(3, "serial"),
    text!(4, "sku"),
    text!(5, "family"),
    key!(6, "uuid", UUID, Otherwise::Nothing),
];

const FIRMWARE: &[Key] = &[
    text!(0, "vendor"),
    text!(1, "version"),
    text!(2, "date"),
    number!(3, "major", 0xFF, 0),
    number!(4, "minor", 0xFF, 0),
];

const CHASSIS: &[Key] = &[
    text!(0, "manufacturer"),
    text!(1, "version"),
    text!(2, "serial"),
    text!(3, "asset"),
    text!(4, "sku"),
    number!(5, "kind", 0xFF, 1),
];

const SOCKET: &[Key] = &[
    text!(0, "designation"),
    text!(1, "manufacturer"),
    text!(2, "version"),
    text!(3, "serial"),
    text!(4, "asset"),
    text!(5, "part"),
    number!(6, "cores", 0xFFFF),
    number!(7, "threads", 0xFFFF),
    number!(8, "mhz", 0xFFFF, 0),
];

const DIMM: &[Key] = &[
    text!(0, "locator"),
    text!(1, "bank"),
    text!(2, "manufacturer"),
    text!(3, "serial"),
    text!(4, "asset"),
    text!(5, "part"),
    number!(6, "size_mib", 0xFFFF_FFFF),
    number!(7, "speed", 0xFFFF, 0),
];

const RANGE: &[Key] = &[
    number!(0, "base_mib", 0xFFFF_FFFF),
    number!(1, "size_mib", 0xFFFF_FFFF),
    number!(2, "node", 0xFF, 0),
];

const SLOT: &[Key] = &[
    text!(0, "designation"),
    number!(1, "kind", 0xFF, 1),
    number!(2, "width", 0xFF, 1),
    flag!(3, "used", false),
    number!(4, "id", 0xFFFF, 0),
    number!(5, "bus", 0xFF, 0),
    number!(6, "device", 0xFF, 0),
    number!(7, "function", 0xFF, 0),
];

const ACPI: &[Key] = &[
    text!(0, "oem_id", "BOCHS"),
    text!(1, "oem_table_id", "BXPC"),
];

const POWER: &[Key] = &[
    number!(0, "sci", 0xFFFF, 9),
    number!(1, "profile", 0xFF, 0),
    number!(2, "event", 0xFFFF),
    number!(3, "control", 0xFFFF),
    number!(4, "timer", 0xFFFF),
    number!(5, "gpe", 0xFFFF, 0),
    number!(6, "gpe_len", 0xFF, 0),
    number!(7, "reset", 0xFFFF, 0),
    number!(8, "reset_value", 0xFF, 0),
    number!(9, "century", 0xFF, 0),
    flag!(10, "rtc", true),
    flag!(11, "keyboard", true),
];

const HPET: &[Key] = &[
    number!(0, "address", 0xFFFF_FFFF, 0xFED0_0000),
    number!(1, "block_id", 0xFFFF_FFFF, 0x8086_A201),
    number!(2, "number", 0xFF, 0),
    number!(3, "min_tick", 0xFFFF, 100),
];

const APIC: &[Key] = &[
    number!(0, "local", 0xFFFF_FFFF, 0xFEE0_0000),
    flag!(1, "legacy", true),
];

const CPU: &[Key] = &[
    number!(0, "apic", 0xFFFF_FFFF),
    number!(1, "node", 0xFF, 0),
    flag!(2, "enabled", true),
];

const IO_APIC: &[Key] = &[
    number!(0, "id", 0xFF),
    number!(1, "address", 0xFFFF_FFFF),
    number!(2, "gsi", 0xFFFF_FFFF, 0),
];

const OVERRIDE: &[Key] = &[
    number!(0, "irq", 0xFF),
    number!(1, "gsi", 0xFFFF_FFFF),
    number!(2, "flags", 0xFFFF, 0),
];

const NMI: &[Key] = &[
    key!(0, "cpu", ANY_U32, Otherwise::Nothing),
    number!(1, "flags", 0xFFFF, 0),
    number!(2, "lint", 0xFF, 1),
];

const NUMA: &[Key] = &[
    number!(0, "nodes", 0xFF),
    key!(1, "distance", BYTES, Otherwise::Required),
];

const BRIDGE: &[Key] = &[
    number!(0, "ecam", 0x7FFF_FFFF_FFFF_FFFF, 0),
    number!(1, "last_bus", 0xFF, 255),
    parts!(2, "window", 18),
    parts!(3, "route", 19),
];

const WINDOW: &[Key] = &[
    key!(0, "kind", WINDOW_KIND, Otherwise::Required),
    number!(1, "base", 0x7FFF_FFFF_FFFF_FFFF),
    number!(2, "size", 0x7FFF_FFFF_FFFF_FFFF),
    flag!(3, "prefetch", false),
];

const ROUTE: &[Key] = &[
    number!(0, "device", 0xFF),
    number!(1, "pin", 0xFF),
    number!(2, "gsi", 0xFFFF_FFFF),
];

const UART: &[Key] = &[number!(0, "port", 0xFFFF), number!(1, "irq", 0xFF)];

// A table's number is its place here.
pub(crate) const SCHEMA: &[TableSchema] = &[
    TableSchema { keys: ROOT },
    TableSchema { keys: SYSTEM },
    TableSchema { keys: FIRMWARE },
    TableSchema { keys: CHASSIS },
    TableSchema { keys: SOCKET },
    TableSchema { keys: DIMM },
    TableSchema { keys: RANGE },
    TableSchema { keys: SLOT },
    TableSchema { keys: ACPI },
    TableSchema { keys: POWER },
    TableSchema { keys: HPET },
    TableSchema { keys: APIC },
    TableSchema { keys: CPU },
    TableSchema { keys: IO_APIC },
    TableSchema { keys: OVERRIDE },
    TableSchema { keys: NMI },
    TableSchema { keys: NUMA },
    TableSchema { keys: BRIDGE },
    TableSchema { keys: WINDOW },
    TableSchema { keys: ROUTE },
    TableSchema { keys: UART },
];
