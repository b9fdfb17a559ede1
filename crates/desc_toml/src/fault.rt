ghost use Rattle.std.specs.Prelude.{◌≡◌};
ghost use Rattle.desc_toml.specs.Reading.{told};
ghost use Rattle.desc_toml.specs.declared.fault.DescFault.TheVariants.{OutOfMemory as NoMemory};

use desc_schema::{KeyPlace, Place, WalkFault};
use vt_outside::{OutOfMemory, Text};

/// Says why bytes weren't read as a machine. Each fault is the first one of the bytes. A table is named by its number (0 for the
/// root, 1 for `system`, 2 for `firmware`, 3 for `chassis`, 4 for `socket`, 5 for `dimm`, 6 for `range`, 7 for `slot`, 8 for `acpi`, 9 for
/// `power`, 10 for `hpet`, 11 for `apic`, 12 for `cpu`, 13 for `ioapic`, 14 for `override`, 15 for `nmi`, 16 for `numa`, 17 for `bridge`,
/// 18 for its `window`, 19 for its `route`, 20 for `uart`), and a key of it by its number: each table's keys are numbered from 0 in the
/// order of docs/FORMATS.md. `index` is the table's place in its array, counted from 0, and 0 for a table that is no element of an array. A
/// fault of a table as a whole is one at the key of the table that it stands in.
#[derive(Debug, Drop)]
pub enum DescFault {
    /// The bytes aren't UTF-8, or no TOML document.
    NotToml,
    /// The table has a key that isn't one of its keys; of these it is the least by its bytes, which are given.
    UnknownKey { table: u8, index: u32, key: Text },
    /// A key that must be there is left out.
    MissingKey { table: u8, index: u32, key: u8 },
    /// What stands at a key, or an element of its array, is of another kind than the key's.
    WrongKind { table: u8, index: u32, key: u8 },
    /// An integer isn't within the key's limits, or a text is no UUID.
    OutOfRange { table: u8, index: u32, key: u8 },
    /// The machine breaks the rule of this number, at this least index, and none before it; `Machine::check` says what each rule
    /// asks.
    Broken { rule: u16, index: u32 },
    /// Memory ran out, which may be at any bytes.
    OutOfMemory,
}

impl From<OutOfMemory> for DescFault {
    ghost from_gives = { λ _ fault. fault ≡ NoMemory };

    fn from(_fault: OutOfMemory) -> DescFault {
        DescFault::OutOfMemory
    }
}

// The fault of a walk, as the reader tells it.
pub(crate) fn told(fault: WalkFault) -> DescFault
    ensures { result ≡ told fault }
{
    match fault {
        WalkFault::UnknownKey(Place { table, index }, key) => DescFault::UnknownKey {
            table,
            index,
            key,
        },
        WalkFault::MissingKey(KeyPlace { table, index, key }) => DescFault::MissingKey {
            table,
            index,
            key,
        },
        WalkFault::WrongKind(KeyPlace { table, index, key }) => DescFault::WrongKind {
            table,
            index,
            key,
        },
        WalkFault::OutOfRange(KeyPlace { table, index, key }) => DescFault::OutOfRange {
            table,
            index,
            key,
        },
    }
}
