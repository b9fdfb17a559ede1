ghost use Rattle.std.specs.Prelude.{◌≡◌};
ghost use Rattle.desc_schema.specs.Faults.{key_at};
ghost use Rattle.desc_schema.specs.declared.fault.WalkError.TheVariants.{OutOfMemory as NoMemory};

use vt_outside::{OutOfMemory, Text};

/// Says where a table stands: its number in the schema, and its position among the elements of that number, counted from 0 through
/// all arrays that hold such tables, in order, up to the last value of a u32. A table that is no element has the position 0.
#[derive(Clone, Copy, Debug, PartialEq, Eq)]
pub struct Place {
    /// Gives the table's number.
    pub table: u8,
    /// Gives the element's position.
    pub index: u32,
}

impl Place {
    /// Returns the place of the key of this number in the table.
    pub(crate) fn key(self, number: u8) -> KeyPlace
        ensures { result ≡ key_at self number }
    {
        KeyPlace {
            table: self.table,
            index: self.index,
            key: number,
        }
    }
}

/// Says where a key stands: its table's number and position, as a `Place`, and the key's number, as `Key::number`.
#[derive(Clone, Copy, Debug, PartialEq, Eq)]
pub struct KeyPlace {
    /// Gives the table's number.
    pub table: u8,
    /// Gives the element's position.
    pub index: u32,
    /// Gives the key's number.
    pub key: u8,
}

/// Names the first fault of a walk. A fault of an inner table as a whole is one at the key of the table that it stands in.
#[derive(Debug, Drop)]
pub enum WalkFault {
    /// A key of the table isn't the schema's; it is the least of these by its bytes, which are given.
    UnknownKey(Place, Text),
    /// A key that must be there is left out.
    MissingKey(KeyPlace),
    /// What stands at a key, or an element of its array, is of another kind than the schema's.
    WrongKind(KeyPlace),
    /// An integer isn't within the key's limits, a text is no UUID, or it is none of the key's words.
    OutOfRange(KeyPlace),
}

/// Says why a walk gave no values.
#[derive(Debug, Drop)]
pub enum WalkError {
    /// Memory ran out, which may be at any document.
    OutOfMemory,
    /// The document has this fault, and none before it.
    Fault(WalkFault),
}

impl From<OutOfMemory> for WalkError {
    ghost from_gives = { λ _ error. error ≡ NoMemory };

    fn from(_fault: OutOfMemory) -> WalkError {
        WalkError::OutOfMemory
    }
}
