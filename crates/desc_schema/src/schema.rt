ghost use Rattle.std.specs.Prelude.{◌≡◌};
ghost use Rattle.desc_schema.specs.Form.{fields_of, schema_of, fields_at};

/// Says which keys a table has, in the order in which they are walked. A schema is a slice of these, and a table's number is its
/// place there, counted from 0; the root is table 0.
#[derive(Clone, Copy, Debug)]
pub struct TableSchema {
    /// Lists the keys. Their names differ, and so do their numbers.
    pub keys: &'static [Key],
}

/// Describes a key of a table: its number and its name, the kind of what stands there, and what stands for it where it is left out.
#[derive(Clone, Copy, Debug)]
pub struct Key {
    /// Gives the number by which faults tell it. It needn't be its place among the keys, so that a key that comes later changes no
    /// other's number.
    pub number: u8,
    /// Gives the key as it stands in a document.
    pub name: &'static str,
    /// Says what stands there.
    pub kind: Kind,
    /// Says what stands for it where it is left out: a value of its kind, `Nothing`, or `Empty` for a table or an array.
    pub otherwise: Otherwise,
}

/// Says what stands at a key.
#[derive(Clone, Copy, Debug)]
pub enum Kind {
    /// A single value.
    One(Scalar),
    /// A table, whose keys are those of the table of this number.
    Table(u8),
    /// An array of such tables.
    Tables(u8),
    /// An array of single values.
    Values(Scalar),
}

/// Says what a single value is to be.
#[derive(Clone, Copy, Debug)]
pub enum Scalar {
    /// A text: a string of TOML.
    Text,
    /// An integer from the first number to the second, both included.
    Number(u64, u64),
    /// A boolean.
    Flag,
    /// A string that is the text of a UUID (RFC 9562, section 4), in one of the forms that the crate `uuid` reads.
    Uuid,
    /// A string that is one of these words.
    Word(&'static [&'static str]),
}

/// Says what stands for a key that is left out.
#[derive(Clone, Copy, Debug)]
pub enum Otherwise {
    /// Nothing may: the key must be there.
    Required,
    /// This text.
    Text(&'static str),
    /// This number.
    Number(u64),
    /// This boolean.
    Flag(bool),
    /// The word at this place of the key's words, counted from 0.
    Word(usize),
    /// No value: the key is optional.
    Nothing,
    /// No table, or an empty array.
    Empty,
}

/// Returns the keys of a table, by its number; a table that isn't the schema's has none.
pub(crate) fn keys_at(schema: &[TableSchema], table: u8) -> &'static [Key]
    ensures { fields_of result.now ≡ fields_at (schema_of schema.now) table }
{
    match schema.get(table as usize) {
        Some(table) => table.keys,
        None => &[],
    }
}
