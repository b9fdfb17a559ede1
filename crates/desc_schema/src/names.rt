ghost use Rattle.std.specs.Prelude.{◌≡◌};
ghost use Rattle.desc_schema.specs.Form.{fields_of, schema_of};
ghost use Rattle.desc_schema.specs.Names.{name_of, key_name};

use crate::schema::{Key, TableSchema, keys_at};

/// Returns the name of the key that has `number` in the table of number `table`, as a fault of a walk by `schema` tells both, or the
/// empty string where there is no such key.
pub fn key_name(schema: &[TableSchema], table: u8, number: u8) -> &'static str
    ensures { result.now ≡ key_name (schema_of schema.now) table number }
{
    name_of(keys_at(schema, table), number)
}

// The name of the key that has the number.
fn name_of(keys: &[Key], number: u8) -> &'static str
    ensures { result.now ≡ name_of (fields_of keys.now) number }
{
    match keys.iter().find(|key| key.number == number) {
        Some(key) => key.name,
        None => "",
    }
}
