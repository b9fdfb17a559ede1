//! Laws over the definitions, each the contract of a function that does nothing.

ghost use Rattle.std.specs.Prelude.{◌≡◌, ℕ, ◌↔◌, true, List, ◌++◌, length, drop, Some};
ghost use Rattle.std.specs.List.Sorted.{IsPermutation};
ghost use Rattle.word_schema.specs.declared.value.Value.{Value as AValue};
ghost use Rattle.word_schema.specs.Fits.{fits, is_sound};
ghost use Rattle.word_schema.specs.Forms.{Row, Schema};
ghost use Rattle.word_schema.specs.Given.{Given, are_compatible, given_by, have_what_they_need, values_of};
ghost use Rattle.word_schema.specs.Spelled.{AreSpelled};
ghost use Rattle.word_schema.specs.Written.{given_for, written};

/// States that words say the same in whatever order their options stand behind the operands.
pub fn options_stand_in_any_order()
    ensures { (schema : Schema) (front words others : List (List ℕ)) (given moved : List Given) → length front ≡ length schema.operands
        → given_by schema.options words ≡ Some given → given_by schema.options others ≡ Some moved → IsPermutation given moved
        → values_of schema (front ++ words) ≡ values_of schema (front ++ others) }
{}

/// States that words are options exactly where they are the words of these options, one option after the other.
pub fn options_are_spelled()
    ensures { (rows : List Row) (words : List (List ℕ)) (given : List Given) → (given_by rows words ≡ Some given) ↔ AreSpelled rows words given }
{}

/// States that the values that words say fit the rows of a sound schema.
pub fn read_values_fit()
    ensures { (schema : Schema) (words : List (List ℕ)) (values : List AValue) → is_sound schema ≡ true → values_of schema words ≡ Some values
        → fits schema values ≡ true }
{}

/// States that values that fit a sound schema are what the words say that are written of them, where of the options whose values aren't
/// their defaults no two exclude each other, and where what one of them needs is among them.
pub fn written_values_are_read()
    ensures { (schema : Schema) (values : List AValue) → is_sound schema ≡ true → fits schema values ≡ true
        → are_compatible schema.exclusive (given_for schema.options (drop (length schema.operands) values)) ≡ true
        → have_what_they_need schema.needs (given_for schema.options (drop (length schema.operands) values)) ≡ true
        → values_of schema (written schema values) ≡ Some values }
{}
