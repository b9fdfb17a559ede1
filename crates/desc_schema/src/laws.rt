//! Laws of the walk. Each is the contract of a function that does nothing.

ghost use Rattle.std.specs.Prelude.{◌≡◌, ℕ, List, Err};
ghost use Rattle.toml.specs.Data.{Members};
ghost use Rattle.desc_schema.specs.declared.fault.Place.{Place};
ghost use Rattle.desc_schema.specs.declared.fault.WalkFault.TheVariants.{UnknownKey};
ghost use Rattle.desc_schema.specs.Form.{Field};
ghost use Rattle.desc_schema.specs.Names.{NumbersAscend, NumbersAreNames};
ghost use Rattle.desc_schema.specs.Walk.{all_known, IsLeastUnknown};
ghost use Rattle.desc_schema.specs.Says.{WalkGivesWhatIsSaid};
ghost use Rattle.desc_schema.specs.Fits.{WalkedValuesFit};
ghost use Rattle.desc_schema.specs.Written.{IsReadBack, hyphenated, WrittenValuesAreWalked};
ghost use Rattle.desc_schema.specs.Written.{WrittenDocumentsAreShallow, WrittenDocumentsHaveValidDates};

/// Says that the unknown key that a walk names is the least of its table's by its bytes: it is one of them, it isn't the schema's,
/// and no other such key comes before it.
pub fn least_unknown_key_is_named()
    ensures { (place : Place) (fields : List Field) (table : Members) (name : List ℕ) → all_known place fields table ≡ Err (UnknownKey place name)
        → IsLeastUnknown fields name table }
{}

/// Says that the number of a key is of that key alone, where in each table of the schema the numbers of the keys ascend: it names that key.
pub fn keys_are_named_by_their_numbers()
    ensures { (schema : List (List Field)) → NumbersAscend schema → NumbersAreNames schema }
{}

/// Says that a walk gives values exactly where the document's tables say them, key by key, whatever the schema.
pub fn walk_gives_what_is_said()
    ensures { WalkGivesWhatIsSaid }
{}

/// Says that the values that a walk gives fit their kinds, key by key: a number lies within its limits, a word's place is that of
/// one of its words, a count is followed by so many tables or values; or they are what stands where a key is left out.
pub fn walked_values_fit()
    ensures { WalkedValuesFit }
{}

/// Says that the document that is written of values, in the schema's order, is walked as these values again, however UUIDs are
/// spelled so that they are read back. The values fit the schema, whose names and words differ, whose numbers are integers of TOML, and
/// whose defaults are of their kind.
pub fn written_values_are_walked()
    ensures { WrittenValuesAreWalked }
{}

/// Says that in the document that is written of values, whatever they are, tables and arrays are inside one another at most twice as
/// deep as the schema has tables, so that a reader of TOML with a limit on depth takes it.
pub fn written_documents_are_shallow()
    ensures { WrittenDocumentsAreShallow }
{}

/// Says that the document that is written of values, whatever they are, has no date-time that a text of TOML can't have, so that it
/// can always be printed.
pub fn written_documents_have_valid_dates()
    ensures { WrittenDocumentsHaveValidDates }
{}

/// Says that a UUID that is spelled in the hyphenated form, in lower case (RFC 9562, section 4), is read back.
pub fn hyphenated_uuids_are_read_back()
    ensures { IsReadBack hyphenated }
{}
