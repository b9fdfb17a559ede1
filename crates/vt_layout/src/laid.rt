ghost use Rattle.std.specs.Prelude.{◌≡◌, ℕ, min, length, List, IfOk};
ghost use Rattle.vt_layout.specs.declared.value.Value.{Value};
ghost use Rattle.vt_layout.specs.Values.{skip};
ghost use Rattle.vt_layout.specs.Strings.{with_nuls};
ghost use Rattle.vt_layout.specs.Fields.{Field, all_added, field_texts, field_bytes, field_strings, numbered_rows, most_counted};
ghost use Rattle.vt_layout.specs.Records.{IsLawful};

use crate::record_size::RecordSize;
use crate::row_list::RowList;
use crate::value::Values;
use std::alloc::Global;
use vt_outside::OutOfMemory;

/// A record, or a part of one, that stands in bytes by rows: it puts its rows, and is taken from the values that a reader takes of
/// such rows, one value of each row.
///
/// An `impl` says the same as definitions, `fields` and `made`, where a value goes by the place of its row. Its law computes, so it
/// is proved by `refl`, whatever the record holds. A part is put by its own `put`, taken by its own `take`, and its fields stand among
/// those of the whole.
pub trait Laid: Drop {
    /// How many rows it has.
    const ROWS: u8;

    ghost ROWS: { ℕ };

    // What it says, in the order of its rows.
    ghost fields: { Self → List Field };

    // What is made of the values of its rows.
    ghost made: { List Value → Self };

    /// Adds its rows and its texts at the end of `rows`.
    fn put<'a>(&'a self, rows: &mut RowList<'a>)
        ensures { rows.new ≡ all_added (fields self.now) rows.old };

    /// Takes it from the front of `values`, of which one value is taken for each row.
    fn take(values: &mut Values) -> Self
        ensures made { result ≡ made values.old }
        ensures left { values.new ≡ skip ROWS values.old };

    ghost lawful: { (t u : Self) → IsLawful ROWS fields made t u };
}

/// Returns the rows of `laid` and its texts, which are numbered in their order. The memory is taken from `alloc`. Returns
/// `OutOfMemory` when memory runs out.
pub fn rows_of<'a, T: Laid>(alloc: Global, laid: &'a T) -> Result<RowList<'a>, OutOfMemory>
    ensures rows { IfOk result (λ list. list.rows ≡ numbered_rows (T.fields laid.now)) }
    ensures texts { IfOk result (λ list. list.texts ≡ field_texts (T.fields laid.now)) }
{
    let mut rows = RowList::with_room(alloc, T::ROWS)?;
    laid.put(&mut rows);
    Ok(rows)
}

/// Returns how many bytes the rows and the strings of `laid` have, each number at most the greatest `usize`. None are written, and no
/// memory is taken from `alloc`.
pub fn record_size_of<T: Laid>(alloc: Global, laid: &T) -> RecordSize
    ensures area { result.area ≡ min (length (field_bytes (T.fields laid.now))) most_counted }
    ensures strings { result.strings ≡ min (length (with_nuls (field_strings (T.fields laid.now)))) most_counted }
{
    let mut rows = RowList::without_room(alloc);
    laid.put(&mut rows);
    rows.size()
}
