ghost use Rattle.std.specs.Prelude.{◌≡◌, ◌↔◌, IsTrue, IfOk, map, option_map};

use crate::same::{Same, are_all_same};
use std::alloc::Global;
use vt_layout::{Laid, Row, RowList, rows_of};
use vt_outside::{OutOfMemory, Text};

/// Tells whether two records are equal: they say the same in each row, and have the same texts. Memory for the rows of both is taken from
/// `alloc`. Returns `OutOfMemory` when memory runs out.
pub(crate) fn are_same_records<T: Laid>(
    alloc: Global,
    left: &T,
    right: &T,
) -> Result<bool, OutOfMemory>
    ensures { IfOk result (λ same. IsTrue same ↔ (left.now ≡ right.now)) }
{
    let rows = rows_of(alloc, left)?;
    let others = rows_of(alloc, right)?;
    Ok(are_same_lists(&rows, &others))
}

/// Tells whether two records are equal that need not be there: neither is, or both are and are equal. Memory is taken from `alloc` as for
/// [`are_same_records`]. Returns `OutOfMemory` when memory runs out.
pub(crate) fn are_both_same_records<T: Laid>(
    alloc: Global,
    left: Option<&T>,
    right: Option<&T>,
) -> Result<bool, OutOfMemory>
    ensures { IfOk result (λ same. IsTrue same ↔ (option_map (λ part. part.now) left.entry ≡ option_map (λ part. part.now) right.entry)) }
{
    match (left, right) {
        (Some(left), Some(right)) => are_same_records(alloc, left, right),
        (None, None) => Ok(true),
        _ => Ok(false),
    }
}

// Whether the rows of two records are equal, and their texts.
fn are_same_lists(left: &RowList, right: &RowList) -> bool
    ensures { IsTrue result ↔ ((left.now.rows ≡ right.now.rows) × (left.now.texts ≡ right.now.texts)) }
{
    are_all_same(left.rows(), right.rows()) && are_same_texts(left.texts(), right.texts())
}

// Whether two lists of texts are equal, text by text.
fn are_same_texts(left: &[&Text], right: &[&Text]) -> bool
    ensures { IsTrue result ↔ (map (λ text. text.now) left.now ≡ map (λ text. text.now) right.now) }
{
    if left.len() != right.len() {
        return false;
    }
    for (at, text) in left.iter().enumerate() {
        if !text.is_same(right[at]) {
            return false;
        }
    }
    true
}

impl Same for Text {
    fn is_same(&self, other: &Text) -> bool {
        self.as_slice() == other.as_slice()
    }
}

impl Same for Row {
    fn is_same(&self, other: &Row) -> bool {
        match (self, other) {
            (Row::Number(width, value), Row::Number(other_width, other))
            | (Row::BigEndian(width, value), Row::BigEndian(other_width, other))
            | (Row::Ignored(width, value), Row::Ignored(other_width, other)) => {
                width == other_width && value == other
            }
            (Row::Bytes(width, bytes), Row::Bytes(other_width, other)) => {
                width == other_width && bytes.as_slice() == other.as_slice()
            }
            (Row::Named(name), Row::Named(other)) => name == other,
            (Row::StringNumber(number), Row::StringNumber(other)) => number == other,
            (Row::Reserved(width), Row::Reserved(other)) => width == other,
            (Row::Pointer(width, target, offset), Row::Pointer(other_width, other, other_offset)) =>
                { width == other_width && target == other && offset == other_offset }
            (Row::Sum(covers), Row::Sum(other)) => covers == other,
            _ => false,
        }
    }
}
