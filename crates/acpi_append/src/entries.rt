ghost use Rattle.std.specs.Prelude.{◌≤◌, OnOk};
ghost use Rattle.std.specs.List.{AllByRecursion};
ghost use Rattle.vt_layout.specs.Rows.{IsRow, IsPlain, size};
ghost use Rattle.vt_layout.specs.Entries.{Known, Other};
ghost use Rattle.vt_layout.specs.Fields.{numbered_rows};
ghost use Rattle.acpi_append.specs.EntryPut.{IsEntryPut};

use std::alloc::Global;
use vt_layout::{Laid, Row, entry_head, put_rows, rows_of};
use vt_outside::{Bytes, OutOfMemory};

/// Appends the entry of type `kind` with the rows of `laid` to `bytes`, with its exact length. The rows are at most 253 bytes, and have
/// no pointers and no sums. They take their memory from `alloc` for as long as the call takes. Returns `OutOfMemory` when memory runs
/// out; what `bytes` then holds is unspecified.
pub(crate) fn put_entry<T: Laid>(
    bytes: &mut Bytes,
    alloc: Global,
    kind: u8,
    laid: &T,
) -> Result<(), OutOfMemory>
    requires few { size (numbered_rows (T.fields laid.now)) ≤ 253 }
    requires plain { AllByRecursion IsPlain (numbered_rows (T.fields laid.now)) }
    ensures { OnOk result (IsEntryPut bytes.old bytes.new (Known kind (numbered_rows (T.fields laid.now)))) }
{
    let rows = rows_of(alloc, laid)?;
    put_rows(bytes, &entry_head(kind, rows.rows()))?;
    put_rows(bytes, rows.rows())
}

/// Appends an entry of type `kind`, of whose `length` bytes only that is known, at least 2. Zeros fill it. Returns `OutOfMemory` when
/// memory runs out; what `bytes` then holds is unspecified.
pub(crate) fn put_other(bytes: &mut Bytes, kind: u8, length: u8) -> Result<(), OutOfMemory>
    requires { 2 ≤ length }
    ensures { OnOk result (IsEntryPut bytes.old bytes.new (Other kind length)) }
{
    put_rows(
        bytes,
        &[
            Row::Number(1, u64::from(kind)),
            Row::Number(1, u64::from(length)),
            Row::Reserved(length - 2),
        ],
    )
}
