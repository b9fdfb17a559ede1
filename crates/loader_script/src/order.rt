//! The order of the files' names, in which a search finds a file.

ghost use Rattle.std.specs.Prelude.{◌≡◌, List, IfOk};
ghost use Rattle.std.specs.List.{AllByRecursion, position};
ghost use Rattle.std.specs.Str.{bytes_eq};
ghost use Rattle.vt_outside.specs.Name.{IsName};
ghost use Rattle.loader_script.specs.declared.refusing.FileInfo.{FileInfo as Info};
ghost use Rattle.loader_script.specs.Refusal.{AreDistinct};
ghost use Rattle.loader_script.specs.Order.{IsOrderOf, rows_from};

use crate::refusing::FileInfo;
use std::alloc::Global;
use vt_outside::{Name, OutOfMemory};

/// Finds a file of a directory by its name, in as many comparisons as the number of files has binary digits, or one more.
#[derive(Drop)]
pub struct NameOrder {
    // The files by their names' bytes.
    rows: Vec<NameRow>,
}

// A file of the directory: its name in the field of 56 bytes, which orders it as the name does, and its index.
#[derive(Clone, Copy)]
struct NameRow {
    field: [u8; 56],
    index: usize,
}

impl NameOrder {
    /// Makes the order of `files`, a directory's. It sorts them once. Room for a row of 64 bytes for each file comes from `alloc`.
    /// Returns `OutOfMemory` when memory runs out.
    pub fn of(alloc: Global, files: &[FileInfo]) -> Result<NameOrder, OutOfMemory>
        ensures { IfOk result (IsOrderOf files.now) }
    {
        let mut rows = rows_of(alloc, files)?;
        rows.sort_unstable_by_key(
            |row|
                ensures { result ≡ row.now.field }
            { row.field },
        );
        Ok(NameOrder { rows })
    }

    /// Returns the index of the file `name` in the files whose order this is, or `None` where no file has that name. The names of the
    /// files differ. It takes no memory.
    pub fn index_of(&self, name: &Name) -> Option<usize>
        ensures { (files : List Info) → IsOrderOf files self.now → AreDistinct files
            → result ≡ position (λ file. bytes_eq file.name name.now) files }
    {
        let at = self
            .rows
            .binary_search_by_key(
                &name.bytes(),
                |row|
                    ensures { result ≡ row.now.field }
                { row.field },
            )
            .ok()?;
        Some(self.rows[at].index)
    }
}

// A row for each file, in the order of the directory.
fn rows_of(alloc: Global, files: &[FileInfo]) -> Result<Vec<NameRow>, OutOfMemory>
    ensures rows { IfOk result (λ rows. rows.items ≡ rows_from 0 files.now) }
    ensures names { IfOk result (λ rows. AllByRecursion (λ file. IsName file.name) files.now) }
{
    let mut rows = Vec::with_capacity(alloc, files.len())?;
    for file in files {
        let index = rows.len();
        rows.push_reserved(NameRow {
            field: file.name.bytes(),
            index,
        });
    }
    Ok(rows)
}
