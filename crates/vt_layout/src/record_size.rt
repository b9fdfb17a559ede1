ghost use Rattle.std.specs.Prelude.{◌≡◌};
ghost use Rattle.vt_layout.specs.Rows.{IsRow};
ghost use Rattle.vt_layout.specs.Fields.{Plain, Text as TextField, with_size};

use crate::row::Row;
use vt_outside::Text;

/// How many bytes a record has, each number at most the greatest `usize`.
#[derive(Clone, Copy, Debug, PartialEq, Eq)]
pub struct RecordSize {
    /// Those of its rows.
    pub area: usize,
    /// Those of its strings, the texts that aren't empty, each with its NUL.
    pub strings: usize,
}

impl RecordSize {
    /// Counts `row`, whose value must fit it, too.
    pub(crate) fn with_row(self, row: &Row) -> RecordSize
        requires { IsRow row.now }
        ensures { result ≡ with_size (Plain row.now) self }
    {
        RecordSize {
            area: self.area.saturating_add(row.width() as usize),
            strings: self.strings,
        }
    }

    /// Counts the row of the number of `text` too, and the string that it is where it isn't empty.
    pub(crate) fn with_text(self, text: &Text) -> RecordSize
        ensures { result ≡ with_size (TextField text.now) self }
    {
        let area = self.area.saturating_add(1);
        let strings = if text.len() == 0 {
            self.strings
        } else {
            self.strings.saturating_add(text.len()).saturating_add(1)
        };
        RecordSize { area, strings }
    }
}
