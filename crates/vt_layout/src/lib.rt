//! Layouts as rows: how tables, structures, commands and entries of a directory stand in bytes, each said once.
//!
//! A layout is a list of rows: so many bytes, and what stands there. Contracts say which bytes rows are written as, and the laws
//! what a reader of any memory finds: rows that are held as they were written are shown, and rows of one shape that are shown at
//! one address are the same. The laws hold of entries of a type and a length, one after the other, and of rows that a short layout
//! lacks, too. What stands in bytes is read at the rows of a layout, each by its index, so that no offset is written.
//!
//! A record says its rows and its texts once more as code, and how it is taken of the values that a reader takes of such rows
//! ([`Laid`]). One loop reads all of them: contracts say exactly which record stands at the front of an area, or the first reason
//! why none does. The laws say that it stands there, that at most one does, and that what was written is read.
#![tactic(auto)]

mod entry;
pub mod entry_laws;
mod laid;
pub mod laws;
mod named;
mod pointer_size;
mod reading;
pub mod record_laws;
mod record_reader;
mod record_size;
mod row;
mod row_list;
mod row_value;
mod short_bytes;
mod value;
mod writing;

pub use entry::entry_head;
pub use laid::{Laid, record_size_of, rows_of};
pub use pointer_size::is_pointer_size;
pub use reading::{blank_name, read_bytes, read_name, read_u8, read_u16, read_u32, read_u64};
pub use record_reader::{RecordFault, RecordReader, read, read_plain};
pub use record_size::RecordSize;
pub use row::{Row, size_of};
pub use row_list::RowList;
pub use short_bytes::ShortBytes;
pub use value::{Value, Values};
pub use writing::{put_row, put_rows};
