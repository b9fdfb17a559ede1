ghost use Rattle.std.specs.Prelude.{◌≡◌, ◌≤◌, ◌⊎◌, [], length, Ok, Err, IfOk, IfErr, OnOk};
ghost use Rattle.vt_layout.specs.declared.record_reader.RecordFault.TheVariants.{OutOfMemory as NoMemory};
ghost use Rattle.vt_layout.specs.Rows.{size};
ghost use Rattle.vt_layout.specs.Reading.{rows_in};
ghost use Rattle.vt_layout.specs.Values.{values_of};
ghost use Rattle.vt_layout.specs.Fields.{field_rows, field_texts};
ghost use Rattle.vt_layout.specs.Records.{values_said, record_in};

use crate::laid::{Laid, rows_of};
use crate::row::{Row, size_of};
use crate::row_value::read_value;
use crate::value::Values;
use std::alloc::Global;
use std::marker::{Model, PhantomData};
use vt_outside::{OutOfMemory, Text};

/// Why no record stands at the front of an area.
#[derive(Clone, Copy, Debug, PartialEq, Eq)]
pub enum RecordFault {
    /// The area is shorter than the record's rows.
    TooShort,
    /// There is no string of this number.
    NoSuchString(u8),
    /// Memory ran out.
    OutOfMemory,
}

impl From<OutOfMemory> for RecordFault {
    ghost from_gives = { λ _ fault. fault ≡ NoMemory };

    fn from(_fault: OutOfMemory) -> RecordFault {
        RecordFault::OutOfMemory
    }
}

/// Reads records of one type, one after the other. The rows by which they are read are made once, and so is the room for a record's
/// values, so that a record without texts takes no memory.
#[derive(Drop)]
pub struct RecordReader<T: Laid> {
    alloc: Global,
    // Those of a record that is made of no values.
    kinds: Vec<Row>,
    // The values of the record that is read.
    values: Values,
    of: PhantomData<T>,
}

impl<T: Laid> Model for RecordReader<T> {
    ghost use Rattle.std.specs.Prelude.{◌≡◌};
    ghost use Rattle.vt_layout.specs.Records.{kinds_of};

    ghost Value = { Unit {0} };

    ghost view = { λ _. tt };

    ghost invariant = { λ r. r.kinds.items ≡ kinds_of T.fields T.made };
}

impl<T: Laid> RecordReader<T> {
    /// Makes a reader, in memory from `alloc`, from which the texts of the records will take theirs. Returns `OutOfMemory` when memory
    /// runs out.
    pub fn new(alloc: Global) -> Result<RecordReader<T>, OutOfMemory> {
        let mut values = Values::new(alloc);
        let blank = T::take(&mut values);
        let kinds = rows_of(alloc, &blank)?.into_rows();
        Ok(RecordReader {
            alloc,
            kinds,
            values,
            of: PhantomData,
        })
    }

    /// Reads the record that stands at the front of `area`, whose texts are copies of `strings`, by their numbers. What follows its
    /// rows isn't looked at.
    ///
    /// The error is the first that applies: `TooShort` if the area is shorter than the record's rows, `NoSuchString` with the first
    /// number that names no string, and `OutOfMemory` when memory runs out. The reader can be used again after any.
    pub fn read(&mut self, area: &[u8], strings: &[Text]) -> Result<T, RecordFault>
        ensures ok { IfOk result (λ t. record_in T.fields T.made area.now strings.now ≡ Ok t) }
        ensures err { IfErr result (λ fault. (fault ≡ NoMemory) ⊎ (record_in T.fields T.made area.now strings.now ≡ Err fault)) }
    {
        if area.len() < size_of(self.kinds.as_slice()) as usize {
            return Err(RecordFault::TooShort);
        }
        self.values.clear();
        read_values(
            self.alloc,
            &mut self.values,
            self.kinds.as_slice(),
            area,
            strings,
        )?;
        Ok(T::take(&mut self.values))
    }

    /// Reads the record that stands at the front of `area`, as [`RecordReader::read`] does, where no record of its type has texts and
    /// `area` reaches to the end of its rows. Returns `OutOfMemory` when memory runs out. The reader can be used again after it.
    pub fn read_plain(&mut self, area: &[u8]) -> Result<T, OutOfMemory>
        requires textless { field_texts (T.fields (T.made [])) ≡ [] }
        requires whole { size (field_rows (T.fields (T.made []))) ≤ length area.now }
        ensures { IfOk result (λ t. t ≡ T.made (values_of (rows_in (field_rows (T.fields (T.made []))) area.now) [])) }
    {
        match self.read(area, &[]) {
            Ok(record) => Ok(record),
            Err(RecordFault::OutOfMemory) => Err(OutOfMemory),
            // All the rows are there, and none names a string.
            Err(RecordFault::TooShort) => unreachable!(),
            Err(RecordFault::NoSuchString(_)) => unreachable!(),
        }
    }
}

/// Reads the one record that stands at the front of `area`, as [`RecordReader::read`] does, in memory from `alloc`. Use that to read
/// many.
pub fn read<T: Laid>(alloc: Global, area: &[u8], strings: &[Text]) -> Result<T, RecordFault>
    ensures ok { IfOk result (λ t. record_in T.fields T.made area.now strings.now ≡ Ok t) }
    ensures err { IfErr result (λ fault. (fault ≡ NoMemory) ⊎ (record_in T.fields T.made area.now strings.now ≡ Err fault)) }
{
    let mut reader = RecordReader::new(alloc)?;
    reader.read(area, strings)
}

/// Reads the one record that stands at the front of `area`, as [`RecordReader::read_plain`] does, in memory from `alloc`. Use that to read
/// many.
pub fn read_plain<T: Laid>(alloc: Global, area: &[u8]) -> Result<T, OutOfMemory>
    requires textless { field_texts (T.fields (T.made [])) ≡ [] }
    requires whole { size (field_rows (T.fields (T.made []))) ≤ length area.now }
    ensures { IfOk result (λ t. t ≡ T.made (values_of (rows_in (field_rows (T.fields (T.made []))) area.now) [])) }
{
    let mut reader = RecordReader::new(alloc)?;
    reader.read_plain(area)
}

// Reads the values of rows, to the end of which the area reaches, into a list that has none.
fn read_values(
    alloc: Global,
    values: &mut Values,
    rows: &[Row],
    area: &[u8],
    strings: &[Text],
) -> Result<(), RecordFault>
    requires none { values.old ≡ [] }
    requires within { size rows.now ≤ length area.now }
    ensures ok { OnOk result (values_said rows.now area.now strings.now ≡ Ok values.new) }
    ensures err { IfErr result (λ fault. (fault ≡ NoMemory) ⊎ (values_said rows.now area.now strings.now ≡ Err fault)) }
{
    let mut left = area;
    for row in rows {
        let (front, behind) = left.split_at(row.width() as usize);
        values.push(read_value(alloc, row, front, strings)?)?;
        left = behind;
    }
    Ok(())
}
