//! A record that is read from bytes made by hand, and written as these bytes again.

use crate::layouts::parcel::{Extent, Parcel};
use crate::layouts::rows::is;
use std::alloc::Global;
use std::process::Abort;
use std::test::Fail;
use vt_layout::{
    RecordFault, RecordReader, RecordSize, Row, RowList, put_rows, read, read_bytes, read_plain,
    record_laws, record_size_of, rows_of,
};
use vt_outside::{Bytes, List, OutOfMemory, Text};

// A parcel from the first string to the second, with no note. Each other byte tells its place.
const AREA: &[u8] =
    b"\x01\x01\x02\x03\x04\0\x06\x07\x08\x09\x02CARRDEPOT.ROUTE-66LABEL-OF-A-BOX--\x33\x34\x35\x36\x37\x38\x39\x3A\
\x3B\x3C\x3D\x3E\x3F\x40\x41\x42\x43\x44\x45\x46\x47\x48\x07\0";

#[test]
fn read_and_written(rt: HostRuntime) -> Result<(), Fail> {
    let strings = two_strings(rt.alloc())?;
    let parcel: Parcel = read(rt.alloc(), AREA, strings.as_slice())?;
    is_the_parcel(&rt, &parcel);
    is_written(&rt, rt.alloc(), &parcel, AREA)
}

fn is_the_parcel(rt: &impl Abort, parcel: &Parcel) {
    has_texts(rt, parcel, b"Ann", b"Bo", b"");
    has_bytes(rt, parcel);
    has_numbers(rt, parcel);
}

fn has_texts(rt: &impl Abort, parcel: &Parcel, sender: &[u8], receiver: &[u8], note: &[u8]) {
    is(rt, &parcel.sender.as_slice(), &sender);
    is(rt, &parcel.receiver.as_slice(), &receiver);
    is(rt, &parcel.note.as_slice(), &note);
}

fn has_bytes(rt: &impl Abort, parcel: &Parcel) {
    is(rt, &parcel.carrier, b"CARR");
    is(rt, &parcel.depot, b"DEPOT.");
    is(rt, &parcel.route, b"ROUTE-66");
    is(rt, &parcel.label, b"LABEL-OF-A-BOX--");
}

fn has_numbers(rt: &impl Abort, parcel: &Parcel) {
    let extent = Extent {
        unit: 4,
        volume: 0x0908_0706,
    };
    is(rt, &parcel.extent, &extent);
    is(rt, &(parcel.kind, parcel.weight), &(1, 0x0302));
    is(rt, &parcel.number, &0x3A39_3837_3635_3433);
    is(
        rt,
        &(parcel.customs, parcel.postcode),
        &(0x3B3C, 0x3D3E_3F40),
    );
    is(rt, &parcel.tracking, &0x4142_4344_4546_4748);
}

fn is_written(rt: &impl Abort, alloc: Global, parcel: &Parcel, wanted: &[u8]) -> Result<(), Fail> {
    let rows = rows_of(alloc, parcel)?;
    is(rt, &(rows.rows().len(), rows.texts().len()), &(17, 3));
    are_bytes(rt, alloc, &rows, wanted)
}

// A text that is empty has no number, and the next one that isn't has the next.
#[test]
fn numbered(rt: HostRuntime) -> Result<(), Fail> {
    let strings = two_strings(rt.alloc())?;
    let mut area = Bytes::new(rt.alloc());
    area.extend(AREA)?;
    area.put(10, &[0]);
    area.put(AREA.len() - 1, &[2]);
    let parcel: Parcel = read(rt.alloc(), area.as_slice(), strings.as_slice())?;
    has_texts(&rt, &parcel, b"Ann", b"", b"Bo");
    is_written(&rt, rt.alloc(), &parcel, area.as_slice())
}

// One reader reads all of these, also once it has told a fault.
#[test]
fn many_and_faults(rt: HostRuntime) -> Result<(), Fail> {
    let strings = two_strings(rt.alloc())?;
    let mut reader: RecordReader<Parcel> = RecordReader::new(rt.alloc())?;
    let [one, two] = strings.as_slice() else {
        panic!(&rt; "two strings")
    };
    is_refused(&rt, &mut reader, AREA, &[], RecordFault::NoSuchString(1));
    let first = [one.copy()?];
    is_refused(&rt, &mut reader, AREA, &first, RecordFault::NoSuchString(2));
    is_refused(&rt, &mut reader, &AREA[1..], &[], RecordFault::TooShort);
    let turned = [two.copy()?, one.copy()?];
    has_texts(&rt, &reader.read(AREA, &turned)?, b"Bo", b"Ann", b"");
    is_the_parcel(&rt, &reader.read(AREA, strings.as_slice())?);
    Ok(())
}

fn is_refused(
    rt: &impl Abort,
    reader: &mut RecordReader<Parcel>,
    area: &[u8],
    strings: &[Text],
    wanted: RecordFault,
) {
    match reader.read(area, strings) {
        Ok(parcel) => {
            drop(parcel);
            panic!(rt; "a record in place of {wanted:?}")
        }
        Err(fault) => is(rt, &fault, &wanted),
    }
}

// Its bytes are counted as they are written, those of its strings with a NUL each.
#[test]
fn counted(rt: HostRuntime) -> Result<(), Fail> {
    let strings = two_strings(rt.alloc())?;
    let parcel: Parcel = read(rt.alloc(), AREA, strings.as_slice())?;
    let wanted = RecordSize {
        area: AREA.len(),
        strings: b"Ann\0Bo\0".len(),
    };
    is(&rt, &record_size_of(rt.alloc(), &parcel), &wanted);
    Ok(())
}

// Where there is no room, a row is left out, and only counted.
#[test]
fn list_of_rows(rt: HostRuntime) -> Result<(), Fail> {
    let text = Text::new(rt.alloc());
    let mut rows = RowList::with_room(rt.alloc(), 2)?;
    rows.word(0x0102);
    rows.text(&text);
    rows.byte(9);
    let wanted = RecordSize {
        area: 4,
        strings: 0,
    };
    is(&rt, &rows.size(), &wanted);
    are_bytes(&rt, rt.alloc(), &rows, b"\x02\x01\0")
}

// A record without texts is read of bytes that go on behind it, and the bytes of its last row alone.
#[test]
fn record_without_texts(rt: HostRuntime) -> Result<(), Fail> {
    let bytes = b"\x05\x77\x06\x01\0\0\x99";
    let extent: Extent = read_plain(rt.alloc(), bytes)?;
    let wanted = Extent {
        unit: 5,
        volume: 0x106,
    };
    is(&rt, &extent, &wanted);
    let last = read_bytes(bytes, &[Row::Reserved(2), Row::Number(4, 0)], 1);
    is(&rt, &last, &b"\x06\x01\0\0".as_slice());
    Ok(())
}

// What a record doesn't keep is put in the place of one of its rows.
#[test]
fn row_in_place_of_another(rt: HostRuntime) -> Result<(), Fail> {
    let extent = Extent { unit: 5, volume: 6 };
    let mut rows = rows_of(rt.alloc(), &extent)?;
    rows.set(1, Row::Number(1, 7));
    are_bytes(&rt, rt.alloc(), &rows, b"\x05\x07\x06\0\0\0")
}

fn are_bytes(rt: &impl Abort, alloc: Global, rows: &RowList, wanted: &[u8]) -> Result<(), Fail> {
    let mut bytes = Bytes::new(alloc);
    put_rows(&mut bytes, rows.rows())?;
    is(rt, &bytes.as_slice(), &wanted);
    Ok(())
}

// The laws of a record hold of this one, and that of a record without texts of its part.
#[test]
fn laws_of_a_record(rt: HostRuntime) {
    let _rt = rt;
    record_laws::record_is_read_where_it_stands::<Parcel>();
    record_laws::first_fault_is_told::<Parcel>();
    record_laws::one_record_stands_at_a_place::<Parcel>();
    record_laws::written_record_stands::<Parcel>();
    record_laws::written_record_is_read::<Parcel>();
    record_laws::record_without_texts_is_of_its_rows::<Extent>();
}

fn two_strings(alloc: Global) -> Result<List<Text>, OutOfMemory> {
    let mut strings = List::new(alloc);
    for string in [b"Ann".as_slice(), b"Bo"] {
        let mut text = Text::new(alloc);
        text.extend(string)?;
        strings.push(text)?;
    }
    Ok(strings)
}
