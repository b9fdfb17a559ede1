//! What the tests of this crate assert in common, of streams above all. A stream is handed by reference to one function that makes a
//! table's calls, since each assertion beside an owned stream costs more to prove.

use std::process::Abort;
use vt_outside::{Failed, Sink, Source};

/// A read into four bytes: its answer, and what they are then.
pub(crate) type Reading = (Result<usize, Failed>, &'static [u8; 4]);

/// The readings of six bytes, "abcdef".
pub(crate) static SIX: [Reading; 3] = [(Ok(4), b"abcd"), (Ok(2), b"efcd"), (Ok(0), b"efcd")];

/// A call of a sink, with its answer.
pub(crate) enum Call {
    /// A write of a piece, which isn't empty.
    Write(&'static [u8], Result<usize, Failed>),
    Flush(Result<(), Failed>),
}

/// Reads into the same four bytes, which are `first` at first, and compares each answer.
pub(crate) fn reads_all(
    rt: &impl Abort,
    source: &mut impl Source,
    first: &[u8; 4],
    readings: &[Reading],
) {
    let mut into = *first;
    for reading in readings {
        reads(rt, source, &mut into, reading);
    }
}

fn reads(rt: &impl Abort, source: &mut impl Source, into: &mut [u8; 4], reading: &Reading) {
    let (answer, bytes) = reading;
    assert_eq!(rt; source.read(into), *answer, "for {bytes:?}");
    are_bytes(rt, into, *bytes);
}

/// Makes each call, and compares its answer.
pub(crate) fn answers_all(rt: &impl Abort, sink: &mut impl Sink, calls: &[Call]) {
    for call in calls {
        match call {
            Call::Write(piece, answer) => writes(rt, sink, piece, *answer),
            Call::Flush(answer) => flushes(rt, sink, *answer),
        }
    }
}

fn writes(rt: &impl Abort, sink: &mut impl Sink, piece: &[u8], answer: Result<usize, Failed>) {
    assert!(rt; !piece.is_empty());
    is_written(rt, sink.write(piece), answer, piece);
}

fn is_written(
    rt: &impl Abort,
    given: Result<usize, Failed>,
    answer: Result<usize, Failed>,
    piece: &[u8],
) {
    assert_eq!(rt; given, answer, "of {piece:?}");
}

fn flushes(rt: &impl Abort, sink: &mut impl Sink, answer: Result<(), Failed>) {
    assert_eq!(rt; sink.flush(), answer);
}

/// Two strings of bytes are the same.
pub(crate) fn are_bytes(rt: &impl Abort, bytes: &[u8], wanted: &[u8]) {
    assert_eq!(rt; bytes, wanted);
}

/// A text is as wanted.
pub(crate) fn is_text(rt: &impl Abort, text: &str, wanted: &str) {
    assert_eq!(rt; text, wanted);
}
