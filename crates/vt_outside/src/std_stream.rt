ghost use Rattle.std.specs.Prelude.{◌≡◌, ◌≢◌, ◌==◌, ◌<◌, ◌≤◌, length, true, false, Ok, Some, None, IsErr, IsSomeAnd, IfOk, IfErr, OnErr, OnOk};
ghost use Rattle.std.specs.Io.KnownBytes.{Keeps, ReadConsumes, WriteAppends};
ghost use Rattle.std.specs.IoError.{error_kind};
ghost use Rattle.vt_outside.specs.Stream.{next_count, Untold};

use crate::fault::Failed;
use crate::stream::{Sink, Source};
use std::io::{self, ErrorKind, Read, Write};
use std::marker::Model;

/// A source that reads from a reader of std. It counts each error that it answers with `Failed`. Contracts see the reader and
/// this count; what is left of the reader's bytes they know where the reader tells it.
///
/// A call that was interrupted is made again, and is no error. Once the reader has given nothing it isn't called any more.
#[derive(Drop)]
pub struct ReadSource<R> {
    reader: R,
    ended: bool,
    faults: u64,
}

impl<R> Model for ReadSource<R> {
    ghost use Rattle.vt_outside.specs.StdStream.{ReaderState};

    ghost Value = { ReaderState R };

    ghost view = { λ s. record { reader = s.reader; ended = s.ended; faults = s.faults } };
}

impl<R: Read> ReadSource<R> {
    /// Makes a source whose bytes come from `reader`, with no fault counted. It reads nothing yet.
    pub fn new(reader: R) -> ReadSource<R>
        ensures { result ≡ record { reader = reader; ended = false; faults = 0 } }
    {
        ReadSource {
            reader,
            ended: false,
            faults: 0,
        }
    }
}

impl<R: Read> Source for ReadSource<R> {
    ghost seen = { λ s. record { left = None; ended = s.ended; faults = s.faults } };

    fn read(&mut self, into: &mut [u8]) -> Result<usize, Failed>
        requires { 0 < length into.old }
        // The reader loses exactly the bytes that are given, and none are only where it has none.
        ensures bytes { self.old.ended ≡ false → ReadConsumes (R.remaining self.old.reader) (R.remaining self.new.reader) result into.new }
        ensures fits { IfOk result (λ n. n ≤ length into.new) }

        // A read that gives nothing is the last one of the reader: behind it nothing changes.
        ensures ends { IfOk result (λ n. n ≡ 0 → self.new.ended ≡ true) }
        ensures ended { self.old.ended ≡ true → (result ≡ Ok 0) × (self.new ≡ self.old) }

        ensures counted { OnErr result (self.new.faults ≡ next_count self.old.faults) }
        ensures going { OnErr result (self.new.ended ≡ self.old.ended) }
        ensures sound { OnOk result (self.new.faults ≡ self.old.faults) }
        ensures never_falls { self.old.faults ≤ self.new.faults }
    {
        if self.ended {
            return Ok(0);
        }
        let answer = read_from(&mut self.reader, into);
        count_fault(&mut self.faults, &answer);
        self.ended = gives_nothing(&answer);
        answer
    }
}

/// A sink that writes to a writer of std. It counts each error that it answers with `Failed`. Contracts see the writer and this
/// count; what the writer holds they know where the writer tells it.
///
/// A call that was interrupted is made again, and is no error. A write that takes nothing is one.
#[derive(Drop)]
pub struct WriteSink<W> {
    writer: W,
    faults: u64,
}

impl<W> Model for WriteSink<W> {
    ghost use Rattle.vt_outside.specs.StdStream.{WriterState};

    ghost Value = { WriterState W };

    ghost view = { λ s. record { writer = s.writer; faults = s.faults } };
}

impl<W: Write> WriteSink<W> {
    /// Makes a sink whose bytes go to `writer`, with no fault counted. It writes nothing yet.
    pub fn new(writer: W) -> WriteSink<W>
        ensures { result ≡ record { writer = writer; faults = 0 } }
    {
        WriteSink { writer, faults: 0 }
    }
}

impl<W: Write> Sink for WriteSink<W> {
    ghost seen = { λ s. record { taken = Untold; flushed = 0; faults = s.faults } };

    fn write(&mut self, piece: &[u8]) -> Result<usize, Failed>
        requires { 0 < length piece.now }
        // The writer gets exactly the bytes that are taken, at least one.
        ensures bytes { WriteAppends (W.contents self.old.writer) (W.contents self.new.writer) result piece.now }
        ensures some { IfOk result (λ n. 0 < n) }
        ensures fits { IfOk result (λ n. n ≤ length piece.now) }

        ensures counted { OnErr result (self.new.faults ≡ next_count self.old.faults) }
        ensures sound { OnOk result (self.new.faults ≡ self.old.faults) }
        ensures never_falls { self.old.faults ≤ self.new.faults }
    {
        let answer = write_to(&mut self.writer, piece);
        count_fault(&mut self.faults, &answer);
        answer
    }

    fn flush(&mut self) -> Result<(), Failed>
        ensures bytes { Keeps (W.contents self.old.writer) (W.contents self.new.writer) }
        ensures counted { OnErr result (self.new.faults ≡ next_count self.old.faults) }
        ensures sound { OnOk result (self.new.faults ≡ self.old.faults) }
        ensures never_falls { self.old.faults ≤ self.new.faults }
    {
        let answer = flush_through(&mut self.writer);
        count_fault(&mut self.faults, &answer);
        answer
    }
}

// Whether a read has given nothing.
fn gives_nothing(answer: &Result<usize, Failed>) -> bool
    ensures ok { IfOk answer.now (λ n. result ≡ n == 0) }
    ensures err { OnErr answer.now (result ≡ false) }
{
    matches!(answer, Ok(0))
}

// Counts a fault where the answer is one.
fn count_fault<T>(faults: &mut u64, answer: &Result<T, Failed>)
    ensures counted { OnErr answer.now (faults.new ≡ next_count faults.old) }
    ensures sound { OnOk answer.now (faults.new ≡ faults.old) }
    ensures never_falls { faults.old ≤ faults.new }
{
    if answer.is_err() {
        *faults = faults.saturating_add(1);
    }
}

// Reads once, and again where the read was interrupted.
fn read_from<R: Read>(reader: &mut R, into: &mut [u8]) -> Result<usize, Failed>
    ensures bytes { ReadConsumes (R.remaining reader.old) (R.remaining reader.new) result into.new }
    ensures fits { IfOk result (λ n. n ≤ length into.new) }
{
    for _turn in 0..u64::MAX {
        if let Some(answer) = answer_to(reader.read(into)) {
            return answer;
        }
    }
    Err(Failed)
}

// Writes once, and again where the write was interrupted.
fn write_to<W: Write>(writer: &mut W, piece: &[u8]) -> Result<usize, Failed>
    ensures bytes { WriteAppends (W.contents writer.old) (W.contents writer.new) result piece.now }
    ensures some { IfOk result (λ n. 0 < n) }
    ensures fits { IfOk result (λ n. n ≤ length piece.now) }
{
    for _turn in 0..u64::MAX {
        match answer_to(writer.write(piece)) {
            Some(Ok(0)) => return Err(Failed),
            Some(answer) => return answer,
            None => {}
        }
    }
    Err(Failed)
}

// Flushes once, and again where the flush was interrupted.
fn flush_through<W: Write>(writer: &mut W) -> Result<(), Failed>
    ensures { Keeps (W.contents writer.old) (W.contents writer.new) }
{
    for _turn in 0..u64::MAX {
        if let Some(answer) = answer_to(writer.flush()) {
            return answer;
        }
    }
    Err(Failed)
}

// What a call of std answers for the whole call, or None where it was interrupted and is to be made again. No error is taken for done, and
// no answer for an interruption. That a flush was asked for at all no clause says, since std's clauses don't say what a flush has done.
fn answer_to<T>(tried: io::Result<T>) -> Option<Result<T, Failed>>
    ensures done { IfOk tried (λ value. result ≡ Some (Ok value)) }
    ensures again { IfErr tried (λ error. error_kind error ≡ ErrorKind.Interrupted → result ≡ None) }
    ensures failed { IfErr tried (λ error. error_kind error ≢ ErrorKind.Interrupted → IsSomeAnd result IsErr) }
{
    match tried {
        Ok(value) => Some(Ok(value)),
        Err(error) if error.kind() == ErrorKind::Interrupted => None,
        Err(_) => Some(Err(Failed)),
    }
}
