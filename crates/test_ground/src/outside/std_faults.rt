//! Readers and writers of std that are interrupted and then fail, with each kind of error that std has, and what is counted then.

ghost use Rattle.std.specs.Prelude.{◌≡◌, ◌<◌, length, OnErr, OnOk};

use crate::outside::asserts::{Call, Reading, answers_all, reads_all};
use std::io::{self, ErrorKind, Read, Write};
use std::process::Abort;
use vt_outside::{Failed, ReadSource, Sink, Source, WriteSink};

// Each kind of error but Interrupted, which is no fault.
static KINDS: [ErrorKind; 41] = [
    ErrorKind::NotFound,
    ErrorKind::PermissionDenied,
    ErrorKind::ConnectionRefused,
    ErrorKind::ConnectionReset,
    ErrorKind::HostUnreachable,
    ErrorKind::NetworkUnreachable,
    ErrorKind::ConnectionAborted,
    ErrorKind::NotConnected,
    ErrorKind::AddrInUse,
    ErrorKind::AddrNotAvailable,
    ErrorKind::NetworkDown,
    ErrorKind::BrokenPipe,
    ErrorKind::AlreadyExists,
    ErrorKind::WouldBlock,
    ErrorKind::NotADirectory,
    ErrorKind::IsADirectory,
    ErrorKind::DirectoryNotEmpty,
    ErrorKind::ReadOnlyFilesystem,
    ErrorKind::FilesystemLoop,
    ErrorKind::StaleNetworkFileHandle,
    ErrorKind::InvalidInput,
    ErrorKind::InvalidData,
    ErrorKind::TimedOut,
    ErrorKind::WriteZero,
    ErrorKind::StorageFull,
    ErrorKind::NotSeekable,
    ErrorKind::QuotaExceeded,
    ErrorKind::FileTooLarge,
    ErrorKind::ResourceBusy,
    ErrorKind::ExecutableFileBusy,
    ErrorKind::Deadlock,
    ErrorKind::CrossesDevices,
    ErrorKind::TooManyLinks,
    ErrorKind::InvalidFilename,
    ErrorKind::ArgumentListTooLong,
    ErrorKind::Unsupported,
    ErrorKind::UnexpectedEof,
    ErrorKind::OutOfMemory,
    ErrorKind::InProgress,
    ErrorKind::Other,
    ErrorKind::Uncategorized,
];

// A reader and a writer whose first call is interrupted and whose second fails. From then on it gives and takes two bytes a call.
#[derive(Clone, Copy, Drop)]
struct Flaky {
    kind: ErrorKind,
    calls: u32,
}

impl Flaky {
    // Counts a call, and tells how it goes.
    fn call(&mut self) -> io::Result<()> {
        self.calls = self.calls.saturating_add(1);
        match self.calls {
            1 => Err(io::Error::from(ErrorKind::Interrupted)),
            2 => Err(io::Error::from(self.kind)),
            _ => Ok(()),
        }
    }
}

impl Read for Flaky {
    fn read(&mut self, buf: &mut [u8]) -> io::Result<usize> {
        self.call()?;
        b"ab".as_slice().read(buf)
    }
}

impl Write for Flaky {
    fn write(&mut self, buf: &[u8]) -> io::Result<usize> {
        self.call()?;
        Ok(buf.len().min(2))
    }

    fn flush(&mut self) -> io::Result<()> {
        self.call()
    }
}

fn failing_with(kind: ErrorKind) -> Flaky {
    Flaky { kind, calls: 0 }
}

#[test]
fn each_error_of_a_reader(rt: HostRuntime) {
    for kind in &KINDS {
        read_fails(&rt, *kind);
    }
}

fn read_fails(rt: &impl Abort, kind: ErrorKind) {
    let mut source = ReadSource::new(failing_with(kind));
    reads_all(rt, &mut source, b"wxyz", &READINGS);
}

static READINGS: [Reading; 2] = [(Err(Failed), b"wxyz"), (Ok(2), b"abyz")];

#[test]
fn each_error_of_a_writer(rt: HostRuntime) {
    for kind in &KINDS {
        write_fails(&rt, *kind);
        flush_fails(&rt, *kind);
    }
}

fn write_fails(rt: &impl Abort, kind: ErrorKind) {
    let mut sink = WriteSink::new(failing_with(kind));
    answers_all(rt, &mut sink, &WRITES);
}

static WRITES: [Call; 2] = [Call::Write(b"abc", Err(Failed)), Call::Write(b"abc", Ok(2))];

fn flush_fails(rt: &impl Abort, kind: ErrorKind) {
    let mut sink = WriteSink::new(failing_with(kind));
    answers_all(rt, &mut sink, &FLUSHES);
}

static FLUSHES: [Call; 2] = [Call::Flush(Err(Failed)), Call::Flush(Ok(()))];

// The first read of a source counts one fault where it fails, and else none: what `new` and `read` say together.
fn first_read<R: Read>(reader: R, into: &mut [u8]) -> (ReadSource<R>, Result<usize, Failed>)
    requires { 0 < length into.old }
    ensures failed { OnErr result.1 (result.0.faults ≡ 1) }
    ensures sound { OnOk result.1 (result.0.faults ≡ 0) }
{
    let mut source = ReadSource::new(reader);
    let answer = source.read(into);
    (source, answer)
}

// The first write of a sink counts one fault where it fails, and else none: what `new` and `write` say together.
fn first_write<W: Write>(writer: W, piece: &[u8]) -> (WriteSink<W>, Result<usize, Failed>)
    requires { 0 < length piece.now }
    ensures failed { OnErr result.1 (result.0.faults ≡ 1) }
    ensures sound { OnOk result.1 (result.0.faults ≡ 0) }
{
    let mut sink = WriteSink::new(writer);
    let answer = sink.write(piece);
    (sink, answer)
}

#[test]
fn counts_begin_at_none(rt: HostRuntime) {
    first_read_fails(&rt);
    first_write_fails(&rt);
}

fn first_read_fails(rt: &impl Abort) {
    let mut into = [0; 4];
    let (_, answer) = first_read(failing_with(ErrorKind::Other), &mut into);
    is_failed(rt, answer);
}

fn first_write_fails(rt: &impl Abort) {
    let (_, answer) = first_write(failing_with(ErrorKind::Other), b"ab");
    is_failed(rt, answer);
}

fn is_failed(rt: &impl Abort, answer: Result<usize, Failed>) {
    assert_eq!(rt; answer, Err(Failed));
}
