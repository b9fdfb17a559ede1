//! A reader and a writer of std as a source and a sink.

use crate::outside::asserts::{Call, Reading, SIX, answers_all, are_bytes, reads_all};
use std::io::{self, ErrorKind, Read, Write};
use std::process::Abort;
use vt_outside::{Failed, ReadSource, WriteSink};

// A reader whose first call is interrupted, and whose third fails.
#[derive(Drop)]
struct ShakyReader<'a> {
    calls: u32,
    text: &'a [u8],
}

impl Read for ShakyReader<'_> {
    fn read(&mut self, buf: &mut [u8]) -> io::Result<usize> {
        self.calls = self.calls.saturating_add(1);
        match self.calls {
            1 => Err(io::Error::from(ErrorKind::Interrupted)),
            3 => Err(io::Error::from(ErrorKind::TimedOut)),
            _ => self.text.read(buf),
        }
    }
}

// A writer whose first and sixth calls are interrupted, whose third and eighth fail, and whose fifth takes nothing.
#[derive(Drop)]
struct ShakyWriter {
    calls: u32,
    taken: Vec<u8>,
}

impl ShakyWriter {
    // Counts a call, and tells how it goes.
    fn call(&mut self) -> io::Result<()> {
        self.calls = self.calls.saturating_add(1);
        match self.calls {
            1 | 6 => Err(io::Error::from(ErrorKind::Interrupted)),
            3 | 8 => Err(io::Error::from(ErrorKind::TimedOut)),
            _ => Ok(()),
        }
    }
}

impl Write for ShakyWriter {
    fn write(&mut self, buf: &[u8]) -> io::Result<usize> {
        self.call()?;
        if self.calls == 5 {
            return Ok(0);
        }
        self.taken.write(buf)
    }

    fn flush(&mut self) -> io::Result<()> {
        self.call()
    }
}

// A writer that takes two bytes a call.
#[derive(Drop)]
struct ShortWriter {
    taken: Vec<u8>,
}

impl Write for ShortWriter {
    fn write(&mut self, buf: &[u8]) -> io::Result<usize> {
        self.taken.write(&buf[..buf.len().min(2)])
    }

    fn flush(&mut self) -> io::Result<()> {
        Ok(())
    }
}

#[test]
fn readers_of_std(rt: HostRuntime) {
    let mut source = ReadSource::new(b"abcdef".as_slice());
    reads_all(&rt, &mut source, &[0; 4], &SIX);
}

static SHAKY: [Reading; 3] = [(Ok(4), b"abcd"), (Err(Failed), b"abcd"), (Ok(2), b"efcd")];

#[test]
fn readers_of_std_that_fail(rt: HostRuntime) {
    let mut source = ReadSource::new(ShakyReader {
        calls: 0,
        text: b"abcdef",
    });
    reads_all(&rt, &mut source, &[0; 4], &SHAKY);
}

static ONCE: [Call; 2] = [Call::Write(b"abc", Ok(3)), Call::Flush(Ok(()))];

#[test]
fn writers_of_std(rt: HostRuntime) {
    let mut taken = Vec::new(rt.alloc());
    takes(&rt, &mut taken, &ONCE);
    are_bytes(&rt, taken.as_slice(), b"abc");
    drop(taken);
}

// A writer as a sink answers each call as the call says.
fn takes(rt: &impl Abort, writer: &mut impl Write, calls: &[Call]) {
    answers_all(rt, &mut WriteSink::new(writer), calls);
}

static FAILING: [Call; 6] = [
    Call::Write(b"ab", Ok(2)),
    Call::Write(b"cd", Err(Failed)),
    Call::Write(b"ef", Ok(2)),
    Call::Write(b"gh", Err(Failed)),
    Call::Flush(Ok(())),
    Call::Flush(Err(Failed)),
];

#[test]
fn writers_of_std_that_fail(rt: HostRuntime) {
    let mut writer = ShakyWriter {
        calls: 0,
        taken: Vec::new(rt.alloc()),
    };
    takes(&rt, &mut writer, &FAILING);
    are_bytes(&rt, writer.taken.as_slice(), b"abef");
    drop(writer);
}

static BY_TWO: [Call; 3] = [
    Call::Write(b"abcde", Ok(2)),
    Call::Write(b"cde", Ok(2)),
    Call::Write(b"e", Ok(1)),
];

#[test]
fn writers_of_std_that_take_two_bytes(rt: HostRuntime) {
    let mut writer = ShortWriter {
        taken: Vec::new(rt.alloc()),
    };
    takes(&rt, &mut writer, &BY_TWO);
    are_bytes(&rt, writer.taken.as_slice(), b"abcde");
    drop(writer);
}
