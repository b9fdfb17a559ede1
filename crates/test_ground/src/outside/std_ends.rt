//! Readers and writers of std whose calls are interrupted a hundred times, and a reader that fails behind its end.

use crate::outside::asserts::{Call, Reading, SIX, answers_all, are_bytes, reads_all};
use std::io::{self, ErrorKind, Read, Write};
use std::process::Abort;
use vt_outside::{Failed, ReadSource, WriteSink};

// How many times a call is interrupted.
const TURNS: u32 = 100;

// Tells that a call is interrupted, so many times, and then that it isn't.
fn interrupted(turns: &mut u32) -> io::Result<()> {
    if *turns < TURNS {
        *turns += 1;
        return Err(io::Error::from(ErrorKind::Interrupted));
    }
    *turns = 0;
    Ok(())
}

// A reader each call of which is interrupted a hundred times.
#[derive(Drop)]
struct SlowReader<'a> {
    turns: u32,
    text: &'a [u8],
}

impl Read for SlowReader<'_> {
    fn read(&mut self, buf: &mut [u8]) -> io::Result<usize> {
        interrupted(&mut self.turns)?;
        self.text.read(buf)
    }
}

// A writer each call of which is interrupted a hundred times.
#[derive(Drop)]
struct SlowWriter {
    turns: u32,
    taken: Vec<u8>,
}

impl Write for SlowWriter {
    fn write(&mut self, buf: &[u8]) -> io::Result<usize> {
        interrupted(&mut self.turns)?;
        self.taken.write(buf)
    }

    fn flush(&mut self) -> io::Result<()> {
        interrupted(&mut self.turns)
    }
}

#[test]
fn readers_that_are_interrupted(rt: HostRuntime) {
    let mut source = ReadSource::new(SlowReader {
        turns: 0,
        text: b"abcdef",
    });
    reads_all(&rt, &mut source, &[0; 4], &SIX);
}

static THREE: [Call; 3] = [
    Call::Write(b"abc", Ok(3)),
    Call::Flush(Ok(())),
    Call::Write(b"d", Ok(1)),
];

#[test]
fn writers_that_are_interrupted(rt: HostRuntime) {
    let mut writer = SlowWriter {
        turns: 0,
        taken: Vec::new(rt.alloc()),
    };
    takes_all(&rt, &mut writer);
    are_bytes(&rt, writer.taken.as_slice(), b"abcd");
    drop(writer);
}

fn takes_all(rt: &impl Abort, writer: &mut SlowWriter) {
    answers_all(rt, &mut WriteSink::new(writer), &THREE);
}

// A reader that gives two bytes, then nothing, and then fails.
#[derive(Drop)]
struct EndingReader {
    calls: u32,
}

impl Read for EndingReader {
    fn read(&mut self, buf: &mut [u8]) -> io::Result<usize> {
        self.calls = self.calls.saturating_add(1);
        match self.calls {
            1 => b"ab".as_slice().read(buf),
            2 => Ok(0),
            _ => Err(io::Error::from(ErrorKind::Other)),
        }
    }
}

// Behind its end it isn't called, so that nothing fails.
static ENDED: [Reading; 4] = [
    (Ok(2), b"abyz"),
    (Ok(0), b"abyz"),
    (Ok(0), b"abyz"),
    (Ok(0), b"abyz"),
];

#[test]
fn readers_that_fail_behind_their_end(rt: HostRuntime) {
    let mut source = ReadSource::new(EndingReader { calls: 0 });
    reads_all(&rt, &mut source, b"wxyz", &ENDED);
}
