//! The streams of a run, which tell contracts nothing of their bytes.

ghost use Rattle.std.specs.Prelude.{◌≡◌, ◌<◌, ◌≤◌, length, true, None};
ghost use Rattle.vt_outside.specs.Stream.{Untold, next_count};

use crate::case::Stream;
use std::alloc::Global;
use vt_outside::{Bytes, Failed, List, ListSink, OutOfMemory, Sink, Source, is_listed};

/// A source of bytes in memory, which it gives in pieces, whose reads of given numbers fail, and which may go on without end.
#[derive(Drop)]
pub(crate) struct CaseSource {
    bytes: Bytes,
    given: usize,
    piece: usize,
    fails: List<u32>,
    endless: Option<u8>,
    calls: u64,
    faults: u64,
    ended: bool,
}

impl CaseSource {
    pub(crate) fn of(stream: &Stream) -> Result<CaseSource, OutOfMemory> {
        Ok(CaseSource {
            bytes: stream.bytes.copy()?,
            given: 0,
            piece: stream.room.max(1),
            fails: stream.fails.copy()?,
            endless: stream.endless,
            calls: 0,
            faults: 0,
            ended: false,
        })
    }

    /// Returns how many of its bytes weren't read.
    pub(crate) fn left(&self) -> usize {
        self.bytes.len().saturating_sub(self.given)
    }

    // Gives the next bytes into the front of `into`, and returns how many.
    fn give(&mut self, into: &mut [u8]) -> usize
        ensures fits { result ≤ length into.new }
        ensures ended { self.new.ended ≡ self.old.ended }
        ensures faults { self.new.faults ≡ self.old.faults }
    {
        let bytes = self.bytes.as_slice();
        let rest = &bytes[self.given.min(bytes.len())..];
        let count = self.piece.min(into.len()).min(rest.len());
        into[..count].copy_from_slice(&rest[..count]);
        self.given = self.given.saturating_add(count);
        count
    }

    // Gives what stands behind all bytes into the front of `into`, and returns how many. Where nothing does, it has ended.
    fn give_behind(&mut self, into: &mut [u8]) -> usize
        ensures fits { result ≤ length into.new }
        ensures ends { result ≡ 0 → self.new.ended ≡ true }
        ensures faults { self.new.faults ≡ self.old.faults }
    {
        let count = match self.endless {
            Some(_) => self.piece.min(into.len()),
            None => 0,
        };
        into[..count].fill(self.endless.unwrap_or(0));
        self.ended = count == 0;
        count
    }
}

impl Source for CaseSource {
    ghost seen = { λ s. record { left = None; ended = s.ended; faults = s.faults } };

    fn read(&mut self, into: &mut [u8]) -> Result<usize, Failed> {
        if self.ended {
            return Ok(0);
        }
        let call = self.calls;
        self.calls = self.calls.saturating_add(1);
        if is_listed(self.fails.as_slice(), call) {
            self.faults = self.faults.saturating_add(1);
            return Err(Failed);
        }
        match self.give(into) {
            0 => Ok(self.give_behind(into)),
            count => Ok(count),
        }
    }
}

/// A sink that keeps what it takes, whose writes of given numbers fail, and whose flush may fail.
#[derive(Drop)]
pub(crate) struct CaseSink {
    memory: ListSink,
    flush_fails: bool,
    faults: u64,
}

impl CaseSink {
    pub(crate) fn of(alloc: Global, stream: &Stream) -> Result<CaseSink, OutOfMemory> {
        Ok(CaseSink {
            memory: ListSink::new(alloc, stream.room, stream.fails.copy()?)?,
            flush_fails: stream.flush_fails,
            faults: 0,
        })
    }

    /// Returns the bytes that it took.
    pub(crate) fn taken(&self) -> &[u8] {
        self.memory.taken()
    }

    fn fail(&mut self) -> Failed
        ensures counted { self.new.faults ≡ next_count self.old.faults }
        ensures never_falls { self.old.faults ≤ self.new.faults }
    {
        self.faults = self.faults.saturating_add(1);
        Failed
    }
}

impl Sink for CaseSink {
    ghost seen = { λ s. record { taken = Untold; flushed = 0; faults = s.faults } };

    fn write(&mut self, piece: &[u8]) -> Result<usize, Failed> {
        match self.memory.write(piece) {
            Ok(count) => Ok(count),
            Err(_) => Err(self.fail()),
        }
    }

    fn flush(&mut self) -> Result<(), Failed> {
        if self.flush_fails {
            return Err(self.fail());
        }
        match self.memory.flush() {
            Ok(()) => Ok(()),
            Err(_) => Err(self.fail()),
        }
    }
}
