ghost use Rattle.std.specs.Prelude.{◌≡◌, ◌≢◌, ◌<◌, ◌≤◌, ◌+◌, ◌-◌, ◌↔◌, ◌⊎◌, [], ◌++◌, length, take, min};
ghost use Rattle.std.specs.Prelude.{IsErr, IsOk, IfOk, OnErr, OnOk, Contains};
ghost use Rattle.vt_outside.specs.Stream.{next_count, Bytes, Untold, AreAll};

use crate::fault::{Failed, OutOfMemory};
use crate::list::List;
use crate::listed::is_listed;
use crate::stream::Sink;
use std::alloc::Global;
use std::marker::Model;

/// A sink that keeps what it takes in memory, and whose writes fail where the caller says so.
#[derive(Debug, Drop)]
pub struct ListSink {
    taken: Vec<u8>,
    flushed: usize,
    room: usize,
    fails: List<u32>,
    calls: u64,
    faults: u64,
}

impl Model for ListSink {
    ghost use Rattle.std.specs.Prelude.{◌≤◌, vec_len, vec_capacity};
    ghost use Rattle.vt_outside.specs.MemoryStream.{SinkState};

    ghost Value = { SinkState };

    ghost view = { λ s. record {
      taken = s.taken.items;
      flushed = s.flushed;
      room = s.room;
      fails = s.fails;
      calls = s.calls;
      faults = s.faults;
    } };

    ghost invariant = { λ s. (vec_len s.taken ≤ s.room) × (s.room ≤ vec_capacity s.taken) };
}

impl ListSink {
    /// Makes a sink that holds at most `room` bytes, and reserves them from `alloc` here. `fails` lists the writes that fail,
    /// each by its number: all writes are counted, from 0. A write also fails when no room is left.
    ///
    /// On `OutOfMemory` there is no memory for `room` bytes, and no sink is made.
    pub fn new(alloc: Global, room: usize, fails: List<u32>) -> Result<ListSink, OutOfMemory>
        ensures { IfOk result (λ sink. sink ≡ record { taken = []; flushed = 0; room = room; fails = fails; calls = 0; faults = 0 }) }
    {
        Ok(ListSink {
            taken: Vec::with_capacity(alloc, room)?,
            flushed: 0,
            room,
            fails,
            calls: 0,
            faults: 0,
        })
    }

    /// Returns the bytes that were taken so far, in order, flushed or not.
    pub fn taken(&self) -> &[u8]
        ensures { result.now ≡ self.now.taken }
    {
        self.taken.as_slice()
    }
}

impl Sink for ListSink {
    ghost seen = { λ s. record { taken = Bytes s.taken; flushed = s.flushed; faults = s.faults } };

    fn write(&mut self, piece: &[u8]) -> Result<usize, Failed>
        requires { 0 < length piece.now }
        // The write fails exactly where its number is listed or no room is left.
        ensures fails { IsErr result ↔ (Contains self.old.fails self.old.calls ⊎ (self.old.room ≡ length self.old.taken)) }
        ensures failed { OnErr result (self.new ≡ record self.old { calls = next_count self.old.calls; faults = next_count self.old.faults }) }

        // Else it takes as much as there is room for.
        ensures count { IfOk result (λ n. n ≡ min (length piece.now) (self.old.room - length self.old.taken)) }
        ensures ok { IfOk result (λ n. self.new ≡ record self.old { taken = self.old.taken ++ take n piece.now; calls = next_count self.old.calls }) }
        ensures some { IfOk result (λ n. 0 < n) }
        ensures never_falls { self.old.faults ≤ self.new.faults }
    {
        let call = self.calls;
        self.calls = self.calls.saturating_add(1);
        let free = self.room - self.taken.len();
        if free == 0 || is_listed(self.fails.as_slice(), call) {
            self.faults = self.faults.saturating_add(1);
            return Err(Failed);
        }
        let count = piece.len().min(free);
        self.taken.extend_from_slice(&piece[..count]).unwrap();
        Ok(count)
    }

    fn flush(&mut self) -> Result<(), Failed>
        ensures sure { IsOk result }
        ensures all { self.new ≡ record self.old { flushed = length self.old.taken } }
    {
        self.flushed = self.taken.len();
        Ok(())
    }
}

/// A sink that drops what it takes, tells nothing of it, and never fails.
#[derive(Clone, Copy, Debug)]
pub struct SureSink;

impl SureSink {
    /// Makes the sink. It takes no memory.
    pub fn new() -> SureSink {
        SureSink
    }
}

impl Sink for SureSink {
    ghost seen = { λ _. record { taken = Untold; flushed = 0; faults = 0 } };

    fn write(&mut self, piece: &[u8]) -> Result<usize, Failed>
        requires { 0 < length piece.now }
        ensures all { result ≡ Ok (length piece.now) }
    {
        Ok(piece.len())
    }

    fn flush(&mut self) -> Result<(), Failed>
        ensures sure { IsOk result }
    {
        Ok(())
    }
}
