ghost use Rattle.std.specs.Prelude.{◌≡◌, ◌==◌, ◌<◌, ◌≤◌, ◌↔◌, [], ◌++◌, true, false, length, take, drop, min, Some, Ok, IsErr, IsOk, IfOk, OnErr};
ghost use Rattle.vt_outside.specs.MemoryStream.{CallFails, after_call};
ghost use Rattle.vt_outside.specs.Stream.{next_count};

use crate::bytes::Bytes;
use crate::fault::Failed;
use crate::list::List;
use crate::listed::is_listed;
use crate::stream::Source;
use std::marker::Model;

/// A source of bytes in memory, which it gives in pieces, and whose reads fail where the caller says so.
#[derive(Debug, Drop)]
pub struct ListSource {
    bytes: Bytes,
    given: usize,
    piece: usize,
    fails: List<u32>,
    calls: u64,
    faults: u64,
    ended: bool,
}

impl Model for ListSource {
    ghost use Rattle.std.specs.Prelude.{◌≡◌, ◌≤◌, ◌<◌, true, drop, length};
    ghost use Rattle.vt_outside.specs.MemoryStream.{SourceState};

    ghost Value = { SourceState };

    ghost view = { λ s. record {
      left = drop s.given s.bytes;
      piece = s.piece;
      fails = s.fails;
      calls = s.calls;
      faults = s.faults;
      ended = s.ended;
    } };

    ghost invariant = { λ s. (s.given ≤ length s.bytes) × (0 < s.piece) × (s.ended ≡ true → s.given ≡ length s.bytes) };
}

impl ListSource {
    /// Makes a source that gives `bytes`, in order. A read gives at most `piece` bytes, which must be at least 1. `fails` lists
    /// the reads that fail, each by its number: reads are counted from 0, up to the one that finds no byte left. It takes no memory.
    pub fn new(bytes: Bytes, piece: usize, fails: List<u32>) -> ListSource
        requires { 0 < piece }
        ensures { result ≡ record { left = bytes; piece = piece; fails = fails; calls = 0; faults = 0; ended = false } }
    {
        ListSource {
            bytes,
            given: 0,
            piece,
            fails,
            calls: 0,
            faults: 0,
            ended: false,
        }
    }
}

impl Source for ListSource {
    ghost seen = { λ s. record { left = Some s.left; ended = s.ended; faults = s.faults } };

    fn read(&mut self, into: &mut [u8]) -> Result<usize, Failed>
        requires { 0 < length into.old }
        // The call fails exactly where its number is listed, and never behind the end.
        ensures fails { IsErr result ↔ CallFails self.old }
        ensures failed { OnErr result (self.new ≡ record self.old { calls = next_count self.old.calls; faults = next_count self.old.faults }) }
        ensures untouched { OnErr result (into.new ≡ into.old) }

        // Else it gives as many bytes as a piece, `into` and what is left allow.
        ensures given { IfOk result (λ n. self.old.left ≡ take n into.new ++ self.new.left) }
        ensures count { IfOk result (λ n. n ≡ min (min self.old.piece (length into.old)) (length self.old.left)) }
        ensures ok { IfOk result (λ n. self.new ≡ after_call n self.old) }
        ensures behind { IfOk result (λ n. drop n into.new ≡ drop n into.old) }
        ensures none_left { IfOk result (λ n. n ≡ 0 → self.old.left ≡ []) }
        ensures ended { self.old.ended ≡ true → (result ≡ Ok 0) × (self.new ≡ self.old) }
        ensures never_falls { self.old.faults ≤ self.new.faults }
    {
        if self.ended {
            return Ok(0);
        }
        let call = self.calls;
        self.calls = self.calls.saturating_add(1);
        if is_listed(self.fails.as_slice(), call) {
            self.faults = self.faults.saturating_add(1);
            return Err(Failed);
        }
        let rest = &self.bytes.as_slice()[self.given..];
        let count = self.piece.min(into.len()).min(rest.len());
        into[..count].copy_from_slice(&rest[..count]);
        self.given += count;
        self.ended = count == 0;
        Ok(count)
    }
}

/// A source of bytes in memory, whose reads never fail.
#[derive(Debug, Drop)]
pub struct SureSource {
    bytes: Bytes,
    given: usize,
}

impl Model for SureSource {
    ghost use Rattle.std.specs.Prelude.{ℕ, List as ListOf, ◌≤◌, drop, length};

    ghost Value = { ListOf ℕ };

    ghost view = { λ s. drop s.given s.bytes };

    ghost invariant = { λ s. s.given ≤ length s.bytes };
}

impl SureSource {
    /// Makes a source that gives `bytes`, in order. It takes no memory.
    pub fn new(bytes: Bytes) -> SureSource
        ensures { result ≡ bytes }
    {
        SureSource { bytes, given: 0 }
    }
}

impl Source for SureSource {
    // It has ended where nothing is left.
    ghost seen = { λ s. record { left = Some s; ended = length s == 0; faults = 0 } };

    fn read(&mut self, into: &mut [u8]) -> Result<usize, Failed>
        requires { 0 < length into.old }
        ensures sure { IsOk result }
        ensures given { IfOk result (λ n. self.old ≡ take n into.new ++ self.new) }
        ensures count { IfOk result (λ n. n ≡ min (length into.old) (length self.old)) }
        ensures fits { IfOk result (λ n. n ≤ length into.new) }
        ensures behind { IfOk result (λ n. drop n into.new ≡ drop n into.old) }
    {
        let rest = &self.bytes.as_slice()[self.given..];
        let count = into.len().min(rest.len());
        into[..count].copy_from_slice(&rest[..count]);
        self.given += count;
        Ok(count)
    }
}
