ghost use Rattle.std.specs.Prelude.{◌≡◌};
ghost use Rattle.vt_outside.specs.Stream.{LineFeeds};

use crate::fault::Failed;
use crate::stream::Sink;
use std::marker::Model;

/// A sink that keeps nothing of what it takes but how many line feeds there were, and never fails. Contracts see that count, which
/// stays at the last value of a u64.
#[derive(Debug, Drop)]
pub struct LineCounter {
    line_feeds: u64,
}

impl Model for LineCounter {
    ghost use Rattle.std.specs.Prelude.{ℕ};

    ghost Value = { ℕ };

    ghost view = { λ s. s.line_feeds };
}

impl LineCounter {
    /// Makes the sink, which has counted none. It takes no memory.
    pub fn new() -> LineCounter
        ensures { result ≡ 0 }
    {
        LineCounter { line_feeds: 0 }
    }

    /// Returns how many line feeds were taken.
    pub fn line_feeds(&self) -> u64
        ensures { result ≡ self.now }
    {
        self.line_feeds
    }
}

impl Sink for LineCounter {
    ghost seen = { λ count. record { taken = LineFeeds count; flushed = 0; faults = 0 } };

    fn write(&mut self, piece: &[u8]) -> Result<usize, Failed> {
        let more = piece.iter().filter(|byte| **byte == b'\n').count();
        self.line_feeds = self.line_feeds.saturating_add(more as u64);
        Ok(piece.len())
    }

    fn flush(&mut self) -> Result<(), Failed> {
        Ok(())
    }
}
