ghost use Rattle.std.specs.Prelude.{◌≡◌, length};
ghost use Rattle.memory_dump.specs.Rows.{rows_of};

use crate::writing::dump_to;
use guest_memory::GuestMemory;
use vt_outside::LineCounter;

/// Returns how many rows the dump of `memory` has: the lines between its first and its last. It takes no memory, and holds no text:
/// `dump_to` writes the dump to a sink that counts its line feeds.
pub fn row_count(memory: &GuestMemory) -> u32
    ensures { result ≡ length (rows_of memory.now.memory).rows }
{
    let mut lines = LineCounter::new();
    // A counter never fails.
    dump_to(memory, &mut lines).unwrap();
    (lines.line_feeds() - 2) as u32
}
