//! The rules of a machine's ranges of memory.

ghost use Rattle.std.specs.Prelude.{◌≡◌, ◌||◌, not, if◌then◌else◌};
ghost use Rattle.machine_desc.specs.Rules.{first_failing, is_empty, is_memory, is_low, is_lawful_range, end_of, with_ends};

use crate::machine::Machine;
use crate::smbios_parts::MemRange;

impl Machine {
    pub(crate) fn has_ranges_where_it_has_dimms(&self) -> bool
        ensures { result ≡ (if is_empty self.now.dimms then is_empty self.now.ranges else not (is_empty self.now.ranges)) }
    {
        (self.dimms.len() == 0) == (self.ranges.len() == 0)
    }

    pub(crate) fn has_memory_below_its_top(&self) -> bool
        ensures { result ≡ (is_empty self.now.ranges || is_memory self.now.top_mib self.now.ranges) }
    {
        self.ranges.len() == 0 || is_memory(self.top_mib, self.ranges.as_slice())
    }
}

// Whether the ranges that begin below 4 GiB are all memory below a top: each begins where the one before it ends.
fn is_memory(top_mib: u32, ranges: &[MemRange]) -> bool
    ensures { result ≡ is_memory top_mib ranges.now }
{
    let mut from = 0;
    for range in ranges {
        if is_low(*range) {
            if range.base_mib as u64 != from {
                return false;
            }
            from = end_of(*range);
        }
    }
    from == top_mib as u64
}

// The place of the first range that is empty, ends past 2^32 MiB, or begins before the end of the one before.
pub(crate) fn unlawful_range(ranges: &[MemRange]) -> Option<usize>
    ensures { result ≡ first_failing is_lawful_range (with_ends ranges.now) }
{
    let mut end = 0;
    for (index, range) in ranges.iter().enumerate() {
        if !is_lawful_range(end, *range) {
            return Some(index);
        }
        end = end_of(*range);
    }
    None
}

fn is_lawful_range(end_before: u64, range: MemRange) -> bool
    ensures { result ≡ is_lawful_range (end_before, range) }
{
    1 <= range.size_mib && end_of(range) <= 1 << 32 && end_before <= range.base_mib as u64
}

fn is_low(range: MemRange) -> bool
    ensures { result ≡ is_low range }
{
    range.base_mib < 4096
}

// The first address behind a range, in MiB.
fn end_of(range: MemRange) -> u64
    ensures { result ≡ end_of range }
{
    range.base_mib as u64 + range.size_mib as u64
}
