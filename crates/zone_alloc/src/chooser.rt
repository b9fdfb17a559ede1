ghost use Rattle.std.specs.Prelude.{◌≡◌, ℕ, ◌+◌, ◌<◌, ◌^◌, ◌≤◌, length, IfSome, MatchOption};
ghost use Rattle.zone_alloc.specs.Places.{HasNoPlace};
ghost use Rattle.zone_alloc.specs.Policies.{IsFirstFrom, IsShelfPlace};
ghost use Rattle.zone_alloc.specs.Ranges.{range_of};
ghost use Rattle.zone_alloc.specs.Words.{policy_of, IsAtWord};

use crate::handed::HandedRanges;
use crate::policy::Policy;
use crate::searching::AddressRange;
use crate::words::Words;

/// How places are chosen: the policy, and of a scatter the words that the next ranges take.
#[derive(Debug, Drop)]
pub(crate) enum Chooser {
    Low,
    Top,
    Scatter {
        // Only contracts read it, in the policy.
        seed: u64,
        words: Words,
    },
}

impl Chooser {
    /// Returns the chooser of `policy`, before any range is handed out.
    pub(crate) fn of(policy: Policy) -> Chooser
        ensures policy { policy_of result ≡ policy }
        ensures word { IsAtWord 0 result }
    {
        match policy {
            Policy::Low => Chooser::Low,
            Policy::Top => Chooser::Top,
            Policy::Scatter(seed) => Chooser::Scatter {
                seed,
                words: Words::of_seed(seed),
            },
        }
    }

    /// Returns the place in `zone` that the policy chooses for a file of `size` bytes, at least 1, at a multiple of `align`, at least 1,
    /// or `None` where none is free. The zone has an address, and each of the `handed` ranges has taken a word.
    pub(crate) fn choose(
        &self,
        handed: &HandedRanges,
        zone: AddressRange,
        size: u64,
        align: u64,
    ) -> Option<u64>
        requires word { IsAtWord (length handed.now) self.now }
        requires zone { zone.start < zone.end }
        requires size { 0 < size }
        requires align { 0 < align }
        ensures chosen { IsShelfPlace (policy_of self.now) (range_of zone) handed.now size align result }
        ensures fits { IfSome result (λ place. place + size < 2 ^ 64) }
    {
        match self {
            Chooser::Low => handed.least_from(zone.start, zone, size, align),
            Chooser::Top => handed.greatest(zone, size, align),
            Chooser::Scatter { words, .. } => {
                let goal = zone.start + u64::from(words.next) % (zone.end - zone.start);
                first_from(handed, goal, zone, size, align)
            }
        }
    }

    /// Goes back to where it began: of a scatter the seed's first word is the next one.
    pub(crate) fn restart(&mut self)
        ensures policy { policy_of self.new ≡ policy_of self.old }
        ensures word { IsAtWord 0 self.new }
    {
        if let Chooser::Scatter { seed, words } = self {
            *words = Words::of_seed(*seed);
        }
    }

    /// Takes a word, for a range that is handed out.
    pub(crate) fn take_word(&mut self)
        ensures policy { policy_of self.new ≡ policy_of self.old }
        ensures word { (k : ℕ) → IsAtWord k self.old → IsAtWord (k + 1) self.new }
    {
        if let Chooser::Scatter { words, .. } = self {
            words.take();
        }
    }
}

// The least place that is free at or above `goal`, or where none is free there, the least in `zone`.
fn first_from(
    handed: &HandedRanges,
    goal: u64,
    zone: AddressRange,
    size: u64,
    align: u64,
) -> Option<u64>
    requires goal { zone.start ≤ goal }
    requires size { 0 < size }
    requires align { 0 < align }
    ensures first { MatchOption result (HasNoPlace (range_of zone) handed.now size align) (IsFirstFrom goal (range_of zone) handed.now size align) }
    ensures fits { IfSome result (λ place. place + size < 2 ^ 64) }
{
    match handed.least_from(goal, zone, size, align) {
        Some(place) => Some(place),
        None => handed.least_from(zone.start, zone, size, align),
    }
}
