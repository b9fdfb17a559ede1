ghost use Rattle.std.specs.Prelude.{◌≡◌, ℕ, true, ◌<◌, ◌≤◌, length, Option, IfOk, OnErr, is_ok};
ghost use Rattle.std.specs.Int.{is_power_of_two};
ghost use Rattle.std.specs.Result.{result_ok};
ghost use Rattle.vt_outside.specs.Placement.{IsFree};
ghost use Rattle.zone_alloc.specs.Allocators.{begun_as, reset_as, with_range, with_refusal};
ghost use Rattle.zone_alloc.specs.Places.{range_in, HaveAddresses};

use crate::policy::Policy;
use crate::zone::Zone;
use crate::zones::Zones;
use std::alloc::Global;
use thiserror::Error;
use vt_outside::OutOfMemory;

/// How many ranges an allocator hands out at most, from one `begin` to the next.
pub const MOST_RANGES: usize = 1024;

// The number that the clauses have.
const _: () = prove!(MOST_RANGES == 1024);

/// A place was refused, and the allocator that was asked has counted it.
#[derive(Clone, Copy, Debug, PartialEq, Eq, Error)]
#[error("no room for the file")]
pub struct NoRoom;

/// What a place was asked for.
#[derive(Clone, Copy, Debug, PartialEq, Eq)]
pub struct Request {
    /// The zone of memory.
    pub zone: Zone,
    /// The size of the file in bytes, at least 1.
    pub size: u32,
    /// The place was to be a multiple of this power of two, in bytes.
    pub align: u32,
}

/// What gives files their places in the zones of memory.
pub trait ZoneAlloc {
    ghost use Rattle.zone_alloc.specs.declared.alloc.Request.{Request};
    ghost use Rattle.zone_alloc.specs.Allocators.{AllocState};

    // What it was begun with, the ranges that are handed out, and what it has refused.
    ghost state: { Self → AllocState };

    // Where it may place what a request asks for, or None for a refusal.
    ghost gives: { Self → Request → Option ℕ → Type 0 };

    /// Hands nothing out any more, and takes the zones of `within`, each of which must have an address, and the policy `by`. Memory for
    /// [`MOST_RANGES`] ranges is reserved from `alloc` here, so that `place` takes none. The count of refusals stays.
    ///
    /// On `OutOfMemory` there is no memory for so many ranges, and `place` can't be called before another `begin`.
    fn begin(&mut self, alloc: Global, within: Zones, by: Policy) -> Result<(), OutOfMemory>
        requires { HaveAddresses within }
        ensures { state self.new ≡ begun_as within by (is_ok result) (state self.old) };

    /// Hands nothing out any more, as a `begin` with the same zones and the same policy would, and forgets the request that was refused last.
    /// The count of refusals stays. It takes no memory. Before it, `begin` must have had memory.
    fn reset(&mut self)
        requires { (state self.old).begun.ready ≡ true }
        ensures { state self.new ≡ reset_as (state self.old) };

    /// Returns a place in `zone` for a file of `size` bytes, at least 1: a multiple of `align`, a power of two, from which the
    /// file lies in the zone and apart from each range that was handed out. The file's range is handed out then. Before it,
    /// `begin` must have had memory, and fewer than [`MOST_RANGES`] ranges be handed out.
    ///
    /// On `NoRoom` nothing is handed out. The refusal is counted, where the count isn't full.
    fn place(&mut self, zone: Zone, size: u32, align: u32) -> Result<u64, NoRoom>
        requires begun { (state self.old).begun.ready ≡ true }
        requires room { length (state self.old).handed < 1024 }
        requires size { 0 < size }
        requires align { is_power_of_two align ≡ true }
        ensures lawful { IfOk result (λ place. IsFree (range_in (state self.old).begun.zones zone) (state self.old).handed size align place) }
        ensures ok { IfOk result (λ place.
            state self.new ≡ with_range (record { zone = zone; size = size; align = align }) place (state self.old)) }
        ensures err { OnErr result (state self.new ≡ with_refusal (record { zone = zone; size = size; align = align }) (state self.old)) }
        ensures gives { gives self.old (record { zone = zone; size = size; align = align }) (result_ok result) }
        ensures never_falls { (state self.old).refusals ≤ (state self.new).refusals };
}
