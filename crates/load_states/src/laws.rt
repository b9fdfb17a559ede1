//! Laws of the load. Each is the contract of a function that does nothing.

ghost use Rattle.std.specs.Prelude.{◌≡◌, ℕ, List, [], ◌∷◌, ◌++◌};
ghost use Rattle.cfg_dma.specs.Touching.{MayTouch};
ghost use Rattle.command_acts.specs.Allocators.{AreLawful};
ghost use Rattle.command_acts.specs.FilesInMemory.{placed_ranges};
ghost use Rattle.load_states.specs.declared.event.Event.{Event};
ghost use Rattle.load_states.specs.Kept.{IsKept, KeepsNow};
ghost use Rattle.load_states.specs.Loads.{IsBegun};
ghost use Rattle.load_states.specs.LoadState.{LoadState, Opening};
ghost use Rattle.load_states.specs.Pace.{IsUnrefused, pace_of, paced};
ghost use Rattle.load_states.specs.Pieces.{IsRunSince};
ghost use Rattle.load_states.specs.Runs.{AnyLawful, NoAnswer, RunsTo, StepsTo};
ghost use Rattle.load_states.specs.Touching.{IsOwn};

/// Answers of allocators. The laws hold of any.
pub trait Answering {
    ghost use Rattle.std.specs.Prelude.{ℕ, List, Option};
    ghost use Rattle.vt_outside.specs.Placement.{Range};
    ghost use Rattle.zone_alloc.specs.declared.alloc.Request.{Request};

    // How a place may be answered: by the ranges that are handed out, the request, and the place that is given, or None for a refusal.
    ghost may: { List Range → Request → Option ℕ → Type 0 };
}

/// States that a load that is begun keeps, over no events, what a load keeps, however places will be answered.
pub fn a_begun_load_is_kept<A: Answering>()
    ensures { (its : Opening) (w : LoadState) → IsBegun its w → IsKept A.may its [] w }
{}

/// States that what a load keeps to which no place was answered it keeps however places will be answered.
pub fn no_answer_is_any<A: Answering>()
    ensures { (its : Opening) (events : List Event) (w : LoadState)
        → IsKept NoAnswer its events w → IsKept A.may its events w }
{}

/// States that each step of the load keeps what it keeps, for every event, where places are answered lawfully.
pub fn a_step_keeps<A: Answering>()
    ensures { (its : Opening) (events : List Event) (event : Event) (w next : LoadState) → AreLawful A.may its.top
        → IsKept A.may its events w → StepsTo A.may event w next → IsKept A.may its (events ++ event ∷ []) next }
{}

/// States that the transfer in flight, if there is one, touches no addresses but those of the work range and of placed files.
pub fn a_transfer_touches_what_is_its_own<A: Answering>()
    ensures { (its : Opening) (w : LoadState) (address : ℕ) → KeepsNow A.may its w
        → MayTouch w.attached.device.flight address → IsOwn (placed_ranges w.placed) address }
{}

/// States that what was run over events with resets is, by its pieces, what was run from the load that was begun, and in the end agrees with
/// what was run since the last reset in everything but memory; where there was no reset in memory too.
pub fn what_came_before_a_reset_is_forgotten<A: Answering>()
    ensures { (its : Opening) (events : List Event) (begun from last : LoadState) → AreLawful A.may its.top → IsBegun its begun
        → KeepsNow (AnyLawful its.top) its from → RunsTo A.may events from last → IsRunSince A.may begun from events last }
{}

/// States that an event leads from one pace of a load to the next by a function of the items and the event alone, where the load isn't
/// refused.
pub fn a_step_is_paced<A: Answering>()
    ensures { (its : Opening) (event : Event) (w next : LoadState) → AreLawful A.may its.top → KeepsNow A.may its w
        → StepsTo A.may event w next → IsUnrefused next.stage → pace_of next ≡ paced its.items event (pace_of w) }
{}

/// States that two loads of the same items, over the same events, are at one pace where neither is refused, whatever places their files were
/// given. So where one has ended so has the other.
pub fn loads_go_at_one_pace<A: Answering, B: Answering>()
    ensures { (its : Opening) (events : List Event) (begun w other : LoadState) → AreLawful A.may its.top → AreLawful B.may its.top
        → IsBegun its begun → RunsTo A.may events begun w → RunsTo B.may events begun other → IsUnrefused w.stage → IsUnrefused other.stage
        → pace_of other ≡ pace_of w }
{}
