//! Laws of the places that are given. Each is the contract of a function that does nothing.

ghost use Rattle.std.specs.Prelude.{◌≡◌, ℕ, ◌<◌, List, Option, slice_index};
ghost use Rattle.rand_core.specs.Pcg32Seed.{pcg32_seed};
ghost use Rattle.rand_core.specs.Steps.{first_words};
ghost use Rattle.rand_pcg.specs.Pcg.{pcg32, pcg32_of_seed};
ghost use Rattle.vt_outside.specs.Placement.{Range, IsFree};
ghost use Rattle.zone_alloc.specs.declared.policy.Policy.{Policy};
ghost use Rattle.zone_alloc.specs.Policies.{word_of, IsChosen, IsShelfPlace};

/// States that a policy chooses among the free places, and at most one of them, so that all shelves that have handed out the same
/// ranges by one policy answer a request alike.
pub fn one_place_is_chosen()
    ensures free { (policy : Policy) (zone : Range) (handed : List Range) (size align place : ℕ)
        → IsChosen policy zone handed size align place → IsFree zone handed size align place }
    ensures one { (policy : Policy) (zone : Range) (handed : List Range) (size align : ℕ) (a b : Option ℕ)
        → IsShelfPlace policy zone handed size align a → IsShelfPlace policy zone handed size align b → a ≡ b }
{}

/// States that the words of a seed are those that its generator gives one after the other.
pub fn words_come_in_order()
    ensures { (seed count k : ℕ) → k < count → slice_index (first_words pcg32 count (pcg32_of_seed (pcg32_seed 16 seed))) k ≡ word_of seed k }
{}
