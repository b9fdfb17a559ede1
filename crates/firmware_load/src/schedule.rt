ghost use Rattle.std.specs.Prelude.{◌≡◌, ℕ, ◌^◌, ◌≤◌, [], ◌∷◌, IfSome, IfNone};

use load_states::Event;

/// What gives events one after the other, by a seed.
pub trait Schedule {
    ghost use Rattle.firmware_load.specs.Schedules.{Plan};

    // The events that it has for each seed, and those that are left. For a number that isn't a u64 there are none.
    ghost plan: { Self → Plan };

    /// Begins with the events of `seed`: all of them are left, and none of another seed.
    fn begin(&mut self, seed: u64)
        ensures plan { plan self.new ≡ record (plan self.old) { left = (plan self.old).events seed } }
        ensures no_seed { (number : ℕ) → 2 ^ 64 ≤ number → (plan self.new).events number ≡ [] };

    /// Takes the first of the events that are left, and returns it, or `None` where none is left.
    fn next(&mut self) -> Option<Event>
        ensures taken { IfSome result (λ event. plan self.old ≡ record (plan self.new) { left = event ∷ (plan self.new).left }) }
        ensures end { IfNone result ((plan self.old).left ≡ []) }
        ensures same { IfNone result (plan self.new ≡ plan self.old) };
}
