ghost use Rattle.std.specs.Prelude.{◌≡◌};
ghost use Rattle.vt_words.specs.Policies.{policy_at};

use zone_alloc::Policy;

// The policy whose name stands at `place` among the words of its option, where `seed` is that of the words.
pub(crate) fn policy_at(seed: u64, place: usize) -> Policy
    ensures { result ≡ policy_at seed place }
{
    match place {
        0 => Policy::Low,
        1 => Policy::Top,
        _ => Policy::Scatter(seed),
    }
}
