ghost use Rattle.std.specs.Prelude.{◌≡◌, ℕ, ◌+◌};
ghost use Rattle.zone_alloc.specs.Words.{IsNextWord};

use rand_core::SeedableRng;
use rand_core::utils::NextWord;
use rand_pcg::Pcg32;

/// The words of a seed: the next one, and the generator of those behind it.
#[derive(Debug, Drop)]
pub(crate) struct Words {
    pub(crate) next: u32,
    pub(crate) rest: Pcg32,
}

impl Words {
    /// Returns the words of `seed`, from the first one on.
    pub(crate) fn of_seed(seed: u64) -> Words
        ensures { IsNextWord seed 0 result }
    {
        let mut rest = Pcg32::seed_from_u64(seed);
        let next = rest.next_word();
        Words { next, rest }
    }

    /// Takes the next word.
    pub(crate) fn take(&mut self)
        ensures { (seed k : ℕ) → IsNextWord seed k self.old → IsNextWord seed (k + 1) self.new }
    {
        self.next = self.rest.next_word();
    }
}
