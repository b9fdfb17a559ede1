ghost use Rattle.std.specs.Prelude.{◌≡◌, ◌≤◌, ◌∷◌, length};

use std::marker::Model;

/// The sizes of the packages that are still to be written, in order. Contracts see the list of them.
#[derive(Drop)]
pub(crate) struct Sizes<'a> {
    left: &'a [u32],
}

impl<'a> Model for Sizes<'a> {
    ghost use Rattle.std.specs.Prelude.{ℕ, List};

    ghost Value = { List ℕ };

    ghost view = { λ s. s.left.now };
}

impl<'a> Sizes<'a> {
    /// Begins with all of `sizes`.
    pub(crate) fn of(sizes: &'a [u32]) -> Sizes<'a>
        ensures { result ≡ sizes.now }
    {
        Sizes { left: sizes }
    }

    /// Takes the next size, of which there must be one.
    pub(crate) fn take(&mut self) -> u32
        requires { 1 ≤ length self.old }
        ensures { self.old ≡ result ∷ self.new }
    {
        let size = self.left[0];
        self.left = &self.left[1..];
        size
    }
}
