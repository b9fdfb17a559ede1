ghost use Rattle.std.specs.Prelude.{◌≡◌, ◌↔◌, IsTrue, option_map};

/// What is told to be equal to another of its kind by its parts.
pub(crate) trait Same {
    /// Tells whether it is equal to `other`.
    fn is_same(&self, other: &Self) -> bool
        ensures { IsTrue result ↔ (self.now ≡ other.now) };
}

/// Tells whether two lists are equal: as long as one another, and item by item.
pub(crate) fn are_all_same<T: Same>(left: &[T], right: &[T]) -> bool
    ensures { IsTrue result ↔ (left.now ≡ right.now) }
{
    if left.len() != right.len() {
        return false;
    }
    for (at, item) in left.iter().enumerate() {
        if !item.is_same(&right[at]) {
            return false;
        }
    }
    true
}

/// Tells whether two options are equal: neither is there, or both are and are equal.
pub(crate) fn are_both_same<T: Same>(left: Option<&T>, right: Option<&T>) -> bool
    ensures { IsTrue result ↔ (option_map (λ item. item.now) left.entry ≡ option_map (λ item. item.now) right.entry) }
{
    match (left, right) {
        (Some(left), Some(right)) => left.is_same(right),
        (None, None) => true,
        _ => false,
    }
}
