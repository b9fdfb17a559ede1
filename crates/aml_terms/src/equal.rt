ghost use Rattle.std.specs.Prelude.{◌≡◌, ◌↔◌, IsTrue};

use crate::term::{Path, Term};

/// Tells whether two terms are equal: of one kind, with equal parts.
#[cycle(equal)]
pub fn are_equal(left: &Term, right: &Term) -> bool
    ensures { IsTrue result ↔ (left.now ≡ right.now) }
{
    match (left, right) {
        (Term::Int(left), Term::Int(right)) => left == right,
        (Term::Fixed(left), Term::Fixed(right)) => left == right,
        (Term::Ones, Term::Ones) => true,
        (Term::Chars(left), Term::Chars(right)) => left.as_slice() == right.as_slice(),
        (Term::Buffer(left), Term::Buffer(right)) => left.as_slice() == right.as_slice(),
        (Term::Package(left), Term::Package(right)) => are_all_equal(
            left.as_slice(),
            right.as_slice(),
        ),
        (Term::Named(path, left), Term::Named(other, right)) => is_same_path(path, other)
            && are_equal(left.get(), right.get()),
        (Term::Scope(path, left), Term::Scope(other, right)) => is_same_path(path, other)
            && are_all_equal(left.as_slice(), right.as_slice()),
        (Term::Device(path, left), Term::Device(other, right)) => is_same_path(path, other)
            && are_all_equal(left.as_slice(), right.as_slice()),
        _ => false,
    }
}

/// Tells whether two lists of terms are equal, term by term.
#[cycle(equal)]
pub fn are_all_equal(left: &[Term], right: &[Term]) -> bool
    ensures { IsTrue result ↔ (left.now ≡ right.now) }
{
    if left.len() != right.len() {
        return false;
    }
    'terms: for (at, term) in left.iter().enumerate() {
        if !are_equal(term, &right[at]) {
            return false;
        }
    }
    true
}

fn is_same_path(left: &Path, right: &Path) -> bool
    ensures { IsTrue result ↔ (left.now ≡ right.now) }
{
    left.root == right.root
        && left.parents == right.parents
        && left.segments.as_slice() == right.segments.as_slice()
}
