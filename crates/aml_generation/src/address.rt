//! The address that a package tells.

ghost use Rattle.std.specs.Prelude.{◌≡◌};
ghost use Rattle.aml_terms.specs.Trees.{pack, view, views};
ghost use Rattle.aml_generation.specs.Generation.{integer_of, joined, address_of, taken_of_value};

use aml_terms::Term;
use vt_outside::List;

// Takes the address out of a value that tells one: zeros stay there.
pub(crate) fn take_address(value: &mut Term) -> Option<u64>
    ensures { (result, view value.new) ≡ taken_of_value (view value.old) }
{
    match value {
        Term::Package(halves) => take_of_halves(halves),
        _ => None,
    }
}

// Takes the address out of the values whose package tells one.
fn take_of_halves(halves: &mut List<Term>) -> Option<u64>
    ensures { (result, pack (views halves.new)) ≡ taken_of_value (pack (views halves.old)) }
{
    let address = address_in(halves.as_slice());
    if address.is_some() {
        halves.set(0, Term::Int(0));
        halves.set(1, Term::Int(0));
    }
    address
}

// The address whose halves these are.
#[tactic(auto, using(crate::proofs::Halves::none_of_few, crate::proofs::Halves::none_of_many))]
fn address_in(halves: &[Term]) -> Option<u64>
    ensures { result ≡ address_of (pack (views halves.now)) }
{
    match halves {
        [low, high] => joined(integer_of(low), integer_of(high)),
        _ => None,
    }
}

fn joined(low: Option<u64>, high: Option<u64>) -> Option<u64>
    ensures { result ≡ joined low high }
{
    match (low, high) {
        (Some(low), Some(high)) if low < 1 << 32 && high < 1 << 32 => Some(low + (high << 32)),
        _ => None,
    }
}

fn integer_of(value: &Term) -> Option<u64>
    ensures { result ≡ integer_of (view value.now) }
{
    match value {
        Term::Int(number) => Some(*number),
        Term::Fixed(number) => Some(u64::from(*number)),
        _ => None,
    }
}
