ghost use Rattle.std.specs.Prelude.{◌≡◌, ◌++◌, OnOk, OnErr, Err};
ghost use Rattle.aml_terms.specs.Trees.{view, views};
ghost use Rattle.aml_terms.specs.WellFormed.{AreGood, IsWellFormed};
ghost use Rattle.aml_terms.specs.Written.{AreShort, IsShort, all_spelled, spelled};
ghost use Rattle.aml_encode.specs.Bodies.{bodies};
ghost use Rattle.aml_encode.specs.Writable.{IsWritable};

use crate::fault::TermFault;
use crate::measure::measure;
use crate::sizes::Sizes;
use crate::write::write;
use aml_terms::Term;
use vt_outside::{Bytes, List, OutOfMemory};

/// Appends the spelling of `term`, which must be well formed, to `into`: of all the shortest, but for `Fixed`, which is a dword. A value
/// that stands alone has the spelling that it has as the value of a name.
///
/// Returns `TermTooLong` exactly where a package length in it would be 2^28 or more, and `OutOfMemory` when memory runs out. After a fault
/// `into` is as before.
#[tactic(auto, using(crate::proofs::Good::writable))]
pub fn encode_term(term: &Term, into: &mut Bytes) -> Result<(), TermFault>
    requires { IsWellFormed (view term.now) }
    ensures ok { OnOk result (into.new ≡ into.old ++ spelled (view term.now)) }
    ensures short { OnOk result (IsShort (view term.now)) }
    ensures too_long { result ≡ Err TermFault.TermTooLong → ¬ IsShort (view term.now) }
    ensures kept { OnErr result (into.new ≡ into.old) }
{
    let mut sizes = List::new(into.allocator());
    measure(term, &mut sizes)?;
    append(term, sizes.as_slice(), into)?;
    Ok(())
}

// Appends the spelling of a term by the sizes of the bodies in it, or nothing when memory runs out.
fn append(term: &Term, sizes: &[u32], into: &mut Bytes) -> Result<(), OutOfMemory>
    requires writable { IsWritable (view term.now) }
    requires short { IsShort (view term.now) }
    requires sizes { sizes.now ≡ bodies (view term.now) }
    ensures ok { OnOk result (into.new ≡ into.old ++ spelled (view term.now)) }
    ensures kept { OnErr result (into.new ≡ into.old) }
{
    let before = into.len();
    let mut left = Sizes::of(sizes);
    let written = write(term, &mut left, into);
    if written.is_err() {
        into.cut(before);
    }
    written
}

/// Appends the spelling of each of `terms`, which must be well formed names, scopes and devices, to `into`, in order, as `encode_term` does.
///
/// Returns `TermTooLong` exactly where a package length in one of them would be 2^28 or more, and `OutOfMemory` when memory runs out. After
/// a fault `into` is as before.
pub fn encode_terms(terms: &[Term], into: &mut Bytes) -> Result<(), TermFault>
    requires { AreGood (views terms.now) }
    ensures ok { OnOk result (into.new ≡ into.old ++ all_spelled (views terms.now)) }
    ensures short { OnOk result (AreShort (views terms.now)) }
    ensures too_long { result ≡ Err TermFault.TermTooLong → ¬ AreShort (views terms.now) }
    ensures kept { OnErr result (into.new ≡ into.old) }
{
    let start = into.len();
    'terms: for term in terms {
        match encode_term(term, into) {
            Ok(()) => {}
            Err(fault) => {
                into.cut(start);
                return Err(fault);
            }
        }
    }
    Ok(())
}
