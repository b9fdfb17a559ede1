ghost use Rattle.std.specs.Prelude.{◌≡◌};
ghost use Rattle.aml_terms.specs.declared.fault.AmlFault.TheVariants.{OutOfMemory as NoMemory};

use std::alloc::AllocFailed;
use thiserror::Error;
use vt_outside::OutOfMemory;

/// Why bytes aren't read as terms: the first fault, and its place, which counts from 0 at the first byte that is read.
#[derive(Clone, Copy, Debug, PartialEq, Eq, Error)]
pub enum AmlFault {
    /// A text ends inside a term. The place is its end: that of the enclosing package, or of all bytes.
    #[error("a term is cut at byte {0}")]
    Truncated(u32),
    /// The package length at this place is spelled wrongly, is too short, or runs past the enclosing text.
    #[error("a bad package length at byte {0}")]
    BadLength(u32),
    /// The byte at this place can't stand in a name.
    #[error("a bad name at byte {0}")]
    BadName(u32),
    /// What stands at this place is nothing of the grammar.
    #[error("byte {0} is outside the grammar")]
    OutsideGrammar(u32),
    /// Memory ran out.
    #[error("out of memory")]
    OutOfMemory,
}

impl From<OutOfMemory> for AmlFault {
    ghost from_gives = { λ _ fault. fault ≡ NoMemory };

    fn from(_fault: OutOfMemory) -> AmlFault {
        AmlFault::OutOfMemory
    }
}
