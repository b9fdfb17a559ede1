ghost use Rattle.std.specs.Prelude.{◌≡◌};
ghost use Rattle.aml_encode.specs.declared.fault.TermFault.TheVariants.{OutOfMemory as NoMemory};

use thiserror::Error;
use vt_outside::OutOfMemory;

/// Why a term isn't written.
#[derive(Clone, Copy, Debug, PartialEq, Eq, Error)]
pub enum TermFault {
    /// A package length in it would be 2^28 or more.
    #[error("a package in the term is too long")]
    TermTooLong,
    /// Memory ran out.
    #[error("out of memory")]
    OutOfMemory,
}

impl From<OutOfMemory> for TermFault {
    ghost from_gives = { λ _ fault. fault ≡ NoMemory };

    fn from(_fault: OutOfMemory) -> TermFault {
        TermFault::OutOfMemory
    }
}
