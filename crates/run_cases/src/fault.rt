//! Why the cases of a file aren't run.

use std::alloc::{AllocError, AllocFailed};
use thiserror::Error;
use vt_outside::OutOfMemory;

#[derive(Clone, Copy, Debug, Error)]
pub(crate) enum Fault {
    #[error("read or write fault")]
    Stream,
    #[error("out of memory")]
    OutOfMemory,
    #[error("no word that may stand here")]
    UnknownWord,
    #[error("not what is told behind this word")]
    BadValue,
    #[error("no case is begun")]
    NoCase,
    #[error("the case before has no end")]
    NoEnd,
    #[error("the name of a case above")]
    NameAgain,
    #[error("told twice")]
    ToldTwice,
    #[error("nothing is kept under this name")]
    NothingKept,
    #[error("no row of this address")]
    NoRow,
}

impl From<OutOfMemory> for Fault {
    fn from(_error: OutOfMemory) -> Fault {
        Fault::OutOfMemory
    }
}

impl From<AllocError> for Fault {
    fn from(_error: AllocError) -> Fault {
        Fault::OutOfMemory
    }
}

impl<T: Drop> From<AllocFailed<T>> for Fault {
    fn from(_error: AllocFailed<T>) -> Fault {
        Fault::OutOfMemory
    }
}
