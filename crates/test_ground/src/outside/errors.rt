//! The texts of errors.

use crate::outside::asserts::is_text;
use std::test::Fail;
use vt_outside::{Failed, OutOfMemory};

#[test]
fn texts_of_errors(rt: HostRuntime) -> Result<(), Fail> {
    is_text(
        &rt,
        Failed.to_string(rt.alloc())?.as_str(),
        "a read or a write failed",
    );
    is_text(
        &rt,
        OutOfMemory.to_string(rt.alloc())?.as_str(),
        "out of memory",
    );
    Ok(())
}
