//! Scripts that are loaded over no events, and all that they leave. What memory holds was computed by hand from QEMU's rules
//! (hw/acpi/bios-linker-loader.c).

use crate::files::{FILES, items_of};
use crate::rig::{End, Held, ends_without_events};
use crate::scripts::Line;
use cfg_directory::Items;
use firmware_load::LoadFault;
use std::alloc::Global;
use std::process::Abort;
use std::test::Fail;

/// A script, its answer, and all of RAM outside of the work range that the load leaves otherwise than it was.
#[derive(Clone, Copy)]
pub(crate) struct Case<'a> {
    pub(crate) script: &'a [Line],
    pub(crate) answer: Result<(), LoadFault>,
    pub(crate) left: &'a [Held<'a>],
}

/// Each case ends as it says.
pub(crate) fn all_end(rt: &impl Abort, alloc: Global, cases: &[Case<'_>]) -> Result<(), Fail> {
    for case in cases {
        case_ends(rt, alloc, &[], case)?;
    }
    Ok(())
}

/// The load of a case ends as it says, where these calls for a place are refused.
pub(crate) fn case_ends(
    rt: &impl Abort,
    alloc: Global,
    fails: &[u32],
    case: &Case<'_>,
) -> Result<(), Fail> {
    let items = items_of(alloc, &FILES, 0, case.script)?;
    items_end(rt, alloc, items, fails, case)
}

/// The load of a device's files ends as a case says.
pub(crate) fn items_end(
    rt: &impl Abort,
    alloc: Global,
    items: Items,
    fails: &[u32],
    case: &Case<'_>,
) -> Result<(), Fail> {
    ends_without_events(rt, alloc, items, fails, &end_of(case))
}

/// How the load of a case ends.
pub(crate) fn end_of<'a>(case: &Case<'a>) -> End<'a> {
    End {
        answer: case.answer,
        transfers: &[],
        contents: &[],
        left: case.left,
        others: false,
    }
}
