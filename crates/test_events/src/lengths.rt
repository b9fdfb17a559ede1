//! Scripts of zeros by their length, and no script.

use crate::cases::{Case, all_end, items_end};
use crate::files::{FILES, items_with};
use crate::scripts::Line::Zeros;
use firmware_load::LoadFault::{NoScript, ScriptLength};
use std::test::Fail;

// A command has 128 bytes, and a script at most 1,048,576.
static LENGTHS: [Case<'static>; 6] = [
    Case {
        script: &[],
        answer: Ok(()),
        left: &[],
    },
    Case {
        script: &[Zeros(127)],
        answer: Err(ScriptLength),
        left: &[],
    },
    Case {
        script: &[Zeros(128)],
        answer: Ok(()),
        left: &[],
    },
    Case {
        script: &[Zeros(129)],
        answer: Err(ScriptLength),
        left: &[],
    },
    Case {
        script: &[Zeros(1_048_576)],
        answer: Ok(()),
        left: &[],
    },
    Case {
        script: &[Zeros(1_048_704)],
        answer: Err(ScriptLength),
        left: &[],
    },
];

#[test]
fn lengths(rt: HostRuntime) -> Result<(), Fail> {
    all_end(&rt, rt.alloc(), &LENGTHS)
}

static NO_SCRIPT: Case<'static> = Case {
    script: &[],
    answer: Err(NoScript),
    left: &[],
};

#[test]
fn no_script(rt: HostRuntime) -> Result<(), Fail> {
    let items = items_with(rt.alloc(), &FILES, 0, &[])?;
    items_end(&rt, rt.alloc(), items, &[], &NO_SCRIPT)
}
