//! Loads that end before their script does, or that have nothing to do.

use crate::files::{File, LOADER, SMALL_FILES, items_of, items_with};
use crate::plans::{PADDING, PLACE_ANCHOR, PLACE_TABLES, TABLES, first_reads};
use crate::rig::{End, FILL, Held, ends_without_events};
use crate::scripts::HIGH;
use crate::scripts::Line::{self, AddPointer, Allocate};
use cfg_directory::Items;
use firmware_load::LoadFault::{self, Command, NoRoom, NoScript, ScriptLength};
use loader_script::Cause;
use std::alloc::Global;
use std::process::Abort;
use std::test::Fail;

// The last file's name, how many zeros it holds, and how the load ends.
static UNREAD: [(&str, usize, Result<(), LoadFault>); 3] = [
    ("etc/table-loade", 0, Err(NoScript)),
    (LOADER, 100, Err(ScriptLength)),
    (LOADER, 0, Ok(())),
];

#[test]
fn no_commands(rt: HostRuntime) -> Result<(), Fail> {
    for (name, count, answer) in &UNREAD {
        ends_unread(&rt, rt.alloc(), name, *count, *answer)?;
    }
    Ok(())
}

fn ends_unread(
    rt: &impl Abort,
    alloc: Global,
    name: &str,
    count: usize,
    answer: Result<(), LoadFault>,
) -> Result<(), Fail> {
    let last = File {
        name,
        writable: false,
        bytes: &[0; 100][..count.min(100)],
    };
    let items = items_with(alloc, &SMALL_FILES, 0, &[last])?;
    ends_so(rt, alloc, items, &[], answer, 2, &[NO_TABLES])
}

#[test]
fn no_files(rt: HostRuntime) -> Result<(), Fail> {
    let items = Items::new(rt.alloc());
    ends_so(&rt, rt.alloc(), items, &[], Err(NoScript), 1, &[])
}

const BAD_ALIGN: Line = Allocate("etc/spare", 3, HIGH);

/// Adds 0x3000000 to a number of one byte.
pub(crate) const TOO_FAR: Line = AddPointer("etc/tables", "etc/tables", 4, 1);

const PLACE_SPARE: Line = Allocate("etc/spare", 1, HIGH);

// The first file as it is in the device, and the second one's place where it isn't placed.
const PLAIN: Held<'static> = Held(0xF_0000, b"\x41\x42\x05\0\0\0\x77\x88\0");

const NO_TABLES: Held<'static> = Held(0x300_0000, &[FILL; 5]);

// The command behind the Allocates of both files, the calls for a place that are refused, why the load ends, how many of the small
// load's transfers are over then, and what is left.
struct Refusal {
    line: Line,
    fails: &'static [u32],
    fault: LoadFault,
    count: usize,
    left: &'static [Held<'static>],
}

static REFUSED: [Refusal; 4] = [
    Refusal {
        line: BAD_ALIGN,
        fails: &[],
        fault: Command {
            index: 2,
            cause: Cause::BadAlign,
        },
        count: 5,
        left: &[PLAIN, TABLES],
    },
    Refusal {
        line: TOO_FAR,
        fails: &[],
        fault: Command {
            index: 2,
            cause: Cause::TooFar,
        },
        count: 5,
        left: &[PLAIN, TABLES],
    },
    Refusal {
        line: PLACE_SPARE,
        fails: &[1],
        fault: NoRoom { index: 1 },
        count: 4,
        left: &[PLAIN, NO_TABLES],
    },
    Refusal {
        line: PLACE_SPARE,
        fails: &[2],
        fault: NoRoom { index: 2 },
        count: 5,
        left: &[PLAIN, TABLES],
    },
];

#[test]
fn refusals(rt: HostRuntime) -> Result<(), Fail> {
    for refusal in &REFUSED {
        is_refused(&rt, rt.alloc(), refusal)?;
    }
    Ok(())
}

fn is_refused(rt: &impl Abort, alloc: Global, refusal: &Refusal) -> Result<(), Fail> {
    let items = items_refused(alloc, refusal.line)?;
    ends_so(
        rt,
        alloc,
        items,
        refusal.fails,
        Err(refusal.fault),
        refusal.count,
        refusal.left,
    )
}

/// Makes the items of the small load with a command behind those that place its files, and without the others.
pub(crate) fn items_refused(alloc: Global, line: Line) -> Result<Items, Fail> {
    let lines = [PLACE_ANCHOR, PLACE_TABLES, line, PADDING, PADDING];
    items_of(alloc, &SMALL_FILES, 0, &lines)
}

// The load makes the first so many transfers of the small load.
fn ends_so(
    rt: &impl Abort,
    alloc: Global,
    items: Items,
    fails: &[u32],
    answer: Result<(), LoadFault>,
    count: usize,
    left: &[Held],
) -> Result<(), Fail> {
    let end = End {
        answer,
        transfers: first_reads(count),
        contents: &[],
        left,
        others: false,
    };
    ends_without_events(rt, alloc, items, fails, &end)
}
