//! The run of a case.

use crate::case::Case;
use crate::ending::Ending;
use crate::plan::events_of;
use crate::streams::{CaseSink, CaseSource};
use firmware_load::{ListSchedule, Schedule, SeededSchedule};
use std::alloc::Global;
use std::mem;
use vmtables::{World, top};
use vt_outside::{List, OutOfMemory};
use zone_alloc::FailingAlloc;

/// What a run may have from the one before: the world, and the allocator of places.
#[derive(Drop)]
pub(crate) struct Rig {
    pub(crate) world: World,
    place: FailingAlloc,
}

impl Rig {
    pub(crate) fn new(alloc: Global) -> Rig {
        Rig {
            world: World::idle(),
            place: FailingAlloc::new(List::new(alloc)),
        }
    }

    // Gives up what the run of a case doesn't have from the one before.
    fn prepare(&mut self, ending: &Ending) -> Result<(), OutOfMemory> {
        if !ending.again {
            drop(mem::replace(&mut self.world, World::idle()));
        }
        if !ending.places {
            let place = FailingAlloc::new(ending.refuses.copy()?);
            drop(mem::replace(&mut self.place, place));
        }
        Ok(())
    }
}

/// How a run ended: its status, and its streams.
#[derive(Drop)]
pub(crate) struct Ran {
    pub(crate) status: u8,
    pub(crate) source: CaseSource,
    pub(crate) out: CaseSink,
    pub(crate) say: CaseSink,
}

impl Ran {
    fn of(alloc: Global, case: &Case) -> Result<Ran, OutOfMemory> {
        Ok(Ran {
            status: 0,
            source: CaseSource::of(&case.input)?,
            out: CaseSink::of(alloc, &case.output)?,
            say: CaseSink::of(alloc, &case.says)?,
        })
    }
}

/// Makes the run of a case for a number.
pub(crate) fn run(
    alloc: Global,
    case: &Case,
    ending: &Ending,
    number: u32,
    rig: &mut Rig,
) -> Result<Ran, OutOfMemory> {
    rig.prepare(ending)?;
    let mut ran = Ran::of(alloc, case)?;
    match run_planned(alloc, case, ending, number, rig, &mut ran) {
        Ok(()) => Ok(ran),
        Err(fault) => {
            drop(ran);
            Err(fault)
        }
    }
}

fn run_planned(
    alloc: Global,
    case: &Case,
    ending: &Ending,
    number: u32,
    rig: &mut Rig,
    ran: &mut Ran,
) -> Result<(), OutOfMemory> {
    match &ending.plan {
        None => run_over(alloc, case, &mut SeededSchedule::new(), rig, ran),
        Some(entries) => {
            let events = events_of(alloc, entries.as_slice(), number)?;
            let mut plan = ListSchedule::new(events);
            run_over(alloc, case, &mut plan, rig, ran);
            drop(plan);
        }
    }
    Ok(())
}

// Makes the run over the events of a plan.
fn run_over<C: Schedule>(alloc: Global, case: &Case, plan: &mut C, rig: &mut Rig, ran: &mut Ran) {
    let status = top(
        alloc,
        case.words.as_slice(),
        &mut ran.source,
        &mut ran.out,
        &mut ran.say,
        &mut rig.place,
        plan,
        &mut rig.world,
    );
    ran.status = status.number();
}
