//! What is said through the trait of the events that a schedule gives, and what follows of the events of a seed.

ghost use Rattle.std.specs.Prelude.{◌≡◌, [], ◌∷◌, IfSome, IfNone};
ghost use Rattle.firmware_load.specs.Schedules.{seeded_events};

use firmware_load::Event::Device;
use firmware_load::{Event, Schedule, SeededSchedule};
use std::process::Abort;
use std::test::Fail;

#[test]
fn a_schedule_through_the_trait(rt: HostRuntime) -> Result<(), Fail> {
    let mut schedule = SeededSchedule::new();
    let of_one = first_drawn(&mut schedule, 1);
    let of_zero = first_drawn(&mut schedule, 0);
    drop(schedule);
    assert_eq!(rt; (of_one, of_zero), (Some(Device(762)), None));
    Ok(())
}

// The first event of a seed is drawn, and those behind it are left.
fn first_drawn(schedule: &mut SeededSchedule, seed: u64) -> Option<Event>
    ensures some { IfSome result (λ event. seeded_events seed ≡ event ∷ schedule.new) }
    ensures none { IfNone result (seeded_events seed ≡ []) }
{
    first_of(schedule, seed)
}

// The first event of a seed, by any schedule.
fn first_of<S: Schedule>(schedule: &mut S, seed: u64) -> Option<Event>
    ensures some { IfSome result (λ event. (S.plan schedule.old).events seed ≡ event ∷ (S.plan schedule.new).left) }
    ensures none { IfNone result ((S.plan schedule.old).events seed ≡ []) }
    ensures same { (S.plan schedule.new).events ≡ (S.plan schedule.old).events }
{
    schedule.begin(seed);
    schedule.next()
}
