//! Schedules, and the events that they are to give.

use firmware_load::{Event, Schedule};
use std::process::Abort;

/// The schedule gives these events next, in order.
pub(crate) fn are_given<S: Schedule>(rt: &impl Abort, schedule: &mut S, events: &[Event]) {
    for event in events {
        assert_eq!(rt; schedule.next(), Some(*event));
    }
}

/// No event is left, however often one is asked for.
pub(crate) fn none_is_left<S: Schedule>(rt: &impl Abort, schedule: &mut S) {
    assert_eq!(rt; schedule.next(), None);
    assert_eq!(rt; schedule.next(), None);
}
