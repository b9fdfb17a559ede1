ghost use Rattle.std.specs.Prelude.{◌≡◌, []};

use crate::schedule::Schedule;
use load_states::Event;
use std::marker::Model;
use vt_outside::List;

/// A schedule that has the same events for every seed.
#[derive(Debug, Drop)]
pub struct ListSchedule {
    events: List<Event>,
    // How many of them are taken: before the first `begin` all, so that none is left.
    taken: usize,
}

impl Model for ListSchedule {
    ghost use Rattle.std.specs.Prelude.{drop};
    ghost use Rattle.firmware_load.specs.Schedules.{ListedState};

    ghost Value = { ListedState };

    ghost view = { λ s. record { events = s.events; left = drop s.taken s.events } };
}

impl ListSchedule {
    /// Makes a schedule that has `events`, in order, for every seed. None is left before `begin`. It takes no memory.
    pub fn new(events: List<Event>) -> ListSchedule
        ensures { result ≡ record { events = events; left = [] } }
    {
        let taken = events.len();
        ListSchedule { events, taken }
    }
}

impl Schedule for ListSchedule {
    ghost use Rattle.firmware_load.specs.Schedules.{for_seed};

    ghost plan = { λ s. record { events = λ number. for_seed number s.events; left = s.left } };

    fn begin(&mut self, seed: u64) {
        self.taken = 0;
    }

    fn next(&mut self) -> Option<Event> {
        if self.taken >= self.events.len() {
            return None;
        }
        let event = *self.events.get(self.taken);
        self.taken += 1;
        Some(event)
    }
}
