ghost use Rattle.std.specs.Prelude.{◌≡◌, []};
ghost use Rattle.rand_pcg.specs.Pcg.{pcg32};
ghost use Rattle.firmware_load.specs.Schedules.{write_by};
ghost use Rattle.firmware_load.specs.Drawing.{drawn_event, behind_event, is_reset_left, event_left};

use crate::schedule::Schedule;
use load_states::Event;
use rand_core::SeedableRng;
use rand_core::utils::NextWord;
use rand_pcg::Pcg32;
use std::marker::Model;

/// How many events a seed other than 0 has.
const EVENTS_OF_A_SEED: u32 = 4096;

/// The least seed that resets the guest. Two of its events are resets, in the place of those that are drawn there.
const LEAST_SEED_WITH_RESETS: u64 = 1 << 63;

/// A schedule that draws the events of a seed from the words of `Pcg32::seed_from_u64` (`rand_pcg`) of this seed: its 32-bit outputs, in
/// their order. Seed 0 has no events, and any other seed has 4,096. A word `w` draws, by `w % 4`: with 0 a step of the firmware, with 1 and
/// 2 a piece of `1 + w / 4 % 4096` bytes, and with 3 a write, whose address is the next word modulo 0x100000 and whose byte is the one
/// behind it modulo 256. Of a seed of 2^63 or more, events 16 and 48, counted from 0, are resets of the guest in the place of those that
/// are drawn there, and all words are drawn as for any other.
#[derive(Debug, Drop)]
pub struct SeededSchedule {
    // The words that come next.
    words: Pcg32,
    // How many events are to be drawn yet.
    to_draw: u32,
    // Whether the seed resets the guest.
    resets: bool,
}

impl Model for SeededSchedule {
    ghost use Rattle.std.specs.Prelude.{List};
    ghost use Rattle.load_states.specs.declared.event.Event.{Event};
    ghost use Rattle.firmware_load.specs.Drawing.{events_left};

    ghost Value = { List Event };

    ghost view = { λ s. events_left s.resets s.to_draw s.words };
}

impl SeededSchedule {
    /// Makes a schedule. None of its events is left before `begin`. It takes no memory.
    pub fn new() -> SeededSchedule
        ensures { result ≡ [] }
    {
        SeededSchedule {
            words: Pcg32::seed_from_u64(0),
            to_draw: 0,
            resets: false,
        }
    }
}

impl Schedule for SeededSchedule {
    ghost use Rattle.firmware_load.specs.Schedules.{for_seed, seeded_events};

    ghost plan = { λ s. record { events = λ number. for_seed number (seeded_events number); left = s } };

    fn begin(&mut self, seed: u64) {
        self.words = Pcg32::seed_from_u64(seed);
        self.to_draw = if seed == 0 { 0 } else { EVENTS_OF_A_SEED };
        self.resets = seed >= LEAST_SEED_WITH_RESETS;
    }

    fn next(&mut self) -> Option<Event> {
        if self.to_draw == 0 {
            return None;
        }
        let event = take_event(&mut self.words, self.resets, self.to_draw);
        self.to_draw -= 1;
        Some(event)
    }
}

// Draws the next event of a seed, of which so many are left, and returns it, or a reset in its place where the seed resets the guest then.
fn take_event(words: &mut Pcg32, resets: bool, left: u32) -> Event
    ensures event { result ≡ event_left resets left (drawn_event words.old) }
    ensures words { words.new ≡ behind_event words.old }
{
    let drawn = draw(words);
    if resets && is_reset(left) {
        Event::Reset
    } else {
        drawn
    }
}

// Whether the next event of a seed that resets the guest is a reset, where so many are left: whether it is event 16 or 48.
fn is_reset(left: u32) -> bool
    ensures { result ≡ is_reset_left left }
{
    left == EVENTS_OF_A_SEED - 16 || left == EVENTS_OF_A_SEED - 48
}

// Draws the next event from `words`, and takes the words that it is drawn from: three for a write, and one for any other.
fn draw(words: &mut Pcg32) -> Event
    ensures event { result ≡ drawn_event words.old }
    ensures words { words.new ≡ behind_event words.old }
{
    let word = words.next_word();
    match word % 4 {
        0 => Event::Firmware,
        1 | 2 => Event::Device(1 + word / 4 % 4096),
        _ => draw_write(words),
    }
}

// Draws a write of one byte: the address from the next word, and the byte from the one behind it.
fn draw_write(words: &mut Pcg32) -> Event
    ensures event { result ≡ write_by (pcg32 words.old).0 (pcg32 (pcg32 words.old).1).0 }
    ensures words { words.new ≡ (pcg32 (pcg32 words.old).1).1 }
{
    let addr = u64::from(words.next_word() % 0x10_0000);
    let byte = (words.next_word() % 256) as u8;
    Event::Other { addr, byte }
}
