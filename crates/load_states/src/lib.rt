//! The states of a load of a guest's tables: of its firmware, of the fw_cfg device whose files this reads and writes, and of the memory
//! that both and the guest's other processors act on.
//!
//! `Event` is one step of the firmware, the device or another processor, or a reset, `Stage` is how far the firmware is, and `Reading` is
//! what it reads by one transfer. The definitions stand in `specs/`: the places that the firmware works in (`Guarded`), the state of a load
//! (`LoadState`), one step for one event (`Steps`), whole runs (`Runs`), and their pieces between resets (`Pieces`), how far a load is
//! wherever its files stand (`Pace`), the transfers of a load (`Moves`), what a load keeps over every event (`Kept`), what a whole load
//! leaves (`Loads`), and which addresses a load touches (`Touching`). The laws in `laws` say that a load that is begun keeps what it has to,
//! that each step does, that a transfer in flight touches what is the load's own, that what came before a reset is forgotten but for memory,
//! and that loads of the same items go at one pace.
#![tactic(auto)]

mod event;
pub mod laws;
mod reading;
mod stage;

pub use event::Event;
pub use reading::Reading;
pub use stage::Stage;
