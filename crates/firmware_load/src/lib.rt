//! A load over events: a firmware reads the directory, the script and the files from a fw_cfg device by its DMA engine, and writes places to
//! files of it, while the device moves bytes in pieces and the guest's other processors write memory, in any order.
//!
//! [`World`] is such a load (`load_states` defines its states): [`World::step`] is one step of it for one `Event`, and
//! [`World::load`] takes the events of a plan until the load has ended. Its contract says that its answer, the files in memory and those of
//! the device, which a script may write to, are those of the run of the script on plain lists, with the places that the allocator gave,
//! whatever the events are; and what else it leaves.
//!
//! A [`Schedule`] is such a plan: it gives events one after the other, a list of them for each seed. `ListSchedule` has the same list for
//! every seed. `SeededSchedule` draws its events from the words of the seed's generator, so that a seed is all that one has to tell to have
//! a run again.
//!
//! No call but `World::begin` takes memory.
#![tactic(auto)]

mod commands;
mod f_segment;
mod firmware;
mod guest;
pub mod laws;
mod list_schedule;
mod loading;
mod rooms;
mod run;
mod schedule;
mod seeded_schedule;
mod state;
mod world;

pub use command_acts::LoadFault;
pub use list_schedule::ListSchedule;
pub use load_states::Event;
pub use schedule::Schedule;
pub use seeded_schedule::SeededSchedule;
pub use state::State;
pub use world::World;
