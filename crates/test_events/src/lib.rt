//! Tests of a load that happens over events: the firmware, its device and other processors take turns, by the plan of a schedule. What
//! memory holds and which transfers are made was worked out by hand from QEMU's rules (docs/specs/fw_cfg, hw/acpi/bios-linker-loader.c).
//! Over a plan of no events it is tested what a script leaves in all of RAM, which of its commands is refused and why, and which files
//! have no place. Of loads that write files of the device it is tested what these hold then too. And there are tests of the schedules
//! themselves: lists of events, and the events that a seed draws.
#![tactic(auto)]

#[cfg(test)]
mod bounds;
#[cfg(test)]
mod cases;
#[cfg(test)]
mod causes;
#[cfg(test)]
mod done;
#[cfg(test)]
mod drawn;
#[cfg(test)]
mod ends;
#[cfg(test)]
mod file_ends;
#[cfg(test)]
mod files;
#[cfg(test)]
mod giving;
#[cfg(test)]
mod lengths;
#[cfg(test)]
mod lists;
#[cfg(test)]
mod minimal;
#[cfg(test)]
mod most_writes;
#[cfg(test)]
mod others;
#[cfg(test)]
mod plans;
#[cfg(test)]
mod reads;
#[cfg(test)]
mod resets;
#[cfg(test)]
mod rig;
#[cfg(test)]
mod rooms;
#[cfg(test)]
mod scripts;
#[cfg(test)]
mod seeds;
#[cfg(test)]
mod states;
#[cfg(test)]
mod steps;
#[cfg(test)]
mod touched;
#[cfg(test)]
mod write_causes;
#[cfg(test)]
mod write_itself;
#[cfg(test)]
mod write_mixed;
#[cfg(test)]
mod write_steps;
#[cfg(test)]
mod writes;
