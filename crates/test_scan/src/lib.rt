//! Tests of what a guest's memory shows that no list of it tells: each number of the tables and structures that are read, the id of a machine's
//! generation, memories that no dump spells, and definitions that are held against bytes. Which tables and structures a memory shows, and the
//! first fault of those that aren't well formed, are cases of `decode --list`.
#![tactic(auto)]

#[cfg(test)]
mod anchors;
#[cfg(test)]
mod back;
#[cfg(test)]
mod edits;
#[cfg(test)]
mod ends;
#[cfg(test)]
mod every;
#[cfg(test)]
mod forms;
#[cfg(test)]
mod generations;
#[cfg(test)]
mod long;
#[cfg(test)]
mod old_anchors;
pub mod pieces;
#[cfg(test)]
mod records;
#[cfg(test)]
mod rsdp;
#[cfg(test)]
mod scans;
#[cfg(test)]
mod strings;
#[cfg(test)]
mod structures;
#[cfg(test)]
mod terms;
#[cfg(test)]
mod told;
#[cfg(test)]
mod views;
#[cfg(test)]
mod words;
