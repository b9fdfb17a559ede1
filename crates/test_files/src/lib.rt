//! Tests of what a load stands on: the files of a device and containers, the device, zones and places, loader scripts, and the words of a
//! command line.
#![tactic(auto)]

#[cfg(test)]
mod device;
#[cfg(test)]
mod directory;
#[cfg(test)]
mod scripts;
#[cfg(test)]
mod words;
#[cfg(test)]
mod zones;
