//! Tests of the fw_cfg device: its registers, and transfers of each kind in pieces of several sizes.

#[cfg(test)]
mod ports;
#[cfg(test)]
mod reads;
#[cfg(test)]
mod refusals;
#[cfg(test)]
mod resets;
#[cfg(test)]
mod rig;
#[cfg(test)]
mod writes;
