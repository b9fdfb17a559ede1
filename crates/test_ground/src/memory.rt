//! Tests of guest memory: what is RAM, and each call that reads or changes a range.

#[cfg(test)]
mod frames;
#[cfg(test)]
mod ranges;
#[cfg(test)]
mod sums;
