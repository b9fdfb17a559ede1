//! Tests of the zones of memory, and of the allocators that give files their places in them.

#[cfg(test)]
mod bounds;
#[cfg(test)]
mod failing;
#[cfg(test)]
mod places;
#[cfg(test)]
mod refusals;
#[cfg(test)]
mod resets;
#[cfg(test)]
mod rows;
#[cfg(test)]
mod scatters;
#[cfg(test)]
mod zones;
