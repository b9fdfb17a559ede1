//! Tests of boxes, lists, texts, byte strings, names, sources and sinks: public calls once, and what is refused.

#[cfg(test)]
mod asserts;
#[cfg(test)]
mod boxed;
#[cfg(test)]
mod errors;
#[cfg(test)]
mod lists;
#[cfg(test)]
mod memory_streams;
#[cfg(test)]
mod names;
#[cfg(test)]
mod std_ends;
#[cfg(test)]
mod std_faults;
#[cfg(test)]
mod std_streams;
