//! Tests of AML's terms, written and read, of resource templates, of the terms of machines' DSDTs, and of where terms lead to the id of
//! a machine's generation. Bytes are made by hand from ACPI 6.5, 20.2 and 6.4. A second reader and writer of terms, and a second writer of DSDTs,
//! stand outside, in `judges/plain`.
#![tactic(auto)]

#[cfg(test)]
mod again;
#[cfg(test)]
mod every;
#[cfg(test)]
mod faults;
#[cfg(test)]
mod greatest;
#[cfg(test)]
mod ids;
#[cfg(test)]
mod items;
#[cfg(test)]
mod lengths;
#[cfg(test)]
mod levels;
#[cfg(test)]
mod machines;
#[cfg(test)]
mod rows;
#[cfg(test)]
mod told;
#[cfg(test)]
mod words;
#[cfg(test)]
mod written;
