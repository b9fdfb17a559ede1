//! Tests of the words of a command line: those that are commands, those that are none, and what a schema says of words.

#[cfg(test)]
mod commands;
#[cfg(test)]
mod reading;
#[cfg(test)]
mod refusals;
#[cfg(test)]
mod schemas;
