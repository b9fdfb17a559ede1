//! Tests of loader scripts: their bytes both ways and up to the longest, how a file is found by its name, and why a command is refused.

#[cfg(test)]
mod limits;
#[cfg(test)]
mod orders;
#[cfg(test)]
mod scripts;
#[cfg(test)]
mod write_pointers;
