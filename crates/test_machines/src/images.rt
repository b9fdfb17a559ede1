//! Tests of the rules of machines, the first that a machine breaks and where, and of images: the files and the commands of machines, and how
//! files are linked.

#[cfg(test)]
mod links;
#[cfg(test)]
mod machines;
#[cfg(test)]
mod rules;
#[cfg(test)]
mod told;
