//! Tests of the files of a device: containers both ways, at once and in pieces, of many sizes and up to the largest, what is refused as one,
//! the directory, and files by name and by selector.

#[cfg(test)]
mod containers;
#[cfg(test)]
mod drawn;
#[cfg(test)]
mod images;
#[cfg(test)]
mod items;
#[cfg(test)]
mod limits;
#[cfg(test)]
mod pieces;
#[cfg(test)]
mod refusals;
#[cfg(test)]
mod sizes;
