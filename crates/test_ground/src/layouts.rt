//! Tests of numbers and sums in bytes, of layouts as rows, of records, and of files with holes: public calls once, and worked rows,
//! which the definitions are held against. The record is made up, and stands here alone.

#[cfg(test)]
mod blobs;
#[cfg(test)]
mod numbers;
pub mod parcel;
#[cfg(test)]
mod parts;
#[cfg(test)]
mod records;
#[cfg(test)]
mod rows;
#[cfg(test)]
mod sums;
#[cfg(test)]
mod worked;
