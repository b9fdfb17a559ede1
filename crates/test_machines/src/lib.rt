//! Tests of what is made of a machine: its ACPI tables and SMBIOS structures, the rules that it keeps, and its image.
#![tactic(auto)]

#[cfg(test)]
mod images;
#[cfg(test)]
mod tables;
