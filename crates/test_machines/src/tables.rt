//! Tests of tables: the inventory of a machine, ACPI tables as files with holes, and SMBIOS structures as bytes. Public calls
//! once, and with texts of as many bytes as one may have.

#[cfg(test)]
mod borders;
#[cfg(test)]
mod built;
#[cfg(test)]
mod dsdt;
#[cfg(test)]
mod files;
#[cfg(test)]
mod interrupts;
#[cfg(test)]
mod longest;
#[cfg(test)]
mod mcfg;
#[cfg(test)]
mod nodes;
#[cfg(test)]
mod parts;
#[cfg(test)]
mod power;
#[cfg(test)]
mod records;
#[cfg(test)]
mod structures;
