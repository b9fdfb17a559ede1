//! Units of sizes.

/// How many bytes a MiB has.
pub const BYTES_IN_MIB: u64 = 0x10_0000;

/// How many KiB a MiB has.
pub const KIB_IN_MIB: u64 = 1024;
