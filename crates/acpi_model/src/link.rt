/// Where a pointer out of a table leads.
#[derive(Clone, Copy, Debug, PartialEq, Eq)]
pub enum Link {
    /// To this offset in the file of the tables, in bytes. When the file is placed, the pointer becomes an address.
    Offset(u32),
    /// To this guest address, where 0 leads nowhere.
    Address(u64),
}

/// The four pointers of an FADT (ACPI 6.5, 5.2.9). Of two that lead to one table the one of 64 bits counts, where it isn't zero.
#[derive(Clone, Copy, Debug, PartialEq, Eq)]
pub struct FadtLinks {
    /// FIRMWARE_CTRL: the FACS, in 32 bits.
    pub firmware_ctrl: Link,
    /// DSDT: the DSDT, in 32 bits.
    pub dsdt: Link,
    /// X_FIRMWARE_CTRL: the FACS, in 64 bits.
    pub x_firmware_ctrl: Link,
    /// X_DSDT: the DSDT, in 64 bits.
    pub x_dsdt: Link,
}
