ghost use Rattle.std.specs.Prelude.{◌≡◌, ◌≤◌, ◌==◌, ℕ, refl};
ghost use Rattle.acpi_records.specs.Header.{FitsHead};
ghost use Rattle.acpi_model.specs.Acpi.{facs_place};
ghost use Rattle.acpi_model.specs.MachineFadt.{no_register, register_at, fadt_flags, boot_arch, fadt_of, fadt_links};

use crate::link::{FadtLinks, Link};
use acpi_records::{Fadt, GenericAddress, head_of};
use machine_desc::{Acpi, Power};

/// Where the FACS of a machine stands in the file of the tables, in bytes: before all others. The file is placed at a multiple of 64,
/// as the FACS has to be (ACPI 6.5, 5.2.10).
pub const FACS_PLACE: u32 = 0;

/// Where the DSDT of a machine stands in that file, in bytes: behind the FACS.
pub const DSDT_PLACE: u32 = 64;

// The flags of each machine (ACPI 6.5, 5.2.9, table 5.10): WBINVD, PROC_C1, SLP_BUTTON, RTC_S4 and TMR_VAL_EXT.
const FLAGS: u32 = 0x1A5;

// RESET_REG_SUP: there is a reset register.
const RESET_FLAG: u32 = 0x400;

// A register that isn't there.
const NO_REGISTER: GenericAddress = GenericAddress {
    space: 0,
    width: 0,
    offset: 0,
    access: 0,
    address: 0,
};

/// Returns the FADT of a machine with `power` (ACPI 6.5, 5.2.9). `acpi` is the maker; its `oem_id` has at most 6 bytes and its
/// `oem_table_id` at most 8. The GPE block has at most 31 bytes. Its registers are in I/O space; each address of 64 bits is the same port
/// as that of 32, and no register where that is 0.
pub fn fadt_of(acpi: &Acpi, power: &Power) -> Fadt
    requires fits { FitsHead acpi.now }
    requires few { power.now.gpe_len ≤ 31 }
    ensures { result ≡ fadt_of acpi.now power.now }
{
    Fadt {
        head: head_of(acpi, 6),
        profile: power.profile,
        sci: power.sci,
        smi_cmd: 0,
        acpi_enable: 0,
        acpi_disable: 0,
        s4bios_req: 0,
        pstate_cnt: 0,
        pm1a_evt: u32::from(power.event),
        pm1b_evt: 0,
        pm1a_cnt: u32::from(power.control),
        pm1b_cnt: 0,
        pm2_cnt: 0,
        pm_tmr: u32::from(power.timer),
        gpe0: u32::from(power.gpe),
        gpe1: 0,
        pm1_evt_len: 4,
        pm1_cnt_len: 2,
        pm2_cnt_len: 0,
        pm_tmr_len: 4,
        gpe0_len: power.gpe_len,
        gpe1_len: 0,
        gpe1_base: 0,
        cst_cnt: 0,
        p_lvl2_lat: 0x0FFF,
        p_lvl3_lat: 0x0FFF,
        flush_size: 0,
        flush_stride: 0,
        duty_offset: 0,
        duty_width: 0,
        day_alrm: 0,
        mon_alrm: 0,
        century: power.century,
        iapc_boot_arch: boot_arch(power),
        flags: fadt_flags(power),
        reset_reg: register_at(8, 1, u32::from(power.reset)),
        reset_value: power.reset_value,
        arm_boot_arch: 0,
        minor: 5,
        x_pm1a_evt: register_at(32, 2, u32::from(power.event)),
        x_pm1b_evt: NO_REGISTER,
        x_pm1a_cnt: register_at(16, 2, u32::from(power.control)),
        x_pm1b_cnt: NO_REGISTER,
        x_pm2_cnt: NO_REGISTER,
        x_pm_tmr: register_at(32, 3, u32::from(power.timer)),
        x_gpe0: register_at(8 * power.gpe_len, 1, u32::from(power.gpe)),
        x_gpe1: NO_REGISTER,
        sleep_control: NO_REGISTER,
        sleep_status: NO_REGISTER,
        hypervisor: 0,
    }
}

// The flags of a machine's FADT.
fn fadt_flags(power: &Power) -> u32
    ensures { result ≡ fadt_flags power.now }
{
    if power.reset == 0 {
        FLAGS
    } else {
        FLAGS + RESET_FLAG
    }
}

// Its boot architecture: legacy devices and a keyboard controller, where there is one.
fn boot_arch(power: &Power) -> u16
    ensures { result ≡ boot_arch power.now }
{
    if power.keyboard { 3 } else { 0 }
}

/// Returns the register of `width` bits at a port of I/O space, with accesses of the size `access` (ACPI 6.5, 5.2.3.2); none where the
/// port is 0.
pub fn register_at(width: u8, access: u8, port: u32) -> GenericAddress
    ensures { result ≡ register_at width access port }
{
    if port == 0 {
        return NO_REGISTER;
    }
    GenericAddress {
        space: 1,
        width,
        offset: 0,
        access,
        address: u64::from(port),
    }
}

/// Returns the pointers of a machine's FADT, whose FACS and DSDT stand at the offsets `facs` and `dsdt` in the file of the tables, in bytes.
pub fn fadt_links(facs: u32, dsdt: u32) -> FadtLinks
    ensures { result ≡ fadt_links facs dsdt }
{
    FadtLinks {
        firmware_ctrl: Link::Address(0),
        dsdt: Link::Offset(dsdt),
        x_firmware_ctrl: Link::Offset(facs),
        x_dsdt: Link::Offset(dsdt),
    }
}
