ghost use Rattle.std.specs.Prelude.{refl};
ghost use Rattle.acpi_records.specs.Fadt.{fadt_fields, fadt_made};

use crate::generic_address::GenericAddress;
use crate::header::Head;
use vt_layout::{Laid, RowList, Values};

/// The index of the row of the 32-bit address of the FACS (FIRMWARE_CTRL).
pub const FADT_FACS_ROW: usize = 9;

/// The index of the row of the 32-bit address of the DSDT (DSDT).
pub const FADT_DSDT_ROW: usize = 10;

/// The index of the row of the 64-bit address of the FACS (X_FIRMWARE_CTRL).
pub const FADT_X_FACS_ROW: usize = 55;

/// The index of the row of the 64-bit address of the DSDT (X_DSDT).
pub const FADT_X_DSDT_ROW: usize = 56;

/// The Fixed ACPI Description Table (ACPI 6.5, 5.2.9), with signature FACP, without the four addresses by which it leads to the FACS and
/// to the DSDT.
///
/// The rows of those addresses are put with 0, for whoever knows them to set. A register's address of zeros is that of no register.
#[derive(Clone, Copy, Debug, PartialEq, Eq)]
pub struct Fadt {
    /// The table's header.
    pub head: Head,
    /// The preferred power management profile, as 1 for a desktop and 4 for an enterprise server. Offset 45, byte.
    pub profile: u8,
    /// The interrupt that tells of system control events (SCI_INT). Offset 46, word.
    pub sci: u16,
    /// The port of the SMI commands (SMI_CMD), or 0 where there are none. Offset 48, dword.
    pub smi_cmd: u32,
    /// The SMI command by which the firmware gives up the ACPI registers, or 0. Offset 52, byte.
    pub acpi_enable: u8,
    /// The SMI command by which it takes them back, or 0. Offset 53, byte.
    pub acpi_disable: u8,
    /// The SMI command by which the firmware saves the machine to disk, or 0. Offset 54, byte.
    pub s4bios_req: u8,
    /// The SMI command by which it gives up control of the processors' performance states, or 0. Offset 55, byte.
    pub pstate_cnt: u8,
    /// The port of the PM1a event registers (PM1a_EVT_BLK). Offset 56, dword.
    pub pm1a_evt: u32,
    /// The port of the PM1b event registers (PM1b_EVT_BLK), or 0 where there are none. Offset 60, dword.
    pub pm1b_evt: u32,
    /// The port of the PM1a control register (PM1a_CNT_BLK). Offset 64, dword.
    pub pm1a_cnt: u32,
    /// The port of the PM1b control register (PM1b_CNT_BLK), or 0 where there is none. Offset 68, dword.
    pub pm1b_cnt: u32,
    /// The port of the PM2 control register (PM2_CNT_BLK), or 0 where there is none. Offset 72, dword.
    pub pm2_cnt: u32,
    /// The port of the power management timer (PM_TMR_BLK), or 0 where there is none. Offset 76, dword.
    pub pm_tmr: u32,
    /// The port of the first block of general purpose events (GPE0_BLK), or 0 where there is none. Offset 80, dword.
    pub gpe0: u32,
    /// The port of the second block of general purpose events (GPE1_BLK), or 0 where there is none. Offset 84, dword.
    pub gpe1: u32,
    /// How many bytes the PM1a event registers have, and the PM1b ones. Offset 88, byte.
    pub pm1_evt_len: u8,
    /// How many bytes the PM1a control register has, and the PM1b one. Offset 89, byte.
    pub pm1_cnt_len: u8,
    /// How many bytes the PM2 control register has. Offset 90, byte.
    pub pm2_cnt_len: u8,
    /// How many bytes the power management timer has. Offset 91, byte.
    pub pm_tmr_len: u8,
    /// How many bytes the first block of general purpose events has. Offset 92, byte.
    pub gpe0_len: u8,
    /// How many bytes the second block of general purpose events has. Offset 93, byte.
    pub gpe1_len: u8,
    /// The number of the first event of the second block. Offset 94, byte.
    pub gpe1_base: u8,
    /// The SMI command that tells of support of the processors' power states, or 0. Offset 95, byte.
    pub cst_cnt: u8,
    /// The microseconds that a processor takes to leave the state C2; above 100 it has none. Offset 96, word.
    pub p_lvl2_lat: u16,
    /// The microseconds that a processor takes to leave the state C3; above 1,000 it has none. Offset 98, word.
    pub p_lvl3_lat: u16,
    /// How many strides of cache are read to flush it, where WBINVD doesn't. Offset 100, word.
    pub flush_size: u16,
    /// How many bytes such a stride has. Offset 102, word.
    pub flush_stride: u16,
    /// The first bit of the duty cycle in a processor's control register. Offset 104, byte.
    pub duty_offset: u8,
    /// How many bits the duty cycle has. Offset 105, byte.
    pub duty_width: u8,
    /// The index of the day of the alarm in the CMOS memory, or 0 where there is none. Offset 106, byte.
    pub day_alrm: u8,
    /// The index of the month of the alarm in the CMOS memory, or 0 where there is none. Offset 107, byte.
    pub mon_alrm: u8,
    /// The index of the century in the CMOS memory, or 0 where there is none. Offset 108, byte.
    pub century: u8,
    /// What an operating system may find of a PC's old devices, a bit each (5.2.9.3). Offset 109, word.
    pub iapc_boot_arch: u16,
    /// Fixed features, a bit each (5.2.9). Offset 112, dword.
    pub flags: u32,
    /// The register that resets the machine. Offset 116, 12 bytes.
    pub reset_reg: GenericAddress,
    /// The value that is written to it to do so. Offset 128, byte.
    pub reset_value: u8,
    /// How an Arm machine boots, a bit each (5.2.9.4). Offset 129, word.
    pub arm_boot_arch: u16,
    /// The minor version of the standard in its low four bits, and the errata in the others. Offset 131, byte.
    pub minor: u8,
    /// The PM1a event registers (X_PM1a_EVT_BLK). Offset 148, 12 bytes.
    pub x_pm1a_evt: GenericAddress,
    /// The PM1b event registers (X_PM1b_EVT_BLK). Offset 160, 12 bytes.
    pub x_pm1b_evt: GenericAddress,
    /// The PM1a control register (X_PM1a_CNT_BLK). Offset 172, 12 bytes.
    pub x_pm1a_cnt: GenericAddress,
    /// The PM1b control register (X_PM1b_CNT_BLK). Offset 184, 12 bytes.
    pub x_pm1b_cnt: GenericAddress,
    /// The PM2 control register (X_PM2_CNT_BLK). Offset 196, 12 bytes.
    pub x_pm2_cnt: GenericAddress,
    /// The power management timer (X_PM_TMR_BLK). Offset 208, 12 bytes.
    pub x_pm_tmr: GenericAddress,
    /// The first block of general purpose events (X_GPE0_BLK). Offset 220, 12 bytes.
    pub x_gpe0: GenericAddress,
    /// The second block of general purpose events (X_GPE1_BLK). Offset 232, 12 bytes.
    pub x_gpe1: GenericAddress,
    /// The sleep control register (SLEEP_CONTROL_REG). Offset 244, 12 bytes.
    pub sleep_control: GenericAddress,
    /// The sleep status register (SLEEP_STATUS_REG). Offset 256, 12 bytes.
    pub sleep_status: GenericAddress,
    /// The hypervisor's vendor, or 0 where none is told. Offset 268, qword.
    pub hypervisor: u64,
}

impl Laid for Fadt {
    const ROWS: u8 = 108;

    ghost ROWS = { 108 };

    ghost fields = { fadt_fields };

    ghost made = { fadt_made };

    ghost lawful = { λ t u. record { back = refl; shaped = refl; counted = refl; readable = refl } };

    fn put<'a>(&'a self, rows: &mut RowList<'a>) {
        self.head.put(rows);
        rows.dword(0);
        rows.dword(0);
        rows.reserved(1);
        rows.byte(self.profile);
        rows.word(self.sci);
        rows.dword(self.smi_cmd);
        rows.byte(self.acpi_enable);
        rows.byte(self.acpi_disable);
        rows.byte(self.s4bios_req);
        rows.byte(self.pstate_cnt);
        rows.dword(self.pm1a_evt);
        rows.dword(self.pm1b_evt);
        rows.dword(self.pm1a_cnt);
        rows.dword(self.pm1b_cnt);
        rows.dword(self.pm2_cnt);
        rows.dword(self.pm_tmr);
        rows.dword(self.gpe0);
        rows.dword(self.gpe1);
        rows.byte(self.pm1_evt_len);
        rows.byte(self.pm1_cnt_len);
        rows.byte(self.pm2_cnt_len);
        rows.byte(self.pm_tmr_len);
        rows.byte(self.gpe0_len);
        rows.byte(self.gpe1_len);
        rows.byte(self.gpe1_base);
        rows.byte(self.cst_cnt);
        rows.word(self.p_lvl2_lat);
        rows.word(self.p_lvl3_lat);
        rows.word(self.flush_size);
        rows.word(self.flush_stride);
        rows.byte(self.duty_offset);
        rows.byte(self.duty_width);
        rows.byte(self.day_alrm);
        rows.byte(self.mon_alrm);
        rows.byte(self.century);
        rows.word(self.iapc_boot_arch);
        rows.reserved(1);
        rows.dword(self.flags);
        self.reset_reg.put(rows);
        rows.byte(self.reset_value);
        rows.word(self.arm_boot_arch);
        rows.byte(self.minor);
        rows.qword(0);
        rows.qword(0);
        self.x_pm1a_evt.put(rows);
        self.x_pm1b_evt.put(rows);
        self.x_pm1a_cnt.put(rows);
        self.x_pm1b_cnt.put(rows);
        self.x_pm2_cnt.put(rows);
        self.x_pm_tmr.put(rows);
        self.x_gpe0.put(rows);
        self.x_gpe1.put(rows);
        self.sleep_control.put(rows);
        self.sleep_status.put(rows);
        rows.qword(self.hypervisor);
    }

    fn take(values: &mut Values) -> Fadt {
        let head = Head::take(values);
        values.pass();
        values.pass();
        values.pass();
        let profile = values.take_byte();
        let sci = values.take_word();
        let smi_cmd = values.take_dword();
        let acpi_enable = values.take_byte();
        let acpi_disable = values.take_byte();
        let s4bios_req = values.take_byte();
        let pstate_cnt = values.take_byte();
        let pm1a_evt = values.take_dword();
        let pm1b_evt = values.take_dword();
        let pm1a_cnt = values.take_dword();
        let pm1b_cnt = values.take_dword();
        let pm2_cnt = values.take_dword();
        let pm_tmr = values.take_dword();
        let gpe0 = values.take_dword();
        let gpe1 = values.take_dword();
        let pm1_evt_len = values.take_byte();
        let pm1_cnt_len = values.take_byte();
        let pm2_cnt_len = values.take_byte();
        let pm_tmr_len = values.take_byte();
        let gpe0_len = values.take_byte();
        let gpe1_len = values.take_byte();
        let gpe1_base = values.take_byte();
        let cst_cnt = values.take_byte();
        let p_lvl2_lat = values.take_word();
        let p_lvl3_lat = values.take_word();
        let flush_size = values.take_word();
        let flush_stride = values.take_word();
        let duty_offset = values.take_byte();
        let duty_width = values.take_byte();
        let day_alrm = values.take_byte();
        let mon_alrm = values.take_byte();
        let century = values.take_byte();
        let iapc_boot_arch = values.take_word();
        values.pass();
        let flags = values.take_dword();
        let reset_reg = GenericAddress::take(values);
        let reset_value = values.take_byte();
        let arm_boot_arch = values.take_word();
        let minor = values.take_byte();
        values.pass();
        values.pass();
        let x_pm1a_evt = GenericAddress::take(values);
        let x_pm1b_evt = GenericAddress::take(values);
        let x_pm1a_cnt = GenericAddress::take(values);
        let x_pm1b_cnt = GenericAddress::take(values);
        let x_pm2_cnt = GenericAddress::take(values);
        let x_pm_tmr = GenericAddress::take(values);
        let x_gpe0 = GenericAddress::take(values);
        let x_gpe1 = GenericAddress::take(values);
        let sleep_control = GenericAddress::take(values);
        let sleep_status = GenericAddress::take(values);
        let hypervisor = values.take_qword();
        Fadt {
            head,
            profile,
            sci,
            smi_cmd,
            acpi_enable,
            acpi_disable,
            s4bios_req,
            pstate_cnt,
            pm1a_evt,
            pm1b_evt,
            pm1a_cnt,
            pm1b_cnt,
            pm2_cnt,
            pm_tmr,
            gpe0,
            gpe1,
            pm1_evt_len,
            pm1_cnt_len,
            pm2_cnt_len,
            pm_tmr_len,
            gpe0_len,
            gpe1_len,
            gpe1_base,
            cst_cnt,
            p_lvl2_lat,
            p_lvl3_lat,
            flush_size,
            flush_stride,
            duty_offset,
            duty_width,
            day_alrm,
            mon_alrm,
            century,
            iapc_boot_arch,
            flags,
            reset_reg,
            reset_value,
            arm_boot_arch,
            minor,
            x_pm1a_evt,
            x_pm1b_evt,
            x_pm1a_cnt,
            x_pm1b_cnt,
            x_pm2_cnt,
            x_pm_tmr,
            x_gpe0,
            x_gpe1,
            sleep_control,
            sleep_status,
            hypervisor,
        }
    }
}
