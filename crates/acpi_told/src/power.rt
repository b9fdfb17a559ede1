ghost use Rattle.std.specs.Prelude.{◌≡◌};
ghost use Rattle.machine_desc.specs.Fields.{fitted};
ghost use Rattle.acpi_told.specs.Parts.{power_told};

use acpi_model::Fadt;
use machine_desc::Power;

/// Returns the power management that `fadt` tells, with the clock `rtc` and the `keyboard` that a DSDT does (FADT, ACPI 6.5, 5.2.9). A port is
/// 0 where its number has more than 16 bits.
pub fn power_in(rtc: bool, keyboard: bool, fadt: &Fadt) -> Power
    ensures { result ≡ power_told rtc keyboard fadt.now }
{
    Power {
        sci: fadt.sci,
        profile: fadt.profile,
        event: port_in(fadt.pm1a_evt),
        control: port_in(fadt.pm1a_cnt),
        timer: port_in(fadt.pm_tmr),
        gpe: port_in(fadt.gpe0),
        gpe_len: fadt.gpe0_len,
        reset: u16::try_from(fadt.reset_reg.address).unwrap_or(0),
        reset_value: fadt.reset_value,
        century: fadt.century,
        rtc,
        keyboard,
    }
}

// A port of 16 bits, and 0 where a number has more.
fn port_in(number: u32) -> u16
    ensures { result ≡ fitted 16 number }
{
    u16::try_from(number).unwrap_or(0)
}
