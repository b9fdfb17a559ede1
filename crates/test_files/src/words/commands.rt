//! Words that are commands: each command, its defaults, each bound of a value, and options in several orders.

use crate::words::reading::{is_read, is_read_around};
use std::alloc::{AllocError, Global};
use std::process::Abort;
use std::test::Fail;
use vt_words::{Command, LoadOptions, Setting, Sought};
use zone_alloc::Policy;

// What the options say where none is given.
const DEFAULTS: Setting = Setting {
    fill: 0,
    policy: Policy::Low,
    seed: 0,
};

// A list by one kind of ACPI tables, and one of SMBIOS anchors.
macro_rules! listed {
    ($legacy:literal, $smbios2:literal) => {
        Command::List(Sought::One {
            legacy: $legacy,
            smbios2: $smbios2,
        })
    };
}

// Words, each behind a bar, and the command that they are.
struct Row(&'static str, Command);

const COMMANDS: &[Row] = &[
    // each command with its defaults
    Row("|build", Command::Build),
    Row("|decode", Command::Decode { legacy: false }),
    Row("|decode|--legacy", Command::Decode { legacy: true }),
    Row("|decode|--list", listed!(false, false)),
    Row("|decode|--list|--legacy", listed!(true, false)),
    Row("|decode|--legacy|--list", listed!(true, false)),
    Row("|decode|--list|--smbios2", listed!(false, true)),
    Row("|decode|--smbios2|--list", listed!(false, true)),
    Row("|decode|--smbios2|--legacy|--list", listed!(true, true)),
    Row("|decode|--list|--any", Command::List(Sought::Any)),
    Row("|decode|--any|--list", Command::List(Sought::Any)),
    Row("|gen|1", Command::Gen(1)),
    Row("|gen|300", Command::Gen(300)),
    Row("|gen|4096", Command::Gen(4096)),
    Row("|boot", Command::Boot(DEFAULTS)),
    Row(
        "|load",
        Command::Load(LoadOptions {
            top_mib: 64,
            install: false,
            setting: DEFAULTS,
        }),
    ),
    // one option
    Row(
        "|load|--install",
        Command::Load(LoadOptions {
            top_mib: 64,
            install: true,
            setting: DEFAULTS,
        }),
    ),
    Row(
        "|boot|--policy|top",
        Command::Boot(Setting {
            fill: 0,
            policy: Policy::Top,
            seed: 0,
        }),
    ),
    Row(
        "|boot|--seed|7",
        Command::Boot(Setting {
            fill: 0,
            policy: Policy::Low,
            seed: 7,
        }),
    ),
    // two options, in each order
    Row(
        "|load|--install|--top|128",
        Command::Load(LoadOptions {
            top_mib: 128,
            install: true,
            setting: DEFAULTS,
        }),
    ),
    Row(
        "|load|--top|128|--install",
        Command::Load(LoadOptions {
            top_mib: 128,
            install: true,
            setting: DEFAULTS,
        }),
    ),
    Row(
        "|load|--fill|a5|--top|128",
        Command::Load(LoadOptions {
            top_mib: 128,
            install: false,
            setting: Setting {
                fill: 0xA5,
                policy: Policy::Low,
                seed: 0,
            },
        }),
    ),
    Row(
        "|load|--top|128|--fill|a5",
        Command::Load(LoadOptions {
            top_mib: 128,
            install: false,
            setting: Setting {
                fill: 0xA5,
                policy: Policy::Low,
                seed: 0,
            },
        }),
    ),
    Row(
        "|load|--seed|18446744073709551615|--top|65",
        Command::Load(LoadOptions {
            top_mib: 65,
            install: false,
            setting: Setting {
                fill: 0,
                policy: Policy::Low,
                seed: u64::MAX,
            },
        }),
    ),
    Row(
        "|boot|--policy|scatter|--seed|12",
        Command::Boot(Setting {
            fill: 0,
            policy: Policy::Scatter(12),
            seed: 12,
        }),
    ),
    Row(
        "|boot|--seed|12|--policy|scatter",
        Command::Boot(Setting {
            fill: 0,
            policy: Policy::Scatter(12),
            seed: 12,
        }),
    ),
    // all options, in some orders
    Row(
        "|boot|--seed|12|--fill|a5|--policy|top",
        Command::Boot(Setting {
            fill: 0xA5,
            policy: Policy::Top,
            seed: 12,
        }),
    ),
    Row(
        "|load|--policy|scatter|--top|128|--seed|12|--fill|a5",
        Command::Load(LoadOptions {
            top_mib: 128,
            install: false,
            setting: Setting {
                fill: 0xA5,
                policy: Policy::Scatter(12),
                seed: 12,
            },
        }),
    ),
    Row(
        "|load|--fill|a5|--seed|12|--top|128|--policy|top",
        Command::Load(LoadOptions {
            top_mib: 128,
            install: false,
            setting: Setting {
                fill: 0xA5,
                policy: Policy::Top,
                seed: 12,
            },
        }),
    ),
    // all options, each with its default
    Row(
        "|boot|--fill|00|--policy|low|--seed|0",
        Command::Boot(DEFAULTS),
    ),
    Row(
        "|load|--fill|00|--top|64|--policy|low|--seed|0",
        Command::Load(LoadOptions {
            top_mib: 64,
            install: false,
            setting: DEFAULTS,
        }),
    ),
    // digits that are each of the values, read as what their name says
    Row(
        "|load|--top|99|--seed|99|--fill|99",
        Command::Load(LoadOptions {
            top_mib: 99,
            install: false,
            setting: Setting {
                fill: 0x99,
                policy: Policy::Low,
                seed: 99,
            },
        }),
    ),
];

const FILLS: &[(&str, u8)] = &[
    ("00", 0),
    ("01", 1),
    ("0f", 0x0F),
    ("10", 0x10),
    ("99", 0x99),
    ("9a", 0x9A),
    ("a9", 0xA9),
    ("f0", 0xF0),
    ("ff", 0xFF),
];

const TOPS: &[(&str, u32)] = &[
    ("64", 64),
    ("65", 65),
    ("99", 99),
    ("100", 100),
    ("999", 999),
    ("1000", 1000),
    ("2048", 2048),
    ("3071", 3071),
    ("3072", 3072),
];

// Policies, where the seed is that of the defaults.
const POLICIES: &[(&str, Policy)] = &[
    ("low", Policy::Low),
    ("top", Policy::Top),
    ("scatter", Policy::Scatter(0)),
];

const SEEDS: &[(&str, u64)] = &[
    ("0", 0),
    ("1", 1),
    ("9", 9),
    ("10", 10),
    ("100", 100),
    ("4294967295", 0xFFFF_FFFF),
    ("4294967296", 0x1_0000_0000),
    ("9223372036854775808", 0x8000_0000_0000_0000),
    ("18446744073709551615", 0xFFFF_FFFF_FFFF_FFFF),
];

#[test]
fn commands(rt: HostRuntime) -> Result<(), Fail> {
    for Row(words, command) in COMMANDS {
        is_read(&rt, rt.alloc(), words, Some(*command))?;
    }
    Ok(())
}

#[test]
fn fill_bytes(rt: HostRuntime) -> Result<(), Fail> {
    for (value, fill) in FILLS {
        let setting = Setting {
            fill: *fill,
            ..DEFAULTS
        };
        are_read(&rt, rt.alloc(), BEFORE_FILL, value, setting)?;
    }
    Ok(())
}

#[test]
fn policies(rt: HostRuntime) -> Result<(), Fail> {
    for (value, policy) in POLICIES {
        let setting = Setting {
            policy: *policy,
            ..DEFAULTS
        };
        are_read(&rt, rt.alloc(), BEFORE_POLICY, value, setting)?;
    }
    Ok(())
}

#[test]
fn seeds(rt: HostRuntime) -> Result<(), Fail> {
    for (value, seed) in SEEDS {
        let setting = Setting {
            seed: *seed,
            ..DEFAULTS
        };
        are_read(&rt, rt.alloc(), BEFORE_SEED, value, setting)?;
    }
    Ok(())
}

// The words before the value of an option: those of a boot, and those of a load.
type Before<'a> = (&'a str, &'a str);

const BEFORE_FILL: Before = ("|boot|--fill", "|load|--fill");

const BEFORE_POLICY: Before = ("|boot|--policy", "|load|--policy");

const BEFORE_SEED: Before = ("|boot|--seed", "|load|--seed");

// With this value the words are a boot, and a load at the least top.
fn are_read(
    rt: &impl Abort,
    alloc: Global,
    before: Before,
    value: &str,
    setting: Setting,
) -> Result<(), AllocError> {
    let boot = Command::Boot(setting);
    let load = Command::Load(LoadOptions {
        top_mib: 64,
        install: false,
        setting,
    });
    is_read_around(rt, alloc, before.0, value, "", Some(boot))?;
    is_read_around(rt, alloc, before.1, value, "", Some(load))
}

#[test]
fn tops(rt: HostRuntime) -> Result<(), Fail> {
    for (value, top_mib) in TOPS {
        is_top(&rt, rt.alloc(), value, *top_mib)?;
    }
    Ok(())
}

fn is_top(rt: &impl Abort, alloc: Global, value: &str, top_mib: u32) -> Result<(), AllocError> {
    let load = Command::Load(LoadOptions {
        top_mib,
        install: false,
        setting: DEFAULTS,
    });
    is_read_around(rt, alloc, "|load|--top", value, "", Some(load))
}
