//! Words that are no command, each behind a bar.

use crate::words::reading::{is_read, is_read_around};
use std::alloc::Global;
use std::process::Abort;
use std::test::Fail;

const NO_COMMANDS: &[&str] = &[
    // the first is no command's name
    "",
    "|",
    "|Boot",
    "|BOOT",
    "|boo",
    "|boots",
    "|boot ",
    "| boot",
    "|boot\0",
    "|load\n",
    "|Load",
    "|Build",
    "|gen",
    "|gen|0",
    "|gen|4097",
    "|gen|04",
    "|gen|+4",
    "|gen|1|1",
    "|gen|1|--list",
    "|gen|--print|1",
    "|gen|",
    "|--help",
    "|--fill",
    "|--fill|a5",
    "|--fill|a5|boot",
    "|--top|64|load",
    // a list that is asked for twice, and with other words
    "|decode|--list|--list",
    "|decode|x",
    "|decode|--list|x",
    "|decode|x|--list",
    "|decode|--list|",
    "|decode|-list",
    "|decode|--List",
    "|decode|--list=1",
    "|decode|--list|--fill|00",
    "|decode|--legacy|--legacy",
    "|decode|--legacy|--list|--legacy",
    "|decode|--list|--legacy|--list",
    "|decode|--legacy|116",
    "|decode|--legacy=1",
    "|decode|--Legacy",
    "|decode|legacy",
    "|decode|--list|--smbios2|--smbios2",
    "|decode|--list|--any|--any",
    "|load|--install|--install",
    "|load|--install|1",
    "|load|--smbios2",
    "|boot|--install",
    "|decode|--install",
    "|load|--legacy",
    "|gen|1|--legacy",
    "|--legacy",
    "|--legacy|decode",
    "|decode|--fill|00|--list",
    "|boot|--list",
    "|build|--list",
    "|--list",
    "|--list|decode",
    // a word that names no option of the command
    "|build|build",
    "|boot|boot",
    "|boot|",
    "|load|",
    "|boot|a5",
    "|load|64",
    "|boot|--",
    "|load|--fill|a5|--",
    "|load|load|--top|64",
    "|load|--help|a5",
    "|boot|-fill|a5",
    "|boot|--Fill|a5",
    "|boot|--fill=a5",
    "|boot|fill|a5",
    "|load|--tops|64",
    "|load|--to|64",
    "|load||64",
    "|boot|top",
    "|boot|--Seed|1",
    "|boot|--seed=1",
    "|load|--policies|low",
    "|load|-policy|low",
    // an option of another command
    "|build|--fill|a5",
    "|build|--top|64",
    "|boot|--top|64",
    "|boot|--fill|a5|--top|64",
    "|boot|--top|64|--fill|a5",
    "|build|--seed|1",
    "|build|--policy|low",
    "|boot|--policy|low|--top|64|--seed|1",
    // a name without its value
    "|build|--fill",
    "|boot|--fill",
    "|load|--fill",
    "|load|--top",
    "|load|--fill|a5|--top",
    "|load|--top|64|--fill",
    "|load|--fill|--top|64",
    "|boot|--fill|a5|--fill",
    "|load|--fill|--top",
    "|boot|--policy",
    "|load|--seed",
    "|boot|--policy|--seed|1",
    "|load|--policy|top|--seed",
    // an option that is given twice
    "|boot|--fill|a5|--fill|a5",
    "|boot|--fill|00|--fill|01",
    "|load|--fill|00|--fill|00",
    "|load|--top|64|--top|64",
    "|load|--fill|a5|--top|64|--fill|a5",
    "|load|--top|64|--fill|a5|--top|128",
    "|boot|--fill|a5|--fill|a5|--fill|a5",
    "|boot|--seed|1|--seed|1",
    "|load|--seed|0|--top|64|--seed|1",
    "|boot|--policy|low|--policy|low",
    "|load|--policy|low|--fill|a5|--policy|top",
    "|boot|--policy|scatter|--seed|1|--policy|scatter|--seed|1",
    // an option without another that it needs, and two that exclude each other
    "|decode|--smbios2",
    "|decode|--smbios2|--legacy",
    "|decode|--any",
    "|decode|--any|--legacy",
    "|decode|--list|--any|--legacy",
    "|decode|--legacy|--any|--list",
    "|decode|--list|--any|--smbios2",
    "|decode|--smbios2|--list|--any",
    "|decode|--list|--legacy|--smbios2|--any",
];

// What isn't two lower-case hexadecimal digits.
const NO_FILLS: &[&str] = &[
    "", "0", "a", "000", "0000a5", "A5", "aF", "fF", "g0", "0g", "0/", ":0", "`0", "0G", "0x",
    "x0", " 5", "5 ", "+5", "-5", "é", "a\0",
];

// What isn't a number from 64 to 3072, in digits without a sign or a zero in front.
const NO_TOPS: &[&str] = &[
    "",
    "0",
    "1",
    "9",
    "63",
    "3073",
    "3080",
    "4000",
    "9999",
    "10000",
    "064",
    "0064",
    "00",
    "03072",
    "+64",
    "-64",
    " 64",
    "64 ",
    "64M",
    "6 4",
    "0x64",
    "6/",
    "6:",
    "64.0",
    "1e3",
    "a5",
    "٦٤",
    "65536",
    "65600",
    "4294967295",
    "4294967296",
    "4294967360",
    "18446744073709551615",
    "18446744073709551616",
    "18446744073709551680",
    "123456789012345678901234567890",
    "000000000000000000000000000064",
];

// What names no policy.
const NO_POLICIES: &[&str] = &[
    "",
    "Low",
    "LOW",
    "high",
    "lo",
    "lows",
    "low ",
    " low",
    "low\0",
    "Top",
    "tops",
    "scatte",
    "scattered",
    "0",
];

// What isn't a number of 64 bits, in digits without a sign or a zero in front.
const NO_SEEDS: &[&str] = &[
    "",
    "00",
    "01",
    "000",
    "007",
    "+0",
    "+1",
    "-0",
    "-1",
    " 1",
    "1 ",
    "0x1",
    "a5",
    "1e3",
    "٦",
    "18446744073709551616",
    "18446744073709551625",
    "123456789012345678901234567890",
];

// Values that an option doesn't take, and what stands before and behind each.
struct Refused {
    before: &'static str,
    values: &'static [&'static str],
    behind: &'static str,
}

const REFUSED: &[Refused] = &[
    Refused {
        before: "|boot|--fill",
        values: NO_FILLS,
        behind: "",
    },
    Refused {
        before: "|load|--top|64|--fill",
        values: NO_FILLS,
        behind: "",
    },
    Refused {
        before: "|load|--top",
        values: NO_TOPS,
        behind: "",
    },
    Refused {
        before: "|load|--top",
        values: NO_TOPS,
        behind: "|--fill|a5",
    },
    Refused {
        before: "|boot|--policy",
        values: NO_POLICIES,
        behind: "",
    },
    Refused {
        before: "|load|--seed|1|--policy",
        values: NO_POLICIES,
        behind: "",
    },
    Refused {
        before: "|boot|--seed",
        values: NO_SEEDS,
        behind: "",
    },
    Refused {
        before: "|load|--seed",
        values: NO_SEEDS,
        behind: "|--policy|top",
    },
];

#[test]
fn words(rt: HostRuntime) -> Result<(), Fail> {
    for words in NO_COMMANDS {
        is_read(&rt, rt.alloc(), words, None)?;
    }
    Ok(())
}

#[test]
fn values(rt: HostRuntime) -> Result<(), Fail> {
    for refused in REFUSED {
        are_refused(&rt, rt.alloc(), refused)?;
    }
    Ok(())
}

fn are_refused(rt: &impl Abort, alloc: Global, refused: &Refused) -> Result<(), Fail> {
    for value in refused.values {
        is_read_around(rt, alloc, refused.before, value, refused.behind, None)?;
    }
    Ok(())
}
