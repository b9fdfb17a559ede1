//! A made-up command with what no command of the program has: operands, flags among options with values, an option that must be given,
//! options that exclude each other, an option that needs another, and an option whose value is another option's name.

use crate::words::reading::push_words;
use std::alloc::{AllocError, Global};
use std::process::Abort;
use std::test::Fail;
use word_schema::{
    CommandSchema, Exclusive, Form, Kind, Need, OperandSchema, OptionSchema, Value, read_values,
};

macro_rules! option {
    ($name:literal, $kind:expr, $default:expr) => {
        OptionSchema {
            name: $name,
            kind: $kind,
            default: $default,
            placeholder: "",
            about: "",
        }
    };
}

macro_rules! flag {
    ($name:literal) => {
        option!($name, Kind::Flag, Some(Value::Flag(false)))
    };
}

const COPY: CommandSchema = CommandSchema {
    name: "copy",
    operands: &[
        OperandSchema {
            form: Form::Number(1, 12),
            placeholder: "N",
            about: "",
        },
        OperandSchema {
            form: Form::Word(&["file", "pipe"]),
            placeholder: "TO",
            about: "",
        },
    ],
    options: &[
        flag!("--quiet"),
        option!(
            "--way",
            Kind::Valued(Form::Word(&["--quiet", "slow", "fast"])),
            Some(Value::Word(1))
        ),
        option!("--at", Kind::Valued(Form::Byte), None),
        flag!("--loud"),
        option!(
            "--count",
            Kind::Valued(Form::Number(0, 9)),
            Some(Value::Number(3))
        ),
    ],
    exclusive: &[
        Exclusive {
            one: "--quiet",
            other: "--loud",
        },
        Exclusive {
            one: "--count",
            other: "--way",
        },
    ],
    needs: &[Need {
        one: "--loud",
        other: "--count",
    }],
    input: "",
    output: "",
    about: "",
};

// Words behind the command's name, each behind a bar, and what they say: the number, the place, whether it's quiet, the way, the byte,
// whether it's loud, and the count.
struct Row(&'static str, u64, usize, bool, usize, u64, bool, u64);

const SAID: &[Row] = &[
    // with the defaults
    Row("|7|file|--at|0f", 7, 0, false, 1, 0x0F, false, 3),
    Row("|1|pipe|--at|ff", 1, 1, false, 1, 0xFF, false, 3),
    Row("|12|file|--at|00", 12, 0, false, 1, 0, false, 3),
    // a flag before, between and behind others
    Row(
        "|7|file|--quiet|--at|0f|--way|fast",
        7,
        0,
        true,
        2,
        0x0F,
        false,
        3,
    ),
    Row(
        "|7|file|--at|0f|--quiet|--way|fast",
        7,
        0,
        true,
        2,
        0x0F,
        false,
        3,
    ),
    Row(
        "|7|file|--way|fast|--at|0f|--quiet",
        7,
        0,
        true,
        2,
        0x0F,
        false,
        3,
    ),
    Row(
        "|7|file|--loud|--count|9|--at|0f",
        7,
        0,
        false,
        1,
        0x0F,
        true,
        9,
    ),
    // a value that is another option's name
    Row(
        "|7|file|--way|--quiet|--at|0f",
        7,
        0,
        false,
        0,
        0x0F,
        false,
        3,
    ),
    Row(
        "|7|file|--way|--quiet|--quiet|--at|0f",
        7,
        0,
        true,
        0,
        0x0F,
        false,
        3,
    ),
    Row(
        "|7|file|--quiet|--at|0f|--way|--quiet",
        7,
        0,
        true,
        0,
        0x0F,
        false,
        3,
    ),
    // one of two that exclude each other, also with its default
    Row("|7|file|--at|0f|--count|3", 7, 0, false, 1, 0x0F, false, 3),
    Row("|7|file|--at|0f|--way|slow", 7, 0, false, 1, 0x0F, false, 3),
    Row(
        "|7|file|--count|0|--at|0f|--quiet",
        7,
        0,
        true,
        1,
        0x0F,
        false,
        0,
    ),
    // the option that needs another, with it in each order and also with its default
    Row(
        "|7|file|--loud|--at|0f|--count|0",
        7,
        0,
        false,
        1,
        0x0F,
        true,
        0,
    ),
    Row(
        "|7|file|--count|0|--at|0f|--loud",
        7,
        0,
        false,
        1,
        0x0F,
        true,
        0,
    ),
    Row(
        "|7|file|--at|0f|--loud|--count|3",
        7,
        0,
        false,
        1,
        0x0F,
        true,
        3,
    ),
    // the needed one without it, and neither
    Row("|7|file|--at|0f|--count|0", 7, 0, false, 1, 0x0F, false, 0),
    Row("|7|file|--at|0f|--quiet", 7, 0, true, 1, 0x0F, false, 3),
];

const REFUSED: &[&str] = &[
    // operands: too few, none, one that is no value of its form, or in another order
    "",
    "|7",
    "|--at|0f",
    "|7|--at|0f",
    "|0|file|--at|0f",
    "|13|file|--at|0f",
    "|07|file|--at|0f",
    "|7|files|--at|0f",
    "|7|fil|--at|0f",
    "|7||--at|0f",
    "|file|7|--at|0f",
    "|--at|0f|7|file",
    "|7|--at|0f|file",
    "|7|file|pipe|--at|0f",
    // the option that must be given isn't
    "|7|file",
    "|7|file|--quiet",
    "|7|file|--way|fast|--quiet",
    "|7|file|--at",
    "|7|file|--quiet|--at",
    "|7|file|--at|--quiet",
    // an option that is given twice
    "|7|file|--at|0f|--quiet|--quiet",
    "|7|file|--quiet|--at|0f|--quiet",
    "|7|file|--at|0f|--at|0f",
    "|7|file|--at|0f|--way|slow|--way|slow",
    "|7|file|--at|0f|--way|--quiet|--way|fast",
    "|7|file|--quiet|--quiet|--quiet|--quiet|--quiet|--quiet|--quiet|--quiet|--quiet|--quiet|--quiet|--quiet|--quiet|--quiet|--quiet|--quiet|--quiet|--at|0f",
    // two that exclude each other, in each order and also with their defaults
    "|7|file|--at|0f|--quiet|--loud|--count|9",
    "|7|file|--loud|--count|9|--at|0f|--quiet",
    "|7|file|--at|0f|--count|3|--way|slow",
    "|7|file|--way|slow|--at|0f|--count|3",
    "|7|file|--way|--quiet|--at|0f|--count|9",
    // an option without the other that it needs
    "|7|file|--at|0f|--loud",
    "|7|file|--loud|--at|0f",
    "|7|file|--loud|--at|0f|--way|fast",
    "|7|file|--way|slow|--loud|--at|0f",
    // a flag with a value, and what isn't a value of its option or names none
    "|7|file|--at|0f|--quiet|true",
    "|7|file|--at|0f|--quiet|0",
    "|7|file|--at|0f|--way|quiet",
    "|7|file|--at|0f|--way|",
    "|7|file|--at|0F",
    "|7|file|--at|0f|--count|10",
    "|7|file|--at|0f|--count|-1",
    "|7|file|--at|0f|--fast",
    "|7|file|--at|0f|",
    "|copy|7|file|--at|0f",
];

#[test]
fn values(rt: HostRuntime) -> Result<(), Fail> {
    for row in SAID {
        is_said(&rt, rt.alloc(), row)?;
    }
    Ok(())
}

#[test]
fn no_values(rt: HostRuntime) -> Result<(), Fail> {
    for words in REFUSED {
        is_refused(&rt, rt.alloc(), words)?;
    }
    Ok(())
}

fn is_said(rt: &impl Abort, alloc: Global, row: &Row) -> Result<(), AllocError> {
    let mut line = Vec::new(alloc);
    push_words(alloc, &mut line, row.0)?;
    line_says(rt, line.as_slice(), row);
    Ok(())
}

fn line_says(rt: &impl Abort, line: &[String], row: &Row) {
    let said = match read_values(&COPY, line) {
        Some(mut values) => Some((
            values.take_number(12),
            values.take_word(),
            values.take_flag(),
            values.take_word(),
            values.take_number(255),
            values.take_flag(),
            values.take_number(9),
        )),
        None => None,
    };
    let wanted = (row.1, row.2, row.3, row.4, row.5, row.6, row.7);
    assert_eq!(rt; said, Some(wanted), "at {line:?}");
}

fn is_refused(rt: &impl Abort, alloc: Global, words: &str) -> Result<(), AllocError> {
    let mut line = Vec::new(alloc);
    push_words(alloc, &mut line, words)?;
    assert!(rt; read_values(&COPY, line.as_slice()).is_none(), "at {words}");
    Ok(())
}
