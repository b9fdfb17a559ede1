//! What `--help` prints: each command and its options as their rows say them, and the statuses.

use std::fmt;
use vt_words::commands;
use word_schema::{CommandSchema, Exclusive, Form, Kind, Need, OperandSchema, OptionSchema, Value};

const AFTER: &str = "
--help
    prints this text

--version
    prints the version

Options stand behind the command, in any order, each at most once.

Status:
    0   all was read, done, written and flushed
    1   standard input failed
    2   the words are no command
    3   the description is refused (boot, build)
    4   no place was free for a file of the container (load)
    5   the container is refused (load): its bytes are none, its SMBIOS files can't be installed, its script is missing or
        has a wrong length, or a command of the script is refused
    6   the bytes are no dump (decode)
    7   a table in memory has a fault, or no machine that can be described has these tables (decode)
    8   standard output failed; it took a part of the text from its front, perhaps all
    9   memory ran out
    10  more than 67,108,864 bytes were given
    11  the machine's files have more than 409,600 bytes in all (boot, build)

With a status other than 0 a line on standard error says what is wrong and where: the key or the rule of the
description; the command of the script; the fault of the container; the line of the dump; the address of the table, or
the first item in which a memory is no machine's. docs/FORMATS.md lists these lines, and tools/explain.py says one of
them in a sentence.
";

/// Prints the whole text.
#[derive(Drop)]
pub(crate) struct Help;

impl fmt::Display for Help {
    fn fmt<W: fmt::Write>(&self, f: &mut fmt::Formatter<W>) -> fmt::Result {
        let mut before = "usage:";
        for command in commands() {
            let usage = Usage(command);
            writeln!(f, "{before} vmtables {usage}")?;
            before = "      ";
        }
        for command in commands() {
            let about = About(command);
            write!(f, "\n{about}")?;
        }
        f.write_str(AFTER)
    }
}

// A command's line of usage.
#[derive(Clone, Copy)]
struct Usage<'a>(&'a CommandSchema);

impl fmt::Display for Usage<'_> {
    fn fmt<W: fmt::Write>(&self, f: &mut fmt::Formatter<W>) -> fmt::Result {
        let command = self.0;
        f.write_str(command.name)?;
        for operand in command.operands {
            let placeholder = operand.placeholder;
            write!(f, " {placeholder}")?;
        }
        for option in command.options {
            write_usage(f, option)?;
        }
        if !command.input.is_empty() {
            let input = command.input;
            write!(f, " < {input}")?;
        }
        let output = command.output;
        write!(f, " > {output}")
    }
}

// An option that may be left out stands in brackets.
fn write_usage<W: fmt::Write>(f: &mut fmt::Formatter<W>, option: &OptionSchema) -> fmt::Result {
    let words = Words(option);
    match option.default {
        Some(_) => write!(f, " [{words}]"),
        None => write!(f, " {words}"),
    }
}

// The name of an option, and what stands for its value.
#[derive(Clone, Copy)]
struct Words<'a>(&'a OptionSchema);

impl fmt::Display for Words<'_> {
    fn fmt<W: fmt::Write>(&self, f: &mut fmt::Formatter<W>) -> fmt::Result {
        let name = self.0.name;
        let placeholder = self.0.placeholder;
        match self.0.kind {
            Kind::Flag => f.write_str(name),
            Kind::Valued(_) => write!(f, "{name} {placeholder}"),
        }
    }
}

// What a command does, and what its operands and options mean.
#[derive(Clone, Copy)]
struct About<'a>(&'a CommandSchema);

impl fmt::Display for About<'_> {
    fn fmt<W: fmt::Write>(&self, f: &mut fmt::Formatter<W>) -> fmt::Result {
        let command = self.0;
        let name = command.name;
        let about = command.about;
        writeln!(f, "{name}\n    {about}")?;
        for operand in command.operands {
            write_operand(f, operand)?;
        }
        for option in command.options {
            write_option(f, option)?;
        }
        for pair in command.exclusive {
            write_pair(f, pair)?;
        }
        for need in command.needs {
            write_need(f, need)?;
        }
        Ok(())
    }
}

fn write_operand<W: fmt::Write>(f: &mut fmt::Formatter<W>, operand: &OperandSchema) -> fmt::Result {
    let placeholder = operand.placeholder;
    let about = operand.about;
    let range = Range(operand.form);
    writeln!(f, "    {placeholder}\n        {about}: {range}")
}

fn write_option<W: fmt::Write>(f: &mut fmt::Formatter<W>, option: &OptionSchema) -> fmt::Result {
    let words = Words(option);
    let about = option.about;
    write!(f, "    {words}\n        {about}")?;
    match (option.kind, option.default) {
        (Kind::Valued(form), Some(default)) => write_values(f, form, default),
        (Kind::Valued(form), None) => {
            let range = Range(form);
            writeln!(f, "\n        {range}; must be given")
        }
        (Kind::Flag, Some(_)) => f.write_str("\n"),
        (Kind::Flag, None) => f.write_str("\n        must be given\n"),
    }
}

// The values of an option that may be left out.
fn write_values<W: fmt::Write>(
    f: &mut fmt::Formatter<W>,
    form: Form,
    default: Value,
) -> fmt::Result {
    let range = Range(form);
    write!(f, "\n        {range}; ")?;
    write_value(f, form, default)?;
    f.write_str(" if left out\n")
}

// The word that says a value.
fn write_value<W: fmt::Write>(f: &mut fmt::Formatter<W>, form: Form, value: Value) -> fmt::Result {
    match value {
        Value::Flag(_) => Ok(()),
        Value::Number(number) => match form {
            Form::Byte => write!(f, "{number:02x}"),
            _ => write!(f, "{number}"),
        },
        Value::Word(place) => f.write_str(word_at(form, place)),
    }
}

fn word_at(form: Form, place: usize) -> &'static str {
    match form {
        Form::Word(words) => words.get(place).copied().unwrap_or(""),
        _ => "",
    }
}

fn write_pair<W: fmt::Write>(f: &mut fmt::Formatter<W>, pair: &Exclusive) -> fmt::Result {
    let one = pair.one;
    let other = pair.other;
    writeln!(f, "    at most one of {one} and {other} may be given")
}

fn write_need<W: fmt::Write>(f: &mut fmt::Formatter<W>, need: &Need) -> fmt::Result {
    let one = need.one;
    let other = need.other;
    writeln!(f, "    {one} may be given only with {other}")
}

// Which words say a value.
#[derive(Clone, Copy)]
struct Range(Form);

impl fmt::Display for Range {
    fn fmt<W: fmt::Write>(&self, f: &mut fmt::Formatter<W>) -> fmt::Result {
        match self.0 {
            Form::Byte => f.write_str("two lower-case hexadecimal digits"),
            Form::Number(least, most) => write!(f, "a number from {least} to {most}"),
            Form::Word(words) => write_words(f, words),
        }
    }
}

// The words of a set: commas between them, and "or" before the last.
fn write_words<W: fmt::Write>(f: &mut fmt::Formatter<W>, words: &[&str]) -> fmt::Result {
    for (place, word) in words.iter().enumerate() {
        f.write_str(word)?;
        match words.len() - place {
            1 => {}
            2 => f.write_str(" or ")?,
            _ => f.write_str(", ")?,
        }
    }
    Ok(())
}
