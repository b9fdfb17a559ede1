//! Words, and the command that they are to be read as. Words stand in one text, each behind a bar, since an array for each line is dear to
//! prove.

use std::alloc::{AllocError, Global};
use std::process::Abort;
use vt_words::{Command, read_words};

/// The words are read as this command, or as none.
pub(crate) fn is_read(
    rt: &impl Abort,
    alloc: Global,
    words: &str,
    wanted: Option<Command>,
) -> Result<(), AllocError> {
    let mut line = Vec::new(alloc);
    push_words(alloc, &mut line, words)?;
    is_line_read(rt, line.as_slice(), wanted);
    Ok(())
}

/// The words before a value, the value, and the words behind it are read as this command, or as none.
pub(crate) fn is_read_around(
    rt: &impl Abort,
    alloc: Global,
    before: &str,
    value: &str,
    behind: &str,
    wanted: Option<Command>,
) -> Result<(), AllocError> {
    let mut line = Vec::new(alloc);
    push_around(alloc, &mut line, before, value, behind)?;
    is_line_read(rt, line.as_slice(), wanted);
    Ok(())
}

fn is_line_read(rt: &impl Abort, line: &[String], wanted: Option<Command>) {
    assert_eq!(rt; read_words(line), wanted, "at {line:?}");
}

fn push_around(
    alloc: Global,
    line: &mut Vec<String>,
    before: &str,
    value: &str,
    behind: &str,
) -> Result<(), AllocError> {
    push_words(alloc, line, before)?;
    push_word(alloc, line, value)?;
    push_words(alloc, line, behind)
}

/// Adds the words of `words`, each behind a bar.
pub(crate) fn push_words(
    alloc: Global,
    line: &mut Vec<String>,
    words: &str,
) -> Result<(), AllocError> {
    for word in words.split('|').skip(1) {
        push_word(alloc, line, word)?;
    }
    Ok(())
}

fn push_word(alloc: Global, line: &mut Vec<String>, word: &str) -> Result<(), AllocError> {
    line.push(String::from_str(alloc, word)?)?;
    Ok(())
}
