//! The program `vmtables`: the top call over the words, the streams and the status of a process, and the texts of `--help` and
//! `--version`.
#![tactic(auto)]

mod help;

use crate::help::Help;
use firmware_load::SeededSchedule;
use std::io::{self, BufWriter, ErrorKind};
use std::process::ExitCode;
use std::{env, fmt};
use vmtables::{Status, World, top};
use vt_outside::{ReadSource, WriteSink};
use zone_alloc::ShelfAlloc;

const VERSION: &str = "vmtables 0.1.0\n";

// How many bytes of output are gathered before they are written.
const BUFFER: usize = 65_536;

fn main(rt: HostRuntime) -> ExitCode {
    let Ok(words) = words_of(&rt) else {
        return out_of_memory(&rt);
    };
    match words.as_slice() {
        [word] if word.as_str() == "--help" => print_text(&rt, Help),
        [word] if word.as_str() == "--version" => print_text(&rt, VERSION),
        words => run(&rt, words),
    }
}

// The words after the program's name. Where one of them isn't text, one empty word stands for all, and that is no command.
fn words_of(rt: &HostRuntime) -> io::Result<Vec<String>> {
    let mut words = Vec::new(rt.alloc());
    match env::args(rt) {
        Ok(args) => {
            for word in args.skip(1) {
                words.push(word)?;
            }
        }
        Err(error) if error.kind() == ErrorKind::OutOfMemory => return Err(error),
        Err(_) => words.push(String::new(rt.alloc()))?,
    }
    Ok(words)
}

fn run(rt: &HostRuntime, words: &[String]) -> ExitCode {
    let Ok(writer) = BufWriter::with_capacity(rt.alloc(), BUFFER, rt.stdout()) else {
        return out_of_memory(rt);
    };
    let status = top(
        rt.alloc(),
        words,
        &mut ReadSource::new(rt.stdin()),
        &mut WriteSink::new(writer),
        &mut WriteSink::new(rt.stderr()),
        &mut ShelfAlloc::new(),
        &mut SeededSchedule::new(),
        &mut World::idle(),
    );
    ExitCode::from(status.number())
}

fn print_text(rt: &HostRuntime, text: impl fmt::Display + Drop) -> ExitCode {
    match rt.print(text) {
        Ok(()) => ExitCode::from(Status::Ok.number()),
        Err(_) => ended(rt, Status::WriteFault, "write fault"),
    }
}

// Ends a process that has no memory even to begin.
fn out_of_memory(rt: &HostRuntime) -> ExitCode {
    ended(rt, Status::OutOfMemory, "out of memory")
}

// Ends a process before the top call, or without it, with the line that the top call has for the status.
fn ended(rt: &HostRuntime, status: Status, line: &str) -> ExitCode {
    let _ = rt.eprintln(line);
    ExitCode::from(status.number())
}
