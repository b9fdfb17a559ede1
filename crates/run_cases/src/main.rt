//! The program `run_cases`: makes the runs of the top call that files of cases tell, and prints which of them end otherwise than they are to.
//!
//! Its words are the names of the files. Of each file it prints how many cases it has, among which one that is run for many numbers counts for each
//! of them, and above that line one for each case that ends otherwise: the part that differs, the case's name, and where the case is run for numbers
//! the first one for which it ends so. Its status is 0 where all cases end as they are to. A file that isn't as a file of cases is ends it with a
//! line on standard error that tells the file, the number of the line and what is wrong there.
//!
//! # Files of cases
//!
//! A line of a file is empty, a comment, which begins with `#` and names the source of what is expected, or one of these:
//!
//! ```text
//! = NAME               begins a case, whose name no other case of the file has
//! words WORD ..        the words of the command line, parted by a blank each; none, where no word is told
//! word TEXT            one word more: all that stands behind the blank
//! wordx DIGITS         one word more, whose bytes are these hexadecimal digits
//! status N             the status that is answered
//! again                the run is made in the world of the case before, and not in one in which nothing was begun
//! refuses N ..         the calls of the allocator that are refused, from 0 on
//! places               the allocator is that of the case before, which goes on counting its calls
//! each FIRST LAST STEP
//!                      the run is made for the number FIRST, and for each that comes by STEP behind the one before, up to LAST
//! state WORD           how far the world is at the end: idle, running, done or refused
//! fault TEXT           why the world's load was refused, as LoadFault is written: NoRoom { index: 0 }
//! top ADDRESS          where the memory ends, of a load that is done or refused; an address has hexadecimal digits
//! touched N ..         these frames of the memory are touched, and no others
//! finished KIND SELECTOR OFFSET LENGTH ADDRESS [error]
//!                      one of the last transfers of the device, the last one last: read, write, skip or nothing
//! item SELECTOR        begins the bytes that this item of the device holds at the end, of a load that is done
//! memory ADDRESS       begins the bytes that the memory holds there at the end
//! plan                 begins the events of the plan; where it isn't told, they are drawn from the seed
//!   firmware             a step of the firmware
//!   device N             a piece of N bytes
//!   other ADDRESS BYTE   a byte that another processor writes
//!   reset                the guest is reset
//!   turns N BYTES        N events, a step of the firmware and a piece of so many bytes in turn
//!   turns each BYTES     so many of these as is the number for which the run is made, and none where `each` isn't told
//!   times N              the events of the plan so far, N times over
//! input, output, says  begins a stream: standard input, standard output or standard error
//!   room N               how many bytes a read gives at most, or for how many bytes there is room; where it isn't told, 65,536
//!   fails N ..           the calls that fail, from 0 on
//!   endless BYTE         of the input: behind its bytes comes this one without end
//!   left N               of the input: so many of its bytes aren't read
//!   flush fails          of the output: its flush fails
//!   hash N DIGITS        of the output, in place of its bytes: there are N, with this hash, which is FNV-1a of 64 bits
//!   toml                 of the output: it is TOML, and its table is that of the bytes, whatever the order and the spelling
//!   begins               of the output: it begins with the bytes, and what is behind them isn't compared
//!   any                  of the output: it isn't compared
//! .                    ends the case: the run is made and compared
//! text NAME            outside of cases: begins bytes that are kept under a name
//! ```
//!
//! Bytes of a stream, an item, a memory or a text are told by these:
//!
//! ```text
//! |TEXT                a line: the text and a line feed
//! <TEXT                a part of a line: the text alone
//! xDIGITS              hexadecimal digits
//! pad N [BYTE]         this byte, or 0, until there are N bytes
//! repeat N TEXT        the text N times over
//! over N               the bytes of the next line stand in the place of those from the N-th on, counted from 0
//! before               what the run before wrote to standard output
//! keep NAME            keeps the bytes so far under a name, for the rest of the file; under a name that was used, the later ones hold
//! take NAME [N [FIRST]]
//!                      the bytes that are kept under this name, N times over, and behind each a number, from FIRST on, and a line feed
//! ~ADDRESS DIGITS      a row of a dump, in the place of that of its address, or where it stands by its address
//! -ADDRESS             takes the row of this address out
//! ```
//!
//! Words, status and streams that a case doesn't tell are those of the case before. All else counts for its case alone. A stream that is begun
//! has no bytes, and no call of it fails.
#![tactic(auto)]

mod bytes;
mod case;
mod comparing;
mod ending;
mod fault;
mod kept;
mod numbers;
mod plan;
mod reading;
mod rows;
mod running;
mod streams;

use crate::fault::Fault;
use crate::reading::Cases;
use crate::running::Rig;
use std::process::ExitCode;
use std::{env, fs};

fn main(rt: HostRuntime) -> ExitCode {
    match run_files(&rt) {
        Ok(true) => ExitCode::SUCCESS,
        Ok(false) | Err(_) => ExitCode::FAILURE,
    }
}

// Tells whether all cases of all files end as they are to. Of a fault a line was told.
fn run_files(rt: &HostRuntime) -> Result<bool, Fault> {
    let names = env::args(rt).map_err(|_| Fault::Stream)?;
    let mut all = true;
    for name in names.skip(1) {
        all = run_file(rt, name.as_str())? && all;
    }
    Ok(all)
}

fn run_file(rt: &HostRuntime, name: &str) -> Result<bool, Fault> {
    let mut cases = Cases::new(rt.alloc());
    let done = run_read(rt, name, &mut cases);
    if let Err(fault) = &done {
        let line = cases.line();
        let _ = eprintln!(rt; "{name}, line {line}: {fault}");
    }
    drop(cases);
    done
}

// Reads the file, runs its cases, and tells how many they are.
fn run_read(rt: &HostRuntime, name: &str, cases: &mut Cases) -> Result<bool, Fault> {
    let text = fs::read_to_string(rt, name).map_err(|_| Fault::Stream)?;
    let all = run_cases(rt, text.as_str(), cases)?;
    let runs = cases.runs();
    println!(rt; "{name}: {runs} cases").map_err(|_| Fault::Stream)?;
    Ok(all)
}

fn run_cases(rt: &HostRuntime, text: &str, cases: &mut Cases) -> Result<bool, Fault> {
    let mut rig = Rig::new(rt.alloc());
    let done = run_lines(rt, text, cases, &mut rig);
    drop(rig);
    done
}

fn run_lines(
    rt: &HostRuntime,
    text: &str,
    cases: &mut Cases,
    rig: &mut Rig,
) -> Result<bool, Fault> {
    let mut all = true;
    for line in text.lines() {
        all = run_line(rt, line, cases, rig)? && all;
    }
    cases.end_file()?;
    Ok(all)
}

// Takes a line, and tells whether the case that it ends, if it ends one, ended as it is to.
fn run_line(rt: &HostRuntime, line: &str, cases: &mut Cases, rig: &mut Rig) -> Result<bool, Fault> {
    if line != "." {
        cases.take(rt.alloc(), line)?;
        return Ok(true);
    }
    match cases.end(rt.alloc(), rig)? {
        None => Ok(true),
        Some(part) => {
            tell(rt, cases, part)?;
            Ok(false)
        }
    }
}

fn tell(rt: &HostRuntime, cases: &Cases, part: &str) -> Result<(), Fault> {
    let name = cases.name();
    match cases.number() {
        Some(number) => println!(rt; "{part} differs, at {name}, for {number}"),
        None => println!(rt; "{part} differs, at {name}"),
    }
    .map_err(|_| Fault::Stream)
}
