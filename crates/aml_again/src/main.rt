//! The program `aml_again`: reads AML terms from standard input, and writes them to standard output again, in their shortest spelling. Where
//! the bytes are no terms, it tells their first fault on standard error, and ends with status 1. It serves to compare the reader and the writer
//! with other programs.
#![tactic(auto)]

use aml_decode::decode_terms;
use aml_encode::{TermFault, encode_terms};
use aml_terms::AmlFault;
use std::alloc::Global;
use std::io::{Read, Write};
use std::process::ExitCode;
use thiserror::Error;
use vt_outside::Bytes;

// Why terms weren't written again.
#[derive(Clone, Copy, Debug, Error)]
enum Fault {
    #[error("read or write fault")]
    Stream,
    #[error("more than 4 GiB")]
    TooLong,
    #[error("{0}")]
    Aml(AmlFault),
    #[error("{0}")]
    Term(TermFault),
}

fn main(rt: HostRuntime) -> ExitCode {
    match write_again(&rt) {
        Ok(()) => ExitCode::SUCCESS,
        Err(fault) => {
            let _ = rt.eprintln(fault);
            ExitCode::FAILURE
        }
    }
}

fn write_again(rt: &HostRuntime) -> Result<(), Fault> {
    let mut bytes = Vec::new(rt.alloc());
    rt.stdin()
        .read_to_end(&mut bytes)
        .map_err(|_| Fault::Stream)?;
    let again = again(rt.alloc(), &bytes)?;
    rt.stdout()
        .write_all(again.as_slice())
        .map_err(|_| Fault::Stream)
}

// The terms that bytes spell, in their shortest spelling.
fn again(alloc: Global, bytes: &[u8]) -> Result<Bytes, Fault> {
    if bytes.len() >= 1 << 32 {
        return Err(Fault::TooLong);
    }
    let terms = decode_terms(alloc, bytes).map_err(Fault::Aml)?;
    let mut again = Bytes::new(alloc);
    encode_terms(terms.as_slice(), &mut again).map_err(Fault::Term)?;
    drop(terms);
    Ok(again)
}
