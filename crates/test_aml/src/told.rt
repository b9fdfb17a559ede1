//! What bytes are read as, in words.

ghost use Rattle.std.specs.Prelude.{IfOk};
ghost use Rattle.aml_terms.specs.Trees.{views};
ghost use Rattle.aml_terms.specs.WellFormed.{AreGood};

use crate::words::{push_terms, told_fault};
use aml_decode::decode_terms;
use aml_terms::{AmlFault, Term};
use std::alloc::Global;
use std::process::Abort;
use std::test::Fail;
use vt_outside::{Bytes, List};

/// Asserts what `bytes` are read as, in words.
pub fn is_told(rt: &impl Abort, alloc: Global, bytes: &[u8], wanted: &str) -> Result<(), Fail> {
    let told = told(alloc, bytes)?;
    are_words(rt, told.as_slice(), wanted.as_bytes(), bytes);
    Ok(())
}

/// Asserts that words that are told of `bytes` are those that are wanted.
pub fn are_words(rt: &impl Abort, told: &[u8], wanted: &[u8], bytes: &[u8]) {
    if told != wanted {
        let told = str::from_utf8(told).unwrap_or("not UTF-8");
        let wanted = str::from_utf8(wanted).unwrap_or("not UTF-8");
        panic!(rt; "{told} in place of {wanted}, of {bytes:?}");
    }
}

/// Tells what `bytes` are read as: each term, or the fault.
pub fn told(alloc: Global, bytes: &[u8]) -> Result<Bytes, Fail> {
    match read(alloc, bytes) {
        Ok(terms) => told_terms(alloc, terms.as_slice()),
        Err(fault) => told_fault(alloc, fault),
    }
}

/// Reads `bytes`, of which no test has as many as the reader doesn't take.
pub fn read(alloc: Global, bytes: &[u8]) -> Result<List<Term>, AmlFault>
    ensures { IfOk result (λ terms. AreGood (views terms)) }
{
    if bytes.len() >= 1 << 32 {
        return Err(AmlFault::OutOfMemory);
    }
    decode_terms(alloc, bytes)
}

/// Tells terms, one after the other.
pub fn told_terms(alloc: Global, terms: &[Term]) -> Result<Bytes, Fail> {
    let mut told = Bytes::new(alloc);
    push_terms(&mut told, terms)?;
    Ok(told)
}
