ghost use Rattle.std.specs.Prelude.{◌<◌, ◌^◌, length, IfOk};
ghost use Rattle.vt_outside.specs.Readings.{Agrees};
ghost use Rattle.aml_terms.specs.Grammar.{Aml};
ghost use Rattle.aml_terms.specs.Trees.{views};
ghost use Rattle.aml_terms.specs.Reading.{read_terms, reported};
ghost use Rattle.aml_terms.specs.WellFormed.{AreGood};

use crate::terms::read_terms;
use aml_terms::{AmlFault, Term};
use std::alloc::Global;
use vt_outside::List;

// How many levels may nest.
const LEVELS: u8 = 16;

/// Reads the terms that `bytes`, fewer than 2^32, spell (ACPI 6.5, 20.2). The terms take their memory from `alloc`. Scopes, devices,
/// packages and buffers nest in at most 16 levels. Returns the first fault, with its place, or `OutOfMemory` when memory runs out.
#[tactic(auto, unfolding(aml_terms::specs::Grammar::levels))]
pub fn decode_terms(alloc: Global, bytes: &[u8]) -> Result<List<Term>, AmlFault>
    requires { length bytes.now < 2 ^ 32 }
    ensures exact { Agrees reported views result (read_terms bytes.now) }
    ensures spelled { IfOk result (λ terms. Aml (views terms) bytes.now) }
    ensures well_formed { IfOk result (λ terms. AreGood (views terms)) }
{
    read_terms(alloc, LEVELS, 0, bytes)
}
