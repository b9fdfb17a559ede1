ghost use Rattle.std.specs.Prelude.{◌≡◌};
ghost use Rattle.aml_terms.specs.Trees.{view, views};
ghost use Rattle.aml_generation.specs.Generation.{is_address, taken_of_name, taken_of_names, taken_of_device, taken_of_devices, taken_of_bus};
ghost use Rattle.aml_generation.specs.Generation.{taken_inside, taken};

use crate::address::take_address;
use aml_terms::{Path, Term};
use vt_outside::List;

/// Takes the address of the id of a machine's generation out of `terms`, and returns it, or `None` where they tell none, and are as they
/// were.
///
/// The first device `VGEN` directly in a scope `\_SB_` tells it whose first name `ADDR` is a package of two integers below 2^32: the low
/// half of the address, then the high one. In their place zeros are left. Scopes are asked in the order in which they begin, also those
/// inside others and inside devices; the devices directly in a scope come before the scopes inside it. It goes as deep as the terms nest.
#[cycle(inside)]
pub fn take_generation(terms: &mut List<Term>) -> Option<u64>
    ensures { (result, views terms.new) ≡ taken (views terms.old) }
{
    'terms: for place in 0..terms.len() {
        if let Some(address) = take_inside(terms.get_mut(place)) {
            return Some(address);
        }
    }
    None
}

// Takes it out of a term, where it is a scope or a device with terms that tell it.
#[cycle(inside)]
fn take_inside(term: &mut Term) -> Option<u64>
    ensures { (result, view term.new) ≡ taken_inside (view term.old) }
{
    match term {
        Term::Scope(path, terms) => {
            if let Some(address) = take_of_bus(path, terms) {
                return Some(address);
            }
            take_generation(terms)
        }
        Term::Device(_, terms) => take_generation(terms),
        _ => None,
    }
}

// Takes it out of the devices directly in a scope, where that is the system bus.
fn take_of_bus(path: &Path, terms: &mut List<Term>) -> Option<u64>
    ensures { (result, views terms.new) ≡ taken_of_bus path.now (views terms.old) }
{
    if path.is_system_bus() {
        take_of_devices(terms)
    } else {
        None
    }
}

// Takes it out of the first device directly among the terms that tells it.
fn take_of_devices(terms: &mut List<Term>) -> Option<u64>
    ensures { (result, views terms.new) ≡ taken_of_devices (views terms.old) }
{
    'terms: for place in 0..terms.len() {
        if let Some(address) = take_of_device(terms.get_mut(place)) {
            return Some(address);
        }
    }
    None
}

// Takes it out of a term, where it is the device that may tell it.
fn take_of_device(term: &mut Term) -> Option<u64>
    ensures { (result, view term.new) ≡ taken_of_device (view term.old) }
{
    match term {
        Term::Device(path, terms) if path.is_beside(b"VGEN") => take_of_names(terms),
        _ => None,
    }
}

// Takes it out of the first name `ADDR` among the terms of a device.
fn take_of_names(terms: &mut List<Term>) -> Option<u64>
    ensures { (result, views terms.new) ≡ taken_of_names (views terms.old) }
{
    'terms: for place in 0..terms.len() {
        if is_address(terms.get(place)) {
            return take_of_name(terms.get_mut(place));
        }
    }
    None
}

// Whether a term is a name `ADDR`.
fn is_address(term: &Term) -> bool
    ensures { result ≡ is_address (view term.now) }
{
    match term {
        Term::Named(path, _) => path.is_beside(b"ADDR"),
        _ => false,
    }
}

// Takes it out of the value of a name.
fn take_of_name(term: &mut Term) -> Option<u64>
    ensures { (result, view term.new) ≡ taken_of_name (view term.old) }
{
    match term {
        Term::Named(_, value) => take_address(value.get_mut()),
        _ => None,
    }
}
