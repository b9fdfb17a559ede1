//! What stands on the system bus, and with a name among terms.

ghost use Rattle.std.specs.Prelude.{◌≡◌, map, option_map};
ghost use Rattle.aml_terms.specs.Trees.{view};
ghost use Rattle.dsdt_devices.specs.BusTerms.{in_bus, bus_terms, first_told, in_device, value_in};

use aml_terms::Term;

// What stands in the first device of a name directly in a scope of the system bus at the top.
pub(crate) fn first_device<'a>(terms: &'a [Term], name: &[u8; 4]) -> Option<&'a [Term]>
    ensures { option_map (λ inside. map view inside.now) result ≡ first_told (in_device name.now) (bus_terms (map view terms.now)) }
{
    for term in terms {
        if let Some(inside) = device_in(bus_of(term), name) {
            return Some(inside);
        }
    }
    None
}

// The terms directly in a term, where it is a scope of the system bus.
pub(crate) fn bus_of(term: &Term) -> &[Term]
    ensures { map view result.now ≡ in_bus (view term.now) }
{
    match term {
        Term::Scope(path, inside) if path.is_system_bus() => inside.as_slice(),
        _ => &[],
    }
}

// What stands in the first device of a name.
fn device_in<'a>(terms: &'a [Term], name: &[u8; 4]) -> Option<&'a [Term]>
    ensures { option_map (λ inside. map view inside.now) result ≡ first_told (in_device name.now) (map view terms.now) }
{
    for term in terms {
        if let Some(inside) = in_device(term, name) {
            return Some(inside);
        }
    }
    None
}

// What stands in a term, where it is a device of this name.
fn in_device<'a>(term: &'a Term, name: &[u8; 4]) -> Option<&'a [Term]>
    ensures { option_map (λ inside. map view inside.now) result ≡ in_device name.now (view term.now) }
{
    match term {
        Term::Device(path, inside) if path.is_beside(name) => Some(inside.as_slice()),
        _ => None,
    }
}

// The first value of a name.
pub(crate) fn first_value<'a>(terms: &'a [Term], name: &[u8; 4]) -> Option<&'a Term>
    ensures { option_map (λ value. view value.now) result ≡ first_told (value_in name.now) (map view terms.now) }
{
    for term in terms {
        if let Some(value) = value_in(term, name) {
            return Some(value);
        }
    }
    None
}

// The value of a term, where it is one of this name.
fn value_in<'a>(term: &'a Term, name: &[u8; 4]) -> Option<&'a Term>
    ensures { option_map (λ value. view value.now) result ≡ value_in name.now (view term.now) }
{
    match term {
        Term::Named(path, value) if path.is_beside(name) => Some(value.get()),
        _ => None,
    }
}
