ghost use Rattle.std.specs.Prelude.{◌≡◌, ◌≤◌, ◌∷◌, [], ◌++◌, length, OnOk};
ghost use Rattle.aml_terms.specs.Paths.{IsGoodPath};
ghost use Rattle.aml_terms.specs.Trees.{named, pack, view, views};
ghost use Rattle.aml_terms.specs.Written.{AreShort, IsShort, all_spelled, most_enclosed, package_length, spelled};
ghost use Rattle.aml_encode.specs.Appended.{Begins};
ghost use Rattle.aml_encode.specs.Bodies.{all_bodies, bodies};
ghost use Rattle.aml_encode.specs.Measured.{IsShortBody};
ghost use Rattle.aml_encode.specs.Packages.{buffer_body, package_of, terms_body};
ghost use Rattle.aml_encode.specs.Writable.{AreWritable, IsWritable};

use crate::integer::{put_dword, put_integer};
use crate::length::pkg_length;
use crate::path::put_path;
use crate::sizes::Sizes;
use aml_terms::{Path, Term};
use vt_outside::{Bytes, OutOfMemory};

/// Appends the spelling of `term`, which must be one that can be written and whose packages are short, to `into`. `sizes` begins with the
/// size of each body in it, in the order in which they are written, and these are taken. When memory runs out, `into` may have a part of
/// the spelling behind what it had.
#[cycle(writes)]
#[tactic(auto, unfolding(aml_terms::specs::Written::written, aml_terms::specs::Written::IsShort))]
pub(crate) fn write(term: &Term, sizes: &mut Sizes, into: &mut Bytes) -> Result<(), OutOfMemory>
    requires writable { IsWritable (view term.now) }
    requires short { IsShort (view term.now) }
    requires sizes { Begins (bodies (view term.now)) sizes.old }
    ensures wrote { OnOk result (into.new ≡ into.old ++ spelled (view term.now)) }
    ensures taken { OnOk result (sizes.old ≡ bodies (view term.now) ++ sizes.new) }
    ensures kept { Begins into.old into.new }
{
    match term {
        Term::Int(number) => put_integer(*number, into),
        Term::Fixed(number) => put_dword(*number, into),
        Term::Ones => into.push(0xFF),
        Term::Chars(text) => put_chars(text.as_slice(), into),
        Term::Buffer(content) => put_buffer(content.as_slice(), sizes.take(), into),
        Term::Package(values) => write_package(values.as_slice(), sizes, into),
        Term::Named(path, value) => write_named(path, value.get(), sizes, into),
        Term::Scope(path, terms) => write_scope(&[0x10], path, terms.as_slice(), sizes, into),
        Term::Device(path, terms) => write_scope(
            &[0x5B, 0x82],
            path,
            terms.as_slice(),
            sizes,
            into,
        ),
    }
}

// Appends a text and its NUL.
fn put_chars(text: &[u8], into: &mut Bytes) -> Result<(), OutOfMemory>
    ensures wrote { OnOk result (into.new ≡ into.old ++ (0x0D ∷ (text.now ++ 0 ∷ []))) }
    ensures kept { Begins into.old into.new }
{
    into.push(0x0D)?;
    into.extend(text)?;
    into.push(0)
}

// Appends a buffer, whose body has so many bytes.
fn put_buffer(content: &[u8], body: u32, into: &mut Bytes) -> Result<(), OutOfMemory>
    requires told { body ≡ length (buffer_body content.now) }
    requires short { body ≤ most_enclosed }
    ensures wrote { OnOk result (into.new ≡ into.old ++ package_of (0x11 ∷ []) (buffer_body content.now)) }
    ensures kept { Begins into.old into.new }
{
    put_head(&[0x11], body, into)?;
    put_integer(content.len() as u64, into)?;
    into.extend(content)
}

// Appends an opcode, and the length of a body of so many bytes.
fn put_head(opcode: &[u8], body: u32, into: &mut Bytes) -> Result<(), OutOfMemory>
    requires { body ≤ most_enclosed }
    ensures wrote { OnOk result (into.new ≡ into.old ++ (opcode.now ++ package_length body)) }
    ensures kept { Begins into.old into.new }
{
    let length = pkg_length(body);
    into.extend(opcode)?;
    into.extend(&length.bytes[..usize::from(length.len)])
}

// Appends a package of values.
#[cycle(writes)]
#[tactic(auto, using(crate::proofs::Writing::count_views), unfolding(aml_terms::specs::Written::written, aml_terms::specs::Written::IsShort))]
fn write_package(values: &[Term], sizes: &mut Sizes, into: &mut Bytes) -> Result<(), OutOfMemory>
    requires writable { IsWritable (pack (views values.now)) }
    requires short { IsShort (pack (views values.now)) }
    requires sizes { Begins (bodies (pack (views values.now))) sizes.old }
    ensures wrote { OnOk result (into.new ≡ into.old ++ spelled (pack (views values.now))) }
    ensures taken { OnOk result (sizes.old ≡ bodies (pack (views values.now)) ++ sizes.new) }
    ensures kept { Begins into.old into.new }
{
    put_head(&[0x12], sizes.take(), into)?;
    into.push(values.len() as u8)?;
    write_all(values, sizes, into)
}

// Appends a name and its value.
#[cycle(writes)]
#[tactic(auto, unfolding(aml_terms::specs::Written::written, aml_terms::specs::Written::IsShort))]
fn write_named(
    path: &Path,
    value: &Term,
    sizes: &mut Sizes,
    into: &mut Bytes,
) -> Result<(), OutOfMemory>
    requires writable { IsWritable (named path.now (view value.now)) }
    requires short { IsShort (named path.now (view value.now)) }
    requires sizes { Begins (bodies (named path.now (view value.now))) sizes.old }
    ensures wrote { OnOk result (into.new ≡ into.old ++ spelled (named path.now (view value.now))) }
    ensures taken { OnOk result (sizes.old ≡ bodies (named path.now (view value.now)) ++ sizes.new) }
    ensures kept { Begins into.old into.new }
{
    into.push(0x08)?;
    put_path(path, into)?;
    write(value, sizes, into)
}

// Appends a scope or a device, behind whose opcode stand a length, a path and terms.
#[cycle(writes)]
fn write_scope(
    opcode: &[u8],
    path: &Path,
    terms: &[Term],
    sizes: &mut Sizes,
    into: &mut Bytes,
) -> Result<(), OutOfMemory>
    requires path { IsGoodPath path.now }
    requires writable { AreWritable (views terms.now) }
    requires short { IsShortBody (length (terms_body path.now (views terms.now))) (views terms.now) }
    requires sizes { Begins (length (terms_body path.now (views terms.now)) ∷ all_bodies (views terms.now)) sizes.old }
    ensures wrote { OnOk result (into.new ≡ into.old ++ package_of opcode.now (terms_body path.now (views terms.now))) }
    ensures taken { OnOk result (sizes.old ≡ length (terms_body path.now (views terms.now)) ∷ (all_bodies (views terms.now) ++ sizes.new)) }
    ensures kept { Begins into.old into.new }
{
    put_head(opcode, sizes.take(), into)?;
    put_path(path, into)?;
    write_all(terms, sizes, into)
}

// Appends terms, one after the other.
#[cycle(writes)]
fn write_all(terms: &[Term], sizes: &mut Sizes, into: &mut Bytes) -> Result<(), OutOfMemory>
    requires writable { AreWritable (views terms.now) }
    requires short { AreShort (views terms.now) }
    requires sizes { Begins (all_bodies (views terms.now)) sizes.old }
    ensures wrote { OnOk result (into.new ≡ into.old ++ all_spelled (views terms.now)) }
    ensures taken { OnOk result (sizes.old ≡ all_bodies (views terms.now) ++ sizes.new) }
    ensures kept { Begins into.old into.new }
{
    'terms: for term in terms {
        write(term, sizes, into)?;
    }
    Ok(())
}
