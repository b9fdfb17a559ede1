ghost use Rattle.std.specs.Prelude.{◌≡◌, ◌≤◌, ◌+◌, length};
ghost use Rattle.aml_terms.specs.Trees.{view, views};
ghost use Rattle.aml_terms.specs.Written.{most_enclosed};
ghost use Rattle.aml_encode.specs.Measured.{MeasuredBody, MeasuredBuffer, MeasuredPackage, MeasuredTerm, Summed};
ghost use Rattle.aml_encode.specs.Measured.{capped, package_size, size_with};
ghost use Rattle.aml_encode.specs.Packages.{buffer_body};
ghost use Rattle.aml_encode.specs.Writable.{AreWritable, IsWritable};

use crate::fault::TermFault;
use crate::integer::integer_size;
use crate::length::{MOST_ENCLOSED, more_for};
use crate::path::path_size;
use aml_terms::Term;
use vt_outside::List;

// Sizes are capped at this one, which no package length encloses. A text that no package encloses may have any size.
const CAP: u32 = MOST_ENCLOSED + 1;

/// Adds the size of each body in `term` to `sizes`, in the order in which they are written, and returns the size of its spelling, capped.
/// Returns `TermTooLong` where a package length can't enclose a body, and `OutOfMemory` when memory runs out. `term` must be one that can
/// be written.
#[cycle(measures)]
#[tactic(auto, unfolding(aml_terms::specs::Written::written, aml_terms::specs::Written::IsShort))]
pub(crate) fn measure(term: &Term, sizes: &mut List<u32>) -> Result<u32, TermFault>
    requires { IsWritable (view term.now) }
    ensures { MeasuredTerm (view term.now) sizes.old sizes.new result }
{
    match term {
        Term::Int(number) => Ok(integer_size(*number)),
        Term::Fixed(_) => Ok(5),
        Term::Ones => Ok(1),
        Term::Chars(text) => Ok(sum(2, capped(text.len()))),
        Term::Buffer(content) => measure_buffer(content.as_slice(), sizes),
        Term::Package(values) => measure_package(1, 1, values.as_slice(), sizes),
        Term::Named(path, value) => Ok(sum(1 + path_size(path), measure(value.get(), sizes)?)),
        Term::Scope(path, terms) => measure_package(1, path_size(path), terms.as_slice(), sizes),
        Term::Device(path, terms) => measure_package(2, path_size(path), terms.as_slice(), sizes),
    }
}

// Measures a buffer.
fn measure_buffer(content: &[u8], sizes: &mut List<u32>) -> Result<u32, TermFault>
    ensures { MeasuredBuffer (length (buffer_body content.now)) sizes.old sizes.new result }
{
    let body = body_with(integer_size(content.len() as u64), capped(content.len()))?;
    sizes.push(body)?;
    Ok(package_size(1, body))
}

// Measures a package, which has an opcode of so many bytes, and encloses so many bytes and terms behind them.
#[cycle(measures)]
fn measure_package(
    opcode: u32,
    front: u32,
    terms: &[Term],
    sizes: &mut List<u32>,
) -> Result<u32, TermFault>
    requires few { opcode ≤ 2 }
    requires front { front ≤ most_enclosed }
    requires terms { AreWritable (views terms.now) }
    ensures { MeasuredPackage opcode (size_with front (views terms.now)) (views terms.now) sizes.old sizes.new result }
{
    // Its own size stands in front of those of the packages in it.
    let place = sizes.len();
    sizes.push(0)?;
    let body = measure_body(front, terms, sizes)?;
    sizes.set(place, body);
    Ok(package_size(opcode, body))
}

// Measures what a package encloses: so many bytes, and terms behind them.
#[cycle(measures)]
fn measure_body(front: u32, terms: &[Term], sizes: &mut List<u32>) -> Result<u32, TermFault>
    requires front { front ≤ most_enclosed }
    requires terms { AreWritable (views terms.now) }
    ensures { MeasuredBody (size_with front (views terms.now)) (views terms.now) sizes.old sizes.new result }
{
    let mut body = front;
    'terms: for term in terms {
        body = body_with(body, measure(term, sizes)?)?;
    }
    Ok(body)
}

// The size of a body of so many bytes with so many more, which are capped. Returns `TermTooLong` where no package length encloses it.
fn body_with(body: u32, more: u32) -> Result<u32, TermFault>
    requires first { body ≤ most_enclosed }
    requires second { more ≤ most_enclosed + 1 }
    ensures { Summed (body + more) result }
{
    if body + more > MOST_ENCLOSED {
        return Err(TermFault::TermTooLong);
    }
    Ok(body + more)
}

// The size of a package with an opcode and a body of so many bytes, capped.
#[tactic(auto, using(crate::proofs::Measuring::package_length_size))]
fn package_size(opcode: u32, body: u32) -> u32
    requires few { opcode ≤ 2 }
    requires body { body ≤ most_enclosed }
    ensures { result ≡ capped (package_size opcode body) }
{
    sum(opcode + (more_for(body) + 1), body)
}

// The sum of two sizes that are capped, capped.
fn sum(size: u32, more: u32) -> u32
    requires first { size ≤ most_enclosed + 1 }
    requires second { more ≤ most_enclosed + 1 }
    ensures { result ≡ capped (size + more) }
{
    capped(size as usize + more as usize)
}

// A size, capped.
fn capped(size: usize) -> u32
    ensures { result ≡ capped size }
{
    if size < CAP as usize {
        size as u32
    } else {
        CAP
    }
}
