ghost use Rattle.std.specs.Prelude.{◌≡◌, ◌+◌, ◌≤◌, ◌<◌, ◌++◌, length, replicate, OnOk, OnErr};
ghost use Rattle.aml_terms.specs.Paths.{IsGoodPath, beginning, joined};
ghost use Rattle.aml_terms.specs.Written.{path_bytes, segment_bytes};
ghost use Rattle.aml_encode.specs.Appended.{Begins};

use aml_terms::Path;
use vt_outside::{Bytes, OutOfMemory};

/// Returns how many bytes the spelling of `path` has, which must be one that can be written.
pub(crate) fn path_size(path: &Path) -> u32
    requires { IsGoodPath path.now }
    ensures size { result ≡ length (path_bytes path.now) }
    ensures few { result ≤ 1277 }
{
    let segments = path.segments.as_slice();
    beginning_size(path) + lead_size(segments) + 4 * segments.len() as u32
}

// The size of a path's beginning.
fn beginning_size(path: &Path) -> u32
    ensures size { result ≡ length (beginning path.now) }
    ensures few { result ≤ 255 }
{
    if path.root {
        1
    } else {
        u32::from(path.parents)
    }
}

// The size of what stands in front of a path's segments.
fn lead_size(segments: &[[u8; 4]]) -> u32
    ensures size { result + length (joined segments.now) ≡ length (segment_bytes segments.now) }
    ensures few { result ≤ 2 }
{
    match segments.len() {
        1 => 0,
        2 => 1,
        _ => 2,
    }
}

/// Appends the spelling of `path`, which must be one that can be written, to `into`.
pub(crate) fn put_path(path: &Path, into: &mut Bytes) -> Result<(), OutOfMemory>
    requires { IsGoodPath path.now }
    ensures ok { OnOk result (into.new ≡ into.old ++ path_bytes path.now) }
    ensures kept { Begins into.old into.new }
{
    put_beginning(path, into)?;
    put_lead(path.segments.as_slice(), into)?;
    put_joined(path.segments.as_slice(), into)
}

// Appends where a path begins.
fn put_beginning(path: &Path, into: &mut Bytes) -> Result<(), OutOfMemory>
    ensures ok { OnOk result (into.new ≡ into.old ++ beginning path.now) }
    ensures kept { Begins into.old into.new }
{
    if path.root {
        return into.push(0x5C);
    }
    'levels: for _level in 0..path.parents {
        into.push(0x5E)?;
    }
    Ok(())
}

// Appends what stands in front of a path's segments.
fn put_lead(segments: &[[u8; 4]], into: &mut Bytes) -> Result<(), OutOfMemory>
    requires { length segments.now < 256 }
    ensures ok { OnOk result (into.new ++ joined segments.now ≡ into.old ++ segment_bytes segments.now) }
    ensures kept { Begins into.old into.new }
{
    match segments.len() {
        1 => Ok(()),
        2 => into.push(0x2E),
        count => into.extend(&[0x2F, count as u8]),
    }
}

// Appends segments, one after the other.
fn put_joined(segments: &[[u8; 4]], into: &mut Bytes) -> Result<(), OutOfMemory>
    ensures ok { OnOk result (into.new ≡ into.old ++ joined segments.now) }
    ensures kept { Begins into.old into.new }
{
    'segments: for segment in segments {
        into.extend(segment)?;
    }
    Ok(())
}
