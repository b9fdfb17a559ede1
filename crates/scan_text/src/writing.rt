ghost use Rattle.std.specs.Prelude.{OnOk, OnErr};
ghost use Rattle.vt_outside.specs.Stream.{Took, TookFront};

use vt_outside::{Failed, Line, Sink, write_all};

/// Writes `line` to `out`: offers it whole, so that a write that fails leaves whole lines before it. Returns `Failed` when a write
/// fails; `out` then took a part of `line` from its front.
pub(crate) fn write_line<K: Sink>(out: &mut K, line: &Line) -> Result<(), Failed>
    ensures ok { OnOk result (Took line.now.bytes (K.seen out.old) (K.seen out.new)) }
    ensures front { OnErr result (TookFront line.now.bytes (K.seen out.old) (K.seen out.new)) }
{
    write_all(out, line.as_str().as_bytes())
}
