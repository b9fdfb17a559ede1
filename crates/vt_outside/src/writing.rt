ghost use Rattle.std.specs.Prelude.{OnOk, OnErr};
ghost use Rattle.vt_outside.specs.Stream.{Took, TookFront};

use crate::fault::Failed;
use crate::stream::Sink;

/// Writes `text` to `out`: offers it whole, and then what is left of it until all is taken. It doesn't flush `out`. Returns
/// `Failed` when a write fails; `out` then took a part of `text` from its front.
pub fn write_all<K: Sink>(out: &mut K, text: &[u8]) -> Result<(), Failed>
    ensures ok { OnOk result (Took text.now (K.seen out.old) (K.seen out.new)) }
    ensures front { OnErr result (TookFront text.now (K.seen out.old) (K.seen out.new)) }
{
    let mut rest = text;
    while !rest.is_empty() {
        let count = out.write(rest)?;
        rest = &rest[count..];
    }
    Ok(())
}
