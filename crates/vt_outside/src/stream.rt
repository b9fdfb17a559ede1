ghost use Rattle.std.specs.Prelude.{◌≡◌, ℕ, ◌<◌, ◌≤◌, [], true, length, take, Ok, IfOk, IfSome, OnOk, OnErr};
ghost use Rattle.vt_outside.specs.Stream.{SourceSeen, SinkSeen, in_front, ReadFailed, WriteFailed, Took, IsFlushed};

use crate::fault::Failed;

/// Where bytes come from.
pub trait Source {
    // The bytes that are left, where the source tells them; whether a read has found that none is; and how many reads were answered with
    // Failed. A count that is kept in a u64 stays at its last value.
    ghost seen: { Self → SourceSeen };

    /// Reads the next bytes into the front of `into`, which must have at least one byte, and returns how many. They may be
    /// fewer than `into` has room for. 0 means that none is left; the source has ended then, and gives 0 from then on.
    ///
    /// On `Failed` no byte was read: what was left is still left. The fault is counted, where the count isn't full. What `into`
    /// holds then isn't said.
    fn read(&mut self, into: &mut [u8]) -> Result<usize, Failed>
        requires { 0 < length into.old }
        ensures given { IfOk result (λ n. (seen self.old).left ≡ in_front (take n into.new) (seen self.new).left) }
        ensures fits { IfOk result (λ n. n ≤ length into.new) }
        ensures none_left { IfOk result (λ n. n ≡ 0 → IfSome (seen self.old).left (λ bytes. bytes ≡ [])) }
        ensures sound { OnOk result ((seen self.new).faults ≡ (seen self.old).faults) }
        ensures failed { OnErr result (ReadFailed (seen self.old) (seen self.new)) }
        ensures never_falls { (seen self.old).faults ≤ (seen self.new).faults }

        // A read that gives nothing ends it, and behind its end it is as it is.
        ensures ends { IfOk result (λ n. n ≡ 0 → (seen self.new).ended ≡ true) }
        ensures ended { (seen self.old).ended ≡ true → (result ≡ Ok 0) × (seen self.new ≡ seen self.old) };
}

/// Where bytes go to.
pub trait Sink {
    // What the sink tells of the bytes that were taken; how many of them are flushed; and how many writes and flushes were answered with
    // Failed. A count that is kept in a u64 stays at its last value.
    ghost seen: { Self → SinkSeen };

    /// Takes bytes from the front of `piece`, which must have at least one, and returns how many: at least one, and maybe not
    /// all. They aren't flushed yet.
    ///
    /// On `Failed` no byte was taken. The fault is counted, where the count isn't full.
    fn write(&mut self, piece: &[u8]) -> Result<usize, Failed>
        requires { 0 < length piece.now }
        ensures took { IfOk result (λ n. Took (take n piece.now) (seen self.old) (seen self.new)) }
        ensures some { IfOk result (λ n. 0 < n) }
        ensures fits { IfOk result (λ n. n ≤ length piece.now) }
        ensures failed { OnErr result (WriteFailed (seen self.old) (seen self.new)) }
        ensures never_falls { (seen self.old).faults ≤ (seen self.new).faults };

    /// Hands on all bytes that were taken, so that all of them are flushed.
    ///
    /// On `Failed` the bytes taken and the number of those flushed are what they were. The fault is counted, where the count
    /// isn't full.
    fn flush(&mut self) -> Result<(), Failed>
        ensures all { OnOk result (IsFlushed (seen self.new)) }
        ensures kept { OnOk result (seen self.new ≡ record (seen self.old) { flushed = (seen self.new).flushed }) }
        ensures failed { OnErr result (WriteFailed (seen self.old) (seen self.new)) }
        ensures never_falls { (seen self.old).faults ≤ (seen self.new).faults };
}
