ghost use Rattle.std.specs.Prelude.{◌≡◌, ◌≢◌, ◌<◌, ◌≤◌, ◌↔◌, [], true, length, take, Err, IfErr, IfOk, OnErr, OnOk, IfSome};
ghost use Rattle.vt_outside.specs.Stream.{ReadFailed, Rose, in_front};
ghost use Rattle.cfg_directory.specs.Fed.{judged};
ghost use Rattle.vmtables.specs.Given.{WasGiven};
ghost use Rattle.vmtables.specs.Outcome.{input_limit, given_count};

use crate::taker::Taker;
use cfg_directory::ImageReader;
use std::alloc::Global;
use vt_outside::{Bytes, Failed, OutOfMemory, Source};

/// How many bytes an input may have.
const INPUT_LIMIT: usize = 67_108_864;

// How many bytes are asked for at a time.
const PIECE: usize = 65_536;

/// Why an input wasn't read to its end.
#[derive(Clone, Copy, Debug, PartialEq, Eq)]
pub(crate) enum InputFault {
    /// The source failed.
    Failed,
    /// The source gave more bytes than an input may have.
    TooLong,
    /// Memory ran out.
    OutOfMemory,
}

impl From<OutOfMemory> for InputFault {
    ghost use Rattle.std.specs.Prelude.{◌≡◌};
    ghost use Rattle.vmtables.specs.declared.input.InputFault.TheVariants.{OutOfMemory};

    ghost from_gives = { λ _ fault. fault ≡ OutOfMemory };

    fn from(_fault: OutOfMemory) -> InputFault {
        InputFault::OutOfMemory
    }
}

/// Reads `source` to its end, and returns its bytes, at most 67,108,864, in order. It takes memory from `alloc` for the bytes
/// that were read, as they come, and for a buffer of 65,536 bytes. Returns `Failed` when a read fails, `TooLong` when `source`
/// gives more bytes, and `OutOfMemory` when memory runs out. After an error the bytes that were read are lost.
pub(crate) fn read_to_end<S: Source>(alloc: Global, source: &mut S) -> Result<Bytes, InputFault>
    ensures given { IfOk result (λ bytes. (S.seen source.old).left ≡ in_front bytes (S.seen source.new).left) }
    ensures end { OnOk result (IfSome (S.seen source.new).left (λ rest. rest ≡ [])) }
    ensures ended { OnOk result ((S.seen source.new).ended ≡ true) }
    ensures within { IfOk result (λ bytes. length bytes ≤ input_limit) }

    ensures failed { result ≡ Err InputFault.Failed → Rose (S.seen source.old).faults (S.seen source.new).faults }
    ensures too_long { IfSome (S.seen source.old).left (λ _.
        (result ≡ Err InputFault.TooLong) ↔ (input_limit < given_count (S.seen source.old).left (S.seen source.new).left)) }
    ensures sound { result ≢ Err InputFault.Failed → (S.seen source.new).faults ≡ (S.seen source.old).faults }
{
    let mut bytes = Bytes::new(alloc);
    match read_into(alloc, source, &mut bytes) {
        Ok(()) => Ok(bytes),
        Err(fault) => Err(fault),
    }
}

/// Reads `source` to its end as a container, piece by piece, and returns the reader that was fed its bytes, at most 67,108,864. A fault of the
/// container ends no reading: the reader tells it in the end. It takes memory from `alloc` for the files, each once, and for a buffer of
/// 65,536 bytes. Returns what `read_to_end` does where the reading fails.
pub(crate) fn read_container<S: Source>(
    alloc: Global,
    source: &mut S,
) -> Result<ImageReader, InputFault>
    ensures given { IfOk result (λ reader. WasGiven (λ bytes. reader ≡ judged bytes) (S.seen source.old) (S.seen source.new)) }
    ensures failed { result ≡ Err InputFault.Failed → Rose (S.seen source.old).faults (S.seen source.new).faults }
    ensures too_long { IfSome (S.seen source.old).left (λ _.
        (result ≡ Err InputFault.TooLong) ↔ (input_limit < given_count (S.seen source.old).left (S.seen source.new).left)) }
    ensures sound { result ≢ Err InputFault.Failed → (S.seen source.new).faults ≡ (S.seen source.old).faults }
{
    let mut reader = ImageReader::new(alloc);
    match read_into(alloc, source, &mut reader) {
        Ok(()) => Ok(reader),
        Err(fault) => Err(fault),
    }
}

// Reads a source to its end into what takes its bytes, and was given none yet.
fn read_into<S: Source, T: Taker>(
    alloc: Global,
    source: &mut S,
    taker: &mut T,
) -> Result<(), InputFault>
    requires { T.took taker.old [] }
    ensures given { OnOk result (WasGiven (T.took taker.new) (S.seen source.old) (S.seen source.new)) }
    ensures failed { result ≡ Err InputFault.Failed → Rose (S.seen source.old).faults (S.seen source.new).faults }
    ensures too_long { IfSome (S.seen source.old).left (λ _.
        (result ≡ Err InputFault.TooLong) ↔ (input_limit < given_count (S.seen source.old).left (S.seen source.new).left)) }
    ensures sound { result ≢ Err InputFault.Failed → (S.seen source.new).faults ≡ (S.seen source.old).faults }
{
    let mut len = 0;
    let mut piece = buffer(alloc, PIECE)?;
    loop {
        let count = read_piece(source, &mut piece)?;
        if count == 0 {
            return Ok(());
        }
        if count > INPUT_LIMIT - len {
            return Err(InputFault::TooLong);
        }
        taker.take(&piece[..count])?;
        len += count;
    }
}

// Reads the next bytes of `source` into the front of `piece`, and returns how many.
fn read_piece<S: Source>(source: &mut S, piece: &mut [u8]) -> Result<usize, InputFault>
    requires { 0 < length piece.old }
    ensures given { IfOk result (λ n. (S.seen source.old).left ≡ in_front (take n piece.new) (S.seen source.new).left) }
    ensures fits { IfOk result (λ n. n ≤ length piece.new) }
    ensures none_left { IfOk result (λ n. n ≡ 0 → IfSome (S.seen source.old).left (λ bytes. bytes ≡ [])) }
    ensures ends { IfOk result (λ n. n ≡ 0 → (S.seen source.new).ended ≡ true) }
    ensures fault { IfErr result (λ fault. fault ≡ InputFault.Failed) }
    ensures failed { OnErr result (ReadFailed (S.seen source.old) (S.seen source.new)) }
    ensures sound { OnOk result ((S.seen source.new).faults ≡ (S.seen source.old).faults) }
{
    match source.read(piece) {
        Ok(count) => Ok(count),
        Err(Failed) => Err(InputFault::Failed),
    }
}

fn buffer(alloc: Global, len: usize) -> Result<Vec<u8>, OutOfMemory>
    ensures { IfOk result (λ buffer. length buffer.items ≡ len) }
{
    Ok(vec![in alloc; 0; len]?)
}
