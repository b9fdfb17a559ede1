ghost use Rattle.std.specs.Prelude.{◌≡◌, ◌+◌, ◌*◌, ◌<◌, ◌≤◌, replicate};
ghost use Rattle.vt_bytes.specs.Memory.{with_bytes};
ghost use Rattle.guest_memory.specs.Touched.{TouchesOnly};
ghost use Rattle.load_states.specs.Steps.{refilled};
ghost use Rattle.firmware_load.specs.Inside.{Nowhere};

use guest_memory::{FRAME_BYTES, GuestMemory};

// The first frame of the F segment, and how many it has: 0xF0000 to 0xFFFFF.
const FIRST_FRAME: u32 = 240;

const FRAMES: u32 = 16;

/// Puts the fill byte at each address of the F segment. No frame is touched that wasn't.
pub(crate) fn refill(memory: &mut GuestMemory)
    ensures after { memory.new.memory ≡ refilled memory.old.memory }
    ensures touches { TouchesOnly Nowhere memory.old.memory.top memory.old.touched memory.new.touched }
{
    // That a memory is lawful is said by its top's call.
    let _top = memory.top();
    let mut done = 0;
    while done < FRAMES {
        refill_frame(memory, FIRST_FRAME + done);
        done += 1;
    }
}

// Puts the fill byte into a frame of the F segment, unless it isn't touched, so that it holds nothing else.
fn refill_frame(memory: &mut GuestMemory, frame: u32)
    requires from { 240 ≤ frame }
    requires below { frame < 256 }
    ensures after { memory.new.memory ≡ with_bytes memory.old.memory (frame * 4096) (replicate 4096 memory.old.memory.fill) }
    ensures touches { TouchesOnly Nowhere memory.old.memory.top memory.old.touched memory.new.touched }
{
    // That a memory is lawful is said by its top's call.
    let _top = memory.top();
    if memory.touched(frame) {
        let fill = memory.fill();
        memory.copy_in(
            u64::from(frame) * FRAME_BYTES,
            &[fill; FRAME_BYTES as usize],
        );
    }
}
