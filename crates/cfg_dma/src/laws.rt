//! Laws over all devices and memories, each the contract of a function that does nothing.

ghost use Rattle.std.specs.Prelude.{◌≡◌, ℕ, ◌+◌, ◌^◌, ◌<◌, ◌≤◌, ◌⊎◌, ◌++◌, List, length, sum, Some, None, IsSome};
ghost use Rattle.vt_bytes.specs.Numbers.{be};
ghost use Rattle.vt_bytes.specs.Memory.{IsMemory, at, bytes_at, with_bytes};
ghost use Rattle.cfg_directory.specs.declared.item.Item.{Item};
ghost use Rattle.cfg_directory.specs.Items.{with_bytes_at};
ghost use Rattle.cfg_dma.specs.declared.transfer.Finished.{Finished};
ghost use Rattle.cfg_dma.specs.declared.transfer.Flight.{Flight};
ghost use Rattle.cfg_dma.specs.Device.{IsDevice};
ghost use Rattle.cfg_dma.specs.Transfers.{Attached, CanMove, room_of, left_of, move_by, finish, piece, pieces};
ghost use Rattle.cfg_dma.specs.Events.{Event, MayHappen, happens};
ghost use Rattle.cfg_dma.specs.Reads.{CanRead, AsksFor, IsMoving, IsAwaited, GoesOn, IsBesideRead, started, descriptor_bytes};
ghost use Rattle.cfg_dma.specs.Writes.{CanSkip, IsSkipped, CanWrite, IsWriting, IsWriteAwaited, selected_skip, next_write};

/// States that a transfer leaves the same, in whatever pieces it is moved: any pieces, one after the other, are one piece of as
/// many bytes.
pub fn pieces_are_one_piece()
    ensures { (a : Attached) (sizes : List ℕ) → IsDevice a.device → IsMemory a.memory → CanMove a
        → pieces sizes a ≡ piece (sum sizes) a }
{}

/// States that a transfer is over once pieces have moved all that was left of it, and that it has moved that as if at once.
pub fn transfers_end()
    ensures { (a : Attached) (flight : Flight) (sizes : List ℕ) → IsDevice a.device → IsMemory a.memory → CanMove a
        → a.device.flight ≡ Some flight → left_of flight ≤ sum sizes
        → pieces sizes a ≡ finish flight.descriptor flight.transfer (move_by flight (left_of flight) a) }
{}

/// States that a piece after which its transfer is still in flight changes no byte of memory outside of the transfer's range. So
/// it leaves the control word, but for bytes that the transfer itself moves there.
pub fn a_transfer_in_flight_keeps_to_its_range()
    ensures { (a : Attached) (flight : Flight) (bytes address : ℕ) → IsDevice a.device → IsMemory a.memory
        → a.device.flight ≡ Some flight → IsSome (piece bytes a).device.flight
        → (address < flight.transfer.address) ⊎ (flight.transfer.address + flight.transfer.length ≤ address)
        → at (piece bytes a).memory address ≡ at a.memory address }
{}

/// States what any event leaves as it was: how many transfers are over or have room, what the files were when the device began, and the top and
/// the fill byte of memory. A transfer that is in flight then has its descriptor and its range in RAM.
pub fn events_keep_the_room()
    ensures { (e : Event) (a : Attached) → IsDevice a.device → CanMove a → MayHappen e a
        → CanMove (happens e a) × (room_of (happens e a).device ≡ room_of a.device)
        × ((happens e a).device.opening ≡ a.device.opening)
        × ((happens e a).memory.top ≡ a.memory.top) × ((happens e a).memory.fill ≡ a.memory.fill) }
{}

/// States that a read that is asked for is in flight, and that memory is changed by its descriptor alone.
pub fn a_read_is_started()
    ensures { (a : Attached) (before : List Finished) (descriptor control : ℕ) (transfer : Finished) → IsDevice a.device → IsMemory a.memory
        → a.device.flight ≡ None → 0 < a.device.spare → a.device.finished ≡ before
        → CanRead a.device.items a.memory.top descriptor transfer → AsksFor control a.device transfer
        → IsMoving a.device.items before descriptor control transfer (started descriptor control transfer.length transfer.address a)
        × GoesOn a (started descriptor control transfer.length transfer.address a)
        × ((started descriptor control transfer.length transfer.address a).device.items ≡ a.device.items)
        × ((started descriptor control transfer.length transfer.address a).memory
        ≡ with_bytes a.memory descriptor (descriptor_bytes control transfer.length transfer.address)) }
{}

/// States that a read that is awaited stays so over any piece, until it is over, and that a piece changes memory in its range and its
/// descriptor alone.
pub fn a_read_moves_on()
    ensures { (a : Attached) (before : List Finished) (descriptor control bytes : ℕ) (transfer : Finished) → IsDevice a.device
        → IsMemory a.memory → CanRead a.device.items a.memory.top descriptor transfer
        → IsAwaited a.device.items before descriptor control transfer a
        → IsAwaited a.device.items before descriptor control transfer (piece bytes a) × GoesOn a (piece bytes a)
        × ((piece bytes a).device.items ≡ a.device.items)
        × ((address : ℕ) → IsBesideRead address descriptor transfer → at (piece bytes a).memory address ≡ at a.memory address) }
{}

/// States that memory shows the control word of a read until it is over. So a firmware tells by that word alone whether it is, where it has
/// written one that isn't zero.
pub fn a_read_that_moves_shows_its_control_word()
    ensures { (items : List Item) (before : List Finished) (descriptor control : ℕ) (transfer : Finished) (a : Attached) → control < 2 ^ 32
        → IsMoving items before descriptor control transfer a → be (bytes_at a.memory descriptor 4) ≡ control }
{}

/// States that a skip that is asked for is over at once: it moves the device behind so many bytes of the item, and changes memory in its
/// descriptor alone.
pub fn a_skip_is_over_at_once()
    ensures { (a : Attached) (before : List Finished) (descriptor select count : ℕ) → IsDevice a.device → IsMemory a.memory
        → a.device.flight ≡ None → 0 < a.device.spare → a.device.finished ≡ before
        → CanSkip a.device.items a.memory.top descriptor select count
        → IsSkipped before descriptor select count (started descriptor (selected_skip select) count 0 a)
        × GoesOn a (started descriptor (selected_skip select) count 0 a)
        × ((started descriptor (selected_skip select) count 0 a).device.items ≡ a.device.items)
        × ((address : ℕ) → (address < descriptor) ⊎ (descriptor + 16 ≤ address)
        → at (started descriptor (selected_skip select) count 0 a).memory address ≡ at a.memory address) }
{}

/// States that a write that is asked for, from where the device is, is in flight, and that memory is changed by its descriptor alone.
pub fn a_write_is_started()
    ensures { (a : Attached) (before : List Finished) (descriptor : ℕ) (transfer : Finished) → IsDevice a.device → IsMemory a.memory
        → a.device.flight ≡ None → 0 < a.device.spare → a.device.finished ≡ before
        → CanWrite a.device.items a.memory.top descriptor transfer → transfer.select ≡ a.device.select → transfer.offset ≡ a.device.offset
        → IsWriting a.device.items (bytes_at a.memory transfer.address transfer.length) before descriptor transfer
        (started descriptor next_write transfer.length transfer.address a)
        × GoesOn a (started descriptor next_write transfer.length transfer.address a)
        × ((started descriptor next_write transfer.length transfer.address a).memory
        ≡ with_bytes a.memory descriptor (descriptor_bytes next_write transfer.length transfer.address)) }
{}

/// States that a write that is awaited stays so over any piece, until it is over, and that a piece changes no byte of memory but those of its
/// control word.
pub fn a_write_moves_on()
    ensures { (a : Attached) (items : List Item) (bytes : List ℕ) (before : List Finished) (descriptor count : ℕ) (transfer : Finished)
        → IsDevice a.device → IsMemory a.memory → CanWrite items a.memory.top descriptor transfer
        → IsWriteAwaited items bytes before descriptor transfer a
        → IsWriteAwaited items bytes before descriptor transfer (piece count a) × GoesOn a (piece count a)
        × ((address : ℕ) → (address < descriptor) ⊎ (descriptor + 4 ≤ address) → at (piece count a).memory address ≡ at a.memory address) }
{}

/// States that memory shows the control word of a write until it is over, as it does for a read.
pub fn a_write_that_moves_shows_its_control_word()
    ensures { (items : List Item) (bytes : List ℕ) (before : List Finished) (descriptor : ℕ) (transfer : Finished) (a : Attached)
        → IsWriting items bytes before descriptor transfer a → be (bytes_at a.memory descriptor 4) ≡ next_write }
{}

/// States that bytes that are put into an item in parts, one behind the other, are put whole.
pub fn bytes_put_in_parts_are_put_whole()
    ensures { (items : List Item) (select offset : ℕ) (front rest : List ℕ)
        → with_bytes_at (with_bytes_at items select offset front) select (offset + length front) rest
        ≡ with_bytes_at items select offset (front ++ rest) }
{}
