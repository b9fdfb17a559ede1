//! Laws over all memories, each the contract of a function that does nothing.

ghost use Rattle.std.specs.Prelude.{◌≡◌, ℕ, ◌+◌, ◌<◌, ◌≤◌, ◌⊎◌, List, [], ◌++◌, length};
ghost use Rattle.vt_bytes.specs.Memory.{Memory, IsMemory, IsRamRange, ShowTheSame, at, bytes_at, with_bytes};

/// States that two memories whose tops, fill bytes and bytes at RAM addresses agree are equal.
pub fn memories_that_show_the_same_are_equal()
    ensures { (m other : Memory) → IsMemory m → IsMemory other → ShowTheSame m other → m ≡ other }
{}

/// States that a lawful memory with any bytes at any address is a lawful memory.
pub fn memories_with_bytes_are_lawful()
    ensures { (m : Memory) (address : ℕ) (bytes : List ℕ) → IsMemory m → IsMemory (with_bytes m address bytes) }
{}

/// States that bytes that are put at RAM addresses are there.
pub fn bytes_are_where_they_were_put()
    ensures { (m : Memory) (address : ℕ) (bytes : List ℕ) → IsMemory m → IsRamRange m.top address (length bytes)
        → bytes_at (with_bytes m address bytes) address (length bytes) ≡ bytes }
{}

/// States that each byte before or behind those that were put is what it was.
pub fn other_bytes_stay()
    ensures { (m : Memory) (address : ℕ) (bytes : List ℕ) (a : ℕ) → IsMemory m → (a < address) ⊎ (address + length bytes ≤ a)
        → at (with_bytes m address bytes) a ≡ at m a }
{}

/// States that two runs of bytes that are put one behind the other are put as one.
pub fn runs_of_bytes_are_one_run()
    ensures { (m : Memory) (address : ℕ) (front back : List ℕ) → IsMemory m → IsRamRange m.top address (length (front ++ back))
        → with_bytes (with_bytes m address front) (address + length front) back ≡ with_bytes m address (front ++ back) }
{}

/// States that no bytes, put at any address, change nothing.
pub fn no_bytes_change_nothing()
    ensures { (m : Memory) (address : ℕ) → with_bytes m address [] ≡ m }
{}
