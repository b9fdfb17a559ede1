//! Laws over the definitions, each the contract of a function that does nothing.

ghost use Rattle.std.specs.Prelude.{◌≡◌, ◌≢◌, ℕ, ◌+◌, ◌*◌, ◌<◌, ◌≤◌, ◌++◌, true, List, length, Err, IsSomeAnd};
ghost use Rattle.std.specs.List.{AllByRecursion};
ghost use Rattle.vt_outside.specs.Name.{IsName};
ghost use Rattle.cfg_directory.specs.declared.item.Item.{Item};
ghost use Rattle.cfg_directory.specs.declared.container.ImageFault.{ImageFault};
ghost use Rattle.cfg_directory.specs.declared.container.ImageFault.TheVariants.{Truncated};
ghost use Rattle.vt_bytes.specs.Numbers.{be, be_bytes};
ghost use Rattle.cfg_directory.specs.Items.{IsItems, AreDistinct, directory_of, selected, with_bytes_at};
ghost use Rattle.cfg_directory.specs.Listing.{listed_in, listed_of, entries_of};
ghost use Rattle.cfg_directory.specs.Shapes.{HaveOneShape};
ghost use Rattle.cfg_directory.specs.Restored.{AreKept, kept_of, restored};
ghost use Rattle.cfg_directory.specs.Container.{IsContainer, container_of, read_so};

/// States that bytes are a container of one list of items at most.
pub fn one_list_is_contained()
    ensures { (bytes : List ℕ) (a b : List Item) → IsContainer bytes a → IsContainer bytes b → a ≡ b }
{}

/// States that what is written is a container of the items, where each name is a file name.
pub fn written_items_are_contained()
    ensures { (items : List Item) → IsItems items → AllByRecursion (λ item. IsName item.name) items
        → IsContainer (container_of items) items }
{}

/// States that reading a container that lacks something at its end gives `Truncated`, wherever it was cut.
pub fn every_front_is_truncated()
    ensures { (items : List Item) (bytes front rest : List ℕ) → IsContainer bytes items → bytes ≡ front ++ rest → 0 < length rest
        → read_so front ≡ Err Truncated }
{}

/// States that reading bytes that begin with a fault other than `Truncated` gives this fault, whatever follows.
pub fn a_fault_stays()
    ensures { (bytes rest : List ℕ) (fault : ImageFault) → fault ≢ Truncated → read_so bytes ≡ Err fault
        → read_so (bytes ++ rest) ≡ Err fault }
{}

/// States that the directory of items, where each name is a file name, is their number and then an entry of 64 bytes for each, and
/// that the entries list the items.
pub fn a_directory_lists_its_items()
    ensures { (items : List Item) → IsItems items → AllByRecursion (λ item. IsName item.name) items
        → (length (entries_of items) ≡ 64 * length items) × (listed_in (length items) (entries_of items) ≡ listed_of items)
        × (directory_of items ≡ be_bytes 4 (length items) ++ entries_of items) × (be (be_bytes 4 (length items)) ≡ length items) }
{}

/// States that bytes that are put into a file, where they fit, leave each item's name, selector, size and mark.
pub fn writes_keep_the_shape()
    ensures { (items : List Item) (select offset : ℕ) (piece : List ℕ)
        → IsSomeAnd (selected items select) (λ item. offset + length piece ≤ length item.bytes) → AreDistinct items
        → HaveOneShape items (with_bytes_at items select offset piece) }
{}

/// States that what is kept of items restores them, and that bytes that are put into a file that may be written, where they fit, leave what
/// they are restored to.
pub fn writes_are_taken_back()
    ensures kept { (items : List Item) → AreKept items (kept_of items) × (restored items (kept_of items) ≡ items) }
    ensures write { (items : List Item) (kept : List (List ℕ)) (select offset : ℕ) (piece : List ℕ)
        → IsSomeAnd (selected items select) (λ item. offset + length piece ≤ length item.bytes)
        → IsSomeAnd (selected items select) (λ item. item.writable ≡ true) → AreDistinct items → AreKept items kept
        → AreKept (with_bytes_at items select offset piece) kept
        × (restored (with_bytes_at items select offset piece) kept ≡ restored items kept) }
{}
