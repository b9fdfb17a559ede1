//! Laws of what commands do. Each is the contract of a function that does nothing.

ghost use Rattle.std.specs.Prelude.{◌≡◌, ℕ, List, Some};
ghost use Rattle.vt_bytes.specs.Parts.{put_at};
ghost use Rattle.cfg_directory.specs.declared.item.Item.{Item};
ghost use Rattle.cfg_directory.specs.Items.{AreDistinct, named, with_bytes_at};
ghost use Rattle.cfg_directory.specs.Files.{files_of};
ghost use Rattle.loader_script.specs.Run.{bytes_of, files_with};

/// States that bytes that are put into an item by its selector, as a device does, are put into the file of its name, as the run of a script
/// does.
pub fn bytes_put_by_selector_are_put_by_name()
    ensures { (items : List Item) (name : List ℕ) (item : Item) (offset : ℕ) (piece : List ℕ) → AreDistinct items
        → named items name ≡ Some item
        → files_of (with_bytes_at items item.select offset piece)
        ≡ files_with (files_of items) name (put_at (bytes_of (files_of items) name) offset piece) }
{}
