//! Laws of linked files. Each is the contract of a function that does nothing.

ghost use Rattle.std.specs.Prelude.{◌≡◌, ℕ, ◌≤◌, List, [], ◌++◌, length};
ghost use Rattle.std.specs.List.{flat_map, AllByRecursion};
ghost use Rattle.loader_script.specs.declared.entry.Entry.{Entry};
ghost use Rattle.loader_script.specs.Spelling.{Fits};
ghost use Rattle.vt_outside.specs.File.{File};
ghost use Rattle.loader_script.specs.Run.{Placed, place_of, run, run_from};
ghost use Rattle.image_files.specs.Files.{ImageFile};
ghost use Rattle.image_files.specs.Script.{allocation, linking, script_of};
ghost use Rattle.cfg_directory.specs.Files.{files_of};
ghost use Rattle.loader_script.specs.LoaderName.{loader_name};
ghost use Rattle.image_files.specs.Items.{items_of};
ghost use Rattle.image_files.specs.Linkable.{HasNoName, AreDistinct, HasFittingPlace, AreLinkable};
ghost use Rattle.image_files.specs.Orders.{AreLinking};
ghost use Rattle.image_files.specs.Places.{ArePlaces};
ghost use Rattle.image_files.specs.Linked.{BeginsWith, AreLinked};
ghost use Rattle.image_files.specs.Room.{AreSmall, HaveRoom};

/// Says that files that are placed at lawful places and then linked, in any order that links them, stand there with their holes
/// filled: no command is refused, and what follows in the script goes on from there. The top is at most 3 GiB.
pub fn files_are_linked()
    ensures { (top : ℕ) (files : List ImageFile) (loaded : List File) (commands later : List Entry) (places : List ℕ)
        → top ≤ 0xC0000000 → AreLinkable files → AreLinking files commands → BeginsWith loaded files → ArePlaces top [] files places
        → (placed : List Placed) × AreLinked (place_of placed) files places placed
        × (run loaded (flat_map allocation files ++ commands ++ later) places
        ≡ run_from (length (flat_map allocation files ++ commands)) later (record { files = loaded; placed = placed; places = [] })) }
{}

/// Says that the commands of a script link its files.
pub fn script_links_its_files()
    ensures { (files : List ImageFile) → AreLinkable files → AreLinking files (linking files) }
{}

/// Says that the commands of a script fit their entries, where the files can be linked, their names are names, and their aligns have 32
/// bits.
pub fn scripts_fit_their_entries()
    ensures { (files : List ImageFile) (later : List Entry) → AreLinkable files → AllByRecursion HasFittingPlace files
        → AllByRecursion Fits later → AllByRecursion Fits (script_of files later) }
{}

/// Says that a run over the items of files, whose names differ and none of which is the script's, begins with these files.
pub fn items_are_the_files()
    ensures { (files : List ImageFile) (later : List Entry) → AreDistinct files → HasNoName files loader_name
        → BeginsWith (files_of (items_of files later)) files }
{}

/// Says that there is room for files that are few and small, whatever lawful places those before them were given. The top is from
/// 64 MiB to 3 GiB.
pub fn small_files_have_room()
    ensures { (top : ℕ) (files : List ImageFile) → 0x4000000 ≤ top → top ≤ 0xC0000000 → AreSmall files → HaveRoom top files }
{}
