//! Laws over the definitions, each the contract of a function that does nothing.

ghost use Rattle.std.specs.Prelude.{◌≡◌, ℕ, ◌↔◌, List, ◌++◌, length, Some, None, Result, Ok};
ghost use Rattle.vt_bytes.specs.View.{View};
ghost use Rattle.cfg_directory.specs.declared.item.Item.{Item};
ghost use Rattle.cfg_directory.specs.Items.{IsItems};
ghost use Rattle.cfg_directory.specs.Files.{files_of};
ghost use Rattle.loader_script.specs.Run.{Progress, Done, run};
ghost use Rattle.command_acts.specs.Script.{script_in};
ghost use Rattle.smbios_model.specs.declared.anchor.AnchorForm.{AnchorForm};
ghost use Rattle.smbios_model.specs.declared.smbios.Structure.{Structure};
ghost use Rattle.smbios_decode.specs.declared.fault.SmbiosFault.{SmbiosFault};
ghost use Rattle.smbios_decode.specs.Faults.{Means};
ghost use Rattle.smbios_install.specs.Commands.{added, commands_in, LeaveBoth, NameNoScript};
ghost use Rattle.smbios_install.specs.Faults.{form_in, refusal};
ghost use Rattle.smbios_install.specs.Installed.{installed};
ghost use Rattle.smbios_install.specs.Standing.{HasInstalled, HoldsPlaced, IsInstalled, ReadsBehind};

/// States that the script of the items installed is that of the items, and behind it the commands that are added.
pub fn commands_are_added_behind()
    ensures { (items : List Item) (form : AnchorForm) → IsItems items → refusal items ≡ None → form_in items ≡ Some form
        → script_in (installed items) ≡ Ok (commands_in items ++ added form) }
{}

/// States that structures stand in any memory which holds the files that the script of the items installed has placed, once its run is done
/// and where no command in front writes one of the two files.
pub fn installed_structures_stand()
    ensures { (items : List Item) (form : AnchorForm) (places : List ℕ) (end : Progress) (view : View)
        → IsItems items → refusal items ≡ None → form_in items ≡ Some form
        → run (files_of (installed items)) (commands_in items ++ added form) places ≡ (Done, end)
        → LeaveBoth (commands_in items) → HoldsPlaced view end.placed → HasInstalled view end.placed items }
{}

/// States that what is read behind an anchor which is installed, and tells the length of the structures' bytes, is what these bytes are read as.
pub fn installed_structures_are_read()
    ensures { (view : View) (place : ℕ) (bytes : List ℕ) (result : Result (List Structure) SmbiosFault) (is : IsInstalled view place bytes)
        → is.anchor.maximum_size ≡ length bytes → ReadsBehind view is.anchor is.structures result ↔ Means bytes result }
{}

/// States that the commands in front, where none names the file of the script, end as without the added ones, and leave the same files at
/// the same places.
pub fn commands_in_front_do_the_same()
    ensures { (items : List Item) (places : List ℕ) → IsItems items → refusal items ≡ None → NameNoScript (commands_in items)
        → ((run (files_of (installed items)) (commands_in items) places).0 ≡ (run (files_of items) (commands_in items) places).0)
        × ((run (files_of (installed items)) (commands_in items) places).1.placed ≡ (run (files_of items) (commands_in items) places).1.placed) }
{}
