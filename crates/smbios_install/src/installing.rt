//! The items of a device with the files of SMBIOS structures installed.

ghost use Rattle.std.specs.Prelude.{◌≡◌, ◌<◌, ◌≤◌, ◌+◌, length, Some, None, Err, IfOk, OnOk};
ghost use Rattle.std.specs.Option.{option_map};
ghost use Rattle.cfg_directory.specs.Items.{IsItems, bytes_limit, file_limit, named, total_size};
ghost use Rattle.loader_script.specs.LoaderName.{loader_name};
ghost use Rattle.smbios_install.specs.declared.fault.InstallFault.TheVariants.{OutOfMemory as NoMemory};
ghost use Rattle.smbios_install.specs.Faults.{form_in, refusal, OrNoMemory};
ghost use Rattle.smbios_install.specs.Installed.{install_so, installed_as, with_blank_pointer, with_commands};

use crate::anchor::{pointer_place, pointer_size};
use crate::checking::form_to_install;
use crate::commands::added_bytes;
use crate::fault::InstallFault;
use crate::selecting::next_select;
use cfg_directory::{Items, anchor_name};
use loader_script::loader_name;
use smbios_model::AnchorForm;
use std::alloc::Global;
use vt_outside::{Bytes, OutOfMemory};

/// Returns `items` with the address in the anchor of SMBIOS structures blanked, and with the commands that install structures and anchor
/// behind those of the script, the file `etc/table-loader`. Where there is no such file one is added last, which a guest can't write; its selector
/// is one above the greatest, or where that is above 0x3FFF the least free one from 0x20 on. No contents are copied; new memory comes
/// from `alloc`.
///
/// The errors are those of [`InstallFault`], the first that applies. `OutOfMemory` comes only where none of the others does.
pub fn install(alloc: Global, items: Items) -> Result<Items, InstallFault>
    ensures exact { OrNoMemory result (install_so items) }
    ensures no_memory { result ≡ Err NoMemory → refusal items ≡ None }
{
    let form = form_to_install(&items)?;
    Ok(install_as(alloc, form, items)?)
}

/// Does the same with a copy of `items`, which stay as they are.
pub fn with_install(alloc: Global, items: &Items) -> Result<Items, InstallFault>
    ensures exact { OrNoMemory result (install_so items.now) }
    ensures no_memory { result ≡ Err NoMemory → refusal items.now ≡ None }
{
    let form = form_to_install(items)?;
    let copy = items.copy(alloc)?;
    Ok(install_as(alloc, form, copy)?)
}

// The items installed, against which there is no reason, and whose anchor has this form.
fn install_as(alloc: Global, form: AnchorForm, items: Items) -> Result<Items, OutOfMemory>
    requires sound { refusal items ≡ None }
    requires form { form_in items ≡ Some form }
    ensures { IfOk result (λ now. now ≡ installed_as form items) }
{
    let mut items = items;
    let commands = added_bytes(alloc, form)?;
    blank_pointer(&mut items, form);
    add_commands(&mut items, commands)?;
    Ok(items)
}

// Puts zeros where the anchor, of this form, has the address of the structures.
fn blank_pointer(items: &mut Items, form: AnchorForm)
    requires lawful { IsItems items.old }
    requires form { form_in items.old ≡ Some form }
    ensures { items.new ≡ with_blank_pointer form items.old }
{
    if let Some(anchor) = items.find(&anchor_name()) {
        let select = anchor.select;
        let zeros = [0; 8];
        items.write_at(
            select,
            pointer_place(form),
            &zeros[..pointer_size(form) as usize],
        );
    }
}

// Adds commands behind those of the script, or with a script of their own.
fn add_commands(items: &mut Items, commands: Bytes) -> Result<(), OutOfMemory>
    requires some { 0 < length items.old }
    requires few { named items.old loader_name ≡ None → length items.old < file_limit }
    requires small { total_size items.old + length commands ≤ bytes_limit }
    ensures { OnOk result (items.new ≡ with_commands commands items.old) }
{
    match script_select(items) {
        Some(select) => items.extend(select, commands.as_slice()),
        None => {
            let select = next_select(items.all());
            items.add_at(loader_name(), select, false, commands)
        }
    }
}

// The selector of the script, where there is one.
fn script_select(items: &Items) -> Option<u16>
    ensures { result ≡ option_map (λ item. item.select) (named items.now loader_name) }
{
    match items.find(&loader_name()) {
        Some(script) => Some(script.select),
        None => None,
    }
}
