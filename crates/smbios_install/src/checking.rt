//! The reasons against installing files, tested in their order.

ghost use Rattle.std.specs.Prelude.{◌≡◌, suc, ◌≤◌, not, ◌&&◌, nat_lt, Some, None, length, IfOk, IfErr, OnOk};
ghost use Rattle.cfg_directory.specs.Items.{bytes_limit, file_limit, total_size};
ghost use Rattle.loader_script.specs.LoaderName.{loader_name};
ghost use Rattle.smbios_install.specs.Faults.{files_refusal, form_in, is_there, limits_refusal, refusal, script_refusal};
ghost use Rattle.smbios_install.specs.Commands.{added_bytes, bytes_of};

use crate::anchor::form_of;
use crate::commands::placing;
use crate::fault::InstallFault;
use cfg_directory::{Item, Items, anchor_name, structures_name};
use loader_script::{ENTRY_BYTES, LONGEST_SCRIPT, loader_name};
use smbios_model::AnchorForm;

// How many files there may be, and how many bytes they may have.
const FILE_LIMIT: usize = 1024;

const BYTES_LIMIT: usize = 67_108_864;

/// Returns the form of the anchor of `items`, or the first reason against installing their files. It takes no memory.
pub(crate) fn form_to_install(items: &Items) -> Result<AnchorForm, InstallFault>
    ensures ok { IfOk result (λ form. (refusal items.now ≡ None) × (form_in items.now ≡ Some form)) }
    ensures err { IfErr result (λ fault. refusal items.now ≡ Some fault) }
{
    let form = anchor_form(items)?;
    check_script(items)?;
    check_limits(items, form)?;
    Ok(form)
}

// The form of the anchor, where both files are there and the structures have bytes.
fn anchor_form(items: &Items) -> Result<AnchorForm, InstallFault>
    ensures ok { IfOk result (λ form. (files_refusal items.now ≡ None) × (form_in items.now ≡ Some form)) }
    ensures err { IfErr result (λ fault. files_refusal items.now ≡ Some fault) }
{
    let Some(anchor) = items.find(&anchor_name()) else {
        return Err(InstallFault::NoAnchor);
    };
    let Some(structures) = items.find(&structures_name()) else {
        return Err(InstallFault::NoTables);
    };
    if structures.bytes.len() == 0 {
        return Err(InstallFault::EmptyTables);
    }
    match form_of(anchor.bytes.as_slice()) {
        Some(form) => Ok(form),
        None => Err(InstallFault::BadAnchor),
    }
}

// Whether the script has a script's length, and no command takes a place for one of the two files.
fn check_script(items: &Items) -> Result<(), InstallFault>
    ensures ok { OnOk result (script_refusal items.now ≡ None) }
    ensures err { IfErr result (λ fault. script_refusal items.now ≡ Some fault) }
{
    let script = script_bytes(items);
    if script.len() % ENTRY_BYTES != 0 || script.len() > LONGEST_SCRIPT {
        return Err(InstallFault::ScriptLength);
    }
    match placing(script) {
        Some(command) => Err(InstallFault::AlreadyPlaced { command }),
        None => Ok(()),
    }
}

// Whether the script, the number of files and their bytes stay within their limits where what an anchor of this form wants is added.
fn check_limits(items: &Items, form: AnchorForm) -> Result<(), InstallFault>
    requires form { form_in items.now ≡ Some form }
    ensures ok { OnOk result (limits_refusal items.now ≡ None) }
    ensures err { IfErr result (λ fault. limits_refusal items.now ≡ Some fault) }
{
    let added = added_size(form);
    if script_bytes(items).len() > LONGEST_SCRIPT - added {
        return Err(InstallFault::ScriptFull);
    }
    if has_no_room(items) {
        return Err(InstallFault::TooMany);
    }
    if total_size(items.all()) > BYTES_LIMIT - added {
        return Err(InstallFault::TooLarge);
    }
    Ok(())
}

// Whether there are as many files as there may be, and none of them is the script.
fn has_no_room(items: &Items) -> bool
    ensures { result ≡ (not (is_there items.now loader_name) && nat_lt file_limit (suc (length items.now))) }
{
    !has_script(items) && items.all().len() >= FILE_LIMIT
}

fn has_script(items: &Items) -> bool
    ensures { result ≡ is_there items.now loader_name }
{
    items.find(&loader_name()).is_some()
}

// The bytes of the script, and none where there is no script.
fn script_bytes(items: &Items) -> &[u8]
    ensures { result.now ≡ bytes_of items.now loader_name }
{
    match items.find(&loader_name()) {
        Some(script) => script.bytes.as_slice(),
        None => &[],
    }
}

// How many bytes the commands have that an anchor of this form wants.
fn added_size(form: AnchorForm) -> usize
    ensures size { result ≡ length (added_bytes form) }
    ensures few { result ≤ 640 }
{
    match form {
        AnchorForm::Smbios3 => 4 * ENTRY_BYTES,
        AnchorForm::Smbios2 => 5 * ENTRY_BYTES,
    }
}

// How many bytes all items have.
fn total_size(items: &[Item]) -> usize
    requires { total_size items.now ≤ bytes_limit }
    ensures { result ≡ total_size items.now }
{
    let mut total = 0;
    for item in items {
        total += item.bytes.len();
    }
    total
}
