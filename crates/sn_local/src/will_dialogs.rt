//! The list of will dialogs and its changes.

ghost use Rattle.std.specs.Prelude.{◌≡◌, ◌+◌, ◌≤◌, length, vec_len};
ghost use Rattle.std.specs.Option.{option_copied};
ghost use Rattle.std.specs.Vec.{vec_capacity};
ghost use Rattle.sn_local.specs.WillDialogs.{dialogs_elsewhere, asked};
ghost use Rattle.sn_local.specs.WillDialogs as spec;

use super::config::Addr;
use super::local::WillDialog;

/// How many addresses can be in a will dialog.
pub const MAX_DIALOGS: usize = 1024;

/// Whether a dialog is of another address.
fn is_elsewhere(address: Addr, dialog: &WillDialog) -> bool
    ensures { result ≡ spec.is_elsewhere address dialog.now }
{
    dialog.request.address != address
}

/// The address has no dialog any more.
pub fn end_dialog(dialogs: &mut Vec<WillDialog>, address: Addr)
    ensures items { dialogs.new.items ≡ dialogs_elsewhere address dialogs.old.items }
    ensures capacity { vec_capacity dialogs.new ≡ vec_capacity dialogs.old }
    ensures len { vec_len dialogs.new ≤ vec_len dialogs.old }
{
    dialogs.retain(|dialog| is_elsewhere(address, dialog));
}

/// The dialog of its address is this one. There is room for one more.
pub fn ask(dialogs: &mut Vec<WillDialog>, dialog: WillDialog)
    requires { vec_len dialogs.old + 1 ≤ vec_capacity dialogs.old }
    ensures items { dialogs.new.items ≡ asked dialog dialogs.old.items }
    ensures capacity { vec_capacity dialogs.old ≤ vec_capacity dialogs.new }
    ensures len { vec_len dialogs.new ≤ vec_len dialogs.old + 1 }
{
    end_dialog(dialogs, dialog.request.address);
    dialogs.push(dialog).unwrap();
}

/// The dialog of an address.
pub fn dialog_at(dialogs: &[WillDialog], address: Addr) -> Option<&WillDialog>
    ensures { option_copied result ≡ spec.dialog_at address dialogs.now }
{
    for dialog in dialogs {
        if dialog.request.address == address {
            return Some(dialog);
        }
    }
    None
}

/// How many dialogs are of other addresses.
fn count_elsewhere(dialogs: &[WillDialog], address: Addr) -> usize
    ensures { result ≡ length (dialogs_elsewhere address dialogs.now) }
{
    let mut count: usize = 0;
    for dialog in dialogs {
        if is_elsewhere(address, dialog) {
            count += 1;
        }
    }
    count
}

/// Whether 1,024 other addresses have a dialog, so that there is no room for one more.
pub fn is_crowded(dialogs: &[WillDialog], address: Addr) -> bool
    ensures { result ≡ spec.is_crowded address dialogs.now }
{
    count_elsewhere(dialogs, address) >= MAX_DIALOGS
}
