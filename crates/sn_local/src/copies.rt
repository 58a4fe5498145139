//! Copies of the three lists of a gateway's local state.

ghost use Rattle.std.specs.Prelude.{◌≡◌, IfOk};

use super::local::{Binding, Timer, WillDialog};
use octets::NoMemory;
use std::alloc::Global;

/// Equal bindings.
pub(crate) fn copy_bindings(alloc: Global, bindings: &[Binding]) -> Result<Vec<Binding>, NoMemory>
    ensures { IfOk result (λ made. made.items ≡ bindings.now) }
{
    let mut made = Vec::with_capacity(alloc, bindings.len())?;
    for binding in bindings {
        made.push(binding.copied(alloc)?)?;
    }
    Ok(made)
}

/// Equal dialogs.
pub(crate) fn copy_dialogs(
    alloc: Global,
    dialogs: &[WillDialog],
) -> Result<Vec<WillDialog>, NoMemory>
    ensures { IfOk result (λ made. made.items ≡ dialogs.now) }
{
    let mut made = Vec::with_capacity(alloc, dialogs.len())?;
    for dialog in dialogs {
        made.push(dialog.copied(alloc)?)?;
    }
    Ok(made)
}

/// Equal timers.
pub(crate) fn copy_timers(alloc: Global, timers: &[Timer]) -> Result<Vec<Timer>, NoMemory>
    ensures { IfOk result (λ made. made.items ≡ timers.now) }
{
    let mut made = Vec::with_capacity(alloc, timers.len())?;
    for timer in timers {
        made.push(timer.copied(alloc)?)?;
    }
    Ok(made)
}
