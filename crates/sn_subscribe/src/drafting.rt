//! Drafts that are written in one go.

ghost use Rattle.std.specs.Prelude.{◌≡◌, ◌≤◌, IfOk, OnOk};
ghost use Rattle.sn_frame.specs.declared.frame.TheConstants.{MAX_FRAME};
ghost use Rattle.sn_frame.specs.Bodies.{IsMessage};
ghost use Rattle.sn_frame.specs.Grammar.{total_of};
ghost use Rattle.sn_plan.specs.Drafts.{nothing, changed_if, sent};

use octets::NoMemory;
use sn_frame::Frame;
use sn_local::Addr;
use sn_plan::{Draft, finished};
use sn_session::SessionOp;
use std::alloc::Global;

/// A step that changes the session, where there is a change, and answers by a frame.
pub(crate) fn answered(
    alloc: Global,
    to: Addr,
    change: Option<SessionOp>,
    answer: Frame,
) -> Result<Draft, NoMemory>
    requires message { IsMessage answer }
    requires size { total_of answer ≤ MAX_FRAME }
    ensures { IfOk result (λ draft. draft ≡ sent to answer (changed_if change nothing)) }
{
    let mut draft = Draft::new(alloc);
    let done = write_answer(alloc, &mut draft, to, change, answer);
    finished(draft, done)
}

/// Writes a change of the session, where there is one, and an answer.
fn write_answer(
    alloc: Global,
    draft: &mut Draft,
    to: Addr,
    change: Option<SessionOp>,
    answer: Frame,
) -> Result<(), NoMemory>
    requires message { IsMessage answer }
    requires size { total_of answer ≤ MAX_FRAME }
    ensures { OnOk result (draft.new ≡ sent to answer (changed_if change draft.old)) }
{
    if draft.change_if(change).is_err() {
        drop(answer);
        return Err(NoMemory);
    }
    draft.send(alloc, to, answer)
}
