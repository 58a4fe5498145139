//! Whether two calls, or two answers, are equal. No memory is taken, and nothing is shared or owned
//! by the answer: it says whether contracts see one value.

ghost use Rattle.std.specs.Prelude.{◌≡◌, ◌↔◌, IsTrue};
ghost use Rattle.gw_answer.specs.Answers.{refusal_of_fault, said};

use super::fault::NodeFault;
use super::refusal::Answer;
use super::same_out::{same_digest, same_out};
use super::step::Step;
use jr_journal::JournalFault;
use rep_same::{same_client, same_delta, same_subject};
use sn_frame::FrameFault;
use sn_local::Addr;

fn same_addr(a: &Addr, b: &Addr) -> bool
    ensures { IsTrue result ↔ (a.now ≡ b.now) }
{
    a == b
}

/// Whether two calls are equal.
pub fn same_step(a: &Step, b: &Step) -> bool
    ensures { IsTrue result ↔ (a.now ≡ b.now) }
{
    match (a, b) {
        (
            Step::Frame { from, bytes, now },
            Step::Frame {
                from: by,
                bytes: other,
                now: at,
            },
        ) => same_addr(from, by) && bytes == other && now == at,
        (Step::Take { delta: x }, Step::Take { delta: y }) => same_delta(x, y),
        (Step::Tick { now: x }, Step::Tick { now: y }) => x == y,
        (Step::View { client: x }, Step::View { client: y }) => same_client(x, y),
        (Step::Digest, Step::Digest) => true,
        (Step::Answer { digest: x }, Step::Answer { digest: y }) => same_digest(x, y),
        (Step::Compact, Step::Compact) => true,
        (Step::Reopen, Step::Reopen) => true,
        _ => false,
    }
}

fn same_frame_fault(a: &FrameFault, b: &FrameFault) -> bool
    ensures { IsTrue result ↔ (a.now ≡ b.now) }
{
    match (a, b) {
        (FrameFault::Empty, FrameFault::Empty) => true,
        (FrameFault::Length { said, held }, FrameFault::Length { said: x, held: y }) => {
            said == x && held == y
        }
        (FrameFault::Encapsulated, FrameFault::Encapsulated) => true,
        (FrameFault::UnknownType { value: x }, FrameFault::UnknownType { value: y }) => x == y,
        (FrameFault::Body, FrameFault::Body) => true,
        (FrameFault::Memory, FrameFault::Memory) => true,
        _ => false,
    }
}

fn same_journal_fault(a: &JournalFault, b: &JournalFault) -> bool
    ensures { IsTrue result ↔ (a.now ≡ b.now) }
{
    a == b
}

/// Whether two faults are equal.
fn same_fault(a: &NodeFault, b: &NodeFault) -> bool
    ensures { IsTrue result ↔ (refusal_of_fault a.now ≡ refusal_of_fault b.now) }
{
    match (a, b) {
        (NodeFault::Frame { fault: x }, NodeFault::Frame { fault: y }) => same_frame_fault(x, y),
        (NodeFault::Halted, NodeFault::Halted) => true,
        (NodeFault::Disk { out: x }, NodeFault::Disk { out: y }) => same_out(x, y),
        (NodeFault::Conflict { of: x }, NodeFault::Conflict { of: y }) => same_subject(x, y),
        (NodeFault::Full, NodeFault::Full) => true,
        (NodeFault::Exhausted, NodeFault::Exhausted) => true,
        (NodeFault::Journal { fault: x }, NodeFault::Journal { fault: y }) => {
            same_journal_fault(x, y)
        }
        (NodeFault::Memory, NodeFault::Memory) => true,
        _ => false,
    }
}

/// Whether two answers are equal, whoever has a share of what was answered.
pub fn same_answer(a: &Answer, b: &Answer) -> bool
    ensures { IsTrue result ↔ (said a.now ≡ said b.now) }
{
    match (a, b) {
        (Ok(x), Ok(y)) => same_out(x, y),
        (Err(x), Err(y)) => same_fault(x, y),
        _ => false,
    }
}
