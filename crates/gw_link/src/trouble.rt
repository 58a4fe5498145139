//! What an operator should hear of.

ghost use Rattle.std.specs.Prelude.{◌≡◌};
ghost use Rattle.gw_answer.specs.Answers.{refusal_of_fault};
ghost use Rattle.gw_link.specs.inner.Calling as spec;

use gw_relay::is_to_tell;
use gw_shift::gw_node::NodeFault;

/// What an operator should hear of: nothing else tells that gateways differ for good, or that one
/// has no link.
#[derive(Clone, Copy, PartialEq, Eq)]
pub enum Trouble {
    /// The other end of a link has the number of this gateway.
    SameNumber,
    /// The other end of a link has a number that may not be linked.
    Stranger,
    /// A gateway told what contradicts what is kept.
    Conflict,
    /// A gateway told more than may be kept.
    TooMuch,
    /// A gateway that dialled was turned away, since as many as may be are linked.
    TurnedAway,
    /// A gateway has a link beside one that it had: it was cut off, or two have its number.
    Twice,
}

/// What is to be told of a trouble.
#[derive(Clone, Copy, PartialEq, Eq)]
pub struct Report {
    /// What it is.
    pub trouble: Trouble,
    /// The gateway that it is with, or 0 where that is not known.
    pub number: u8,
    /// How often it happened since it was last told.
    pub count: u64,
}

/// How often a trouble happened, and was told.
#[derive(Drop)]
pub(crate) struct Tally {
    pub(crate) trouble: Trouble,
    pub(crate) number: u8,
    pub(crate) count: u64,
    pub(crate) told: u64,
    /// The second in which it was last told.
    pub(crate) second: Option<u64>,
}

/// The trouble that a refusal of what another gateway told is, if it is one.
pub(crate) fn trouble_of(fault: &NodeFault) -> Option<Trouble>
    ensures { result ≡ spec.trouble_of (refusal_of_fault fault.now) }
{
    match fault {
        NodeFault::Conflict { .. } => Some(Trouble::Conflict),
        NodeFault::Full => Some(Trouble::TooMuch),
        NodeFault::Frame { .. } | NodeFault::Halted | NodeFault::Disk { .. } => None,
        NodeFault::Exhausted | NodeFault::Memory | NodeFault::Journal { .. } => None,
    }
}

/// A trouble happened once more.
pub(crate) fn count_one(tallies: &mut Vec<Tally>, trouble: Trouble, number: u8) {
    for tally in tallies.as_mut_slice() {
        if tally.trouble == trouble && tally.number == number {
            tally.count = tally.count.saturating_add(1);
            return;
        }
    }
    let tally = Tally {
        trouble,
        number,
        count: 1,
        told: 0,
        second: None,
    };
    let _ = tallies.push(tally);
}

/// What is to be told in this second, if anything. From now on it was told.
pub(crate) fn report_of(tallies: &mut [Tally], second: u64) -> Option<Report> {
    for tally in tallies {
        if is_to_tell(tally.count, tally.told, tally.second, second) {
            let count = tally.count.saturating_sub(tally.told);
            tally.told = tally.count;
            tally.second = Some(second);
            return Some(Report {
                trouble: tally.trouble,
                number: tally.number,
                count,
            });
        }
    }
    None
}
