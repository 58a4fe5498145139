//! Values in the words of the language.

use crate::sets::page::Page;
use crate::sets::words::Words;
use jr_journal::{JournalFault, Slot};
use rep_model::{Limit, TakeFault};
use rep_ops::{OpsFault, Subject};
use sn_session::{Phase, Presence};

/// Where a client is.
const PLACES: &str = "active asleep awake disconnected lost";

/// How far an exchange is.
const PHASES: &str = "registering published released";

/// The slots of a disk.
const SLOTS: &str = "first second";

/// Where a client is.
pub(crate) fn presence(words: &mut Words<'_>) -> Presence {
    match words.one_of(PLACES) {
        0 => Presence::Active,
        1 => Presence::Asleep,
        2 => Presence::Awake,
        3 => Presence::Disconnected,
        _ => Presence::Lost,
    }
}

/// Where a client is, in a word.
pub(crate) fn presence_word(presence: Presence) -> &'static str {
    match presence {
        Presence::Active => "active",
        Presence::Asleep => "asleep",
        Presence::Awake => "awake",
        Presence::Disconnected => "disconnected",
        Presence::Lost => "lost",
    }
}

/// How far an exchange is.
pub(crate) fn phase(words: &mut Words<'_>) -> Phase {
    match words.one_of(PHASES) {
        0 => Phase::Registering,
        1 => Phase::Published,
        _ => Phase::Released,
    }
}

/// How far an exchange is, in a word.
pub(crate) fn phase_word(phase: Phase) -> &'static str {
    match phase {
        Phase::Registering => "registering",
        Phase::Published => "published",
        Phase::Released => "released",
    }
}

/// A slot.
pub(crate) fn slot(words: &mut Words<'_>) -> Slot {
    match words.one_of(SLOTS) {
        0 => Slot::First,
        _ => Slot::Second,
    }
}

/// A slot in a word.
pub(crate) fn slot_word(slot: Slot) -> &'static str {
    match slot {
        Slot::First => "first",
        Slot::Second => "second",
    }
}

/// Why operations or octets are refused.
fn ops_word(fault: OpsFault) -> &'static str {
    match fault {
        OpsFault::Twice => "twice",
        OpsFault::Limit => "limit",
        OpsFault::Memory => "memory",
        OpsFault::Truncated => "truncated",
        OpsFault::Version => "version",
        OpsFault::Kind => "kind",
        OpsFault::Order => "order",
        OpsFault::Trailing => "trailing",
    }
}

/// Prints a line that says why operations or octets are refused; remembers if memory ran out.
pub(crate) fn print_ops_fault(page: &mut Page, fault: OpsFault) {
    print_ops_refusal(page, fault);
    page.end();
}

/// Prints why operations or octets are refused; remembers if memory ran out.
pub(crate) fn print_ops_refusal(page: &mut Page, fault: OpsFault) {
    if matches!(fault, OpsFault::Memory) {
        page.run_out();
    }
    page.labelled("refused", ops_word(fault));
}

/// Prints why a replica refuses; remembers if memory ran out.
pub(crate) fn print_take_fault(page: &mut Page, fault: &TakeFault) {
    match fault {
        TakeFault::Conflict { of } => print_conflict(page, of),
        TakeFault::Full { limit } => {
            page.labelled("refused full", limit_word(*limit));
            page.end();
        }
        TakeFault::Memory => page.run_out(),
    }
}

/// Prints what two operations contradict each other about.
fn print_conflict(page: &mut Page, subject: &Subject) {
    match subject {
        Subject::Client(client) => page.named("refused conflict", client.bytes()),
        Subject::Topic(topic) => page.named("refused conflict topic", topic.bytes()),
    }
}

/// What there would be too much of.
fn limit_word(limit: Limit) -> &'static str {
    match limit {
        Limit::Clients => "clients",
        Limit::Pending => "pending",
        Limit::Parked => "parked",
        Limit::Exceptions => "exceptions",
        Limit::Retained => "retained",
    }
}

/// Prints in words why a journal refuses; remembers if memory ran out, also in its disk.
pub(crate) fn print_journal_fault(page: &mut Page, fault: JournalFault, is_starved: bool) {
    if is_starved {
        page.run_out();
    }
    match fault {
        JournalFault::BadRecord { slot, at } => {
            page.word("bad record");
            page.labelled(slot_word(slot), at);
        }
        JournalFault::Disk => page.word("disk"),
        JournalFault::Foreign => page.word("foreign"),
        JournalFault::Halted => page.word("halted"),
        JournalFault::Memory => page.run_out(),
    }
}
