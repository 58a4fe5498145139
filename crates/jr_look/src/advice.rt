//! Faults, and what to do.

use crate::looking::Fault;
use crate::page::Page;
use jr_journal::{JournalFault, Slot};
use jr_read::Misfit;
use rep_model::{Limit, TakeFault};
use rep_ops::Subject;

/// What a record is told as that is none, at whatever place.
const NO_RECORD: JournalFault = JournalFault::BadRecord {
    slot: Slot::First,
    at: 0,
};

/// The number by which a gateway tells a fault, after a `J`. A record that does not fit is told as
/// one that is none.
pub(crate) fn number(fault: &Fault) -> u8 {
    match fault {
        Fault::Journal(fault) => fault.number(),
        Fault::Record(misfit) => match &misfit.fault {
            TakeFault::Conflict { .. } | TakeFault::Full { .. } => NO_RECORD.number(),
            TakeFault::Memory => JournalFault::Memory.number(),
        },
    }
}

/// What to do.
pub(crate) fn advice(fault: &Fault) -> &'static str {
    match fault {
        Fault::Journal(JournalFault::Foreign) =>
            "look at the number that the gateway was given, and do not delete the files before you know whose they are",
        Fault::Journal(JournalFault::BadRecord { .. }) =>
            "octets that were synced have changed: keep a copy of both files; the records that are shown are whole",
        Fault::Journal(_) => "try again",
        Fault::Record(misfit) => match &misfit.fault {
            TakeFault::Conflict { .. } =>
                "keep a copy of both files: a number was used twice, or a gateway went on from an older copy of its journal",
            TakeFault::Full { .. } =>
                "keep a copy of both files: no gateway takes so much, so none has written this record",
            TakeFault::Memory => "give the program more memory",
        },
    }
}

/// The number of a slot.
pub(crate) fn slot_number(slot: Slot) -> u8 {
    match slot {
        Slot::First => 0,
        Slot::Second => 1,
    }
}

/// What is wrong, in words.
pub(crate) fn words(page: &mut Page, fault: &Fault) {
    match fault {
        Fault::Journal(fault) => journal_words(page, *fault),
        Fault::Record(misfit) => misfit_words(page, misfit),
    }
}

/// What is wrong with the journal.
fn journal_words(page: &mut Page, fault: JournalFault) {
    match fault {
        JournalFault::Foreign => page.text(
            "no journal of this gateway: another header, no seal, or two slots of one generation",
        ),
        JournalFault::BadRecord { slot, at } => {
            page.value("neither a record nor a seal at octet ", at);
            page.value(" of slot ", slot_number(slot));
        }
        _ => page.value("", fault),
    }
}

/// What is wrong with a record beside those before it.
fn misfit_words(page: &mut Page, misfit: &Misfit) {
    match &misfit.fault {
        TakeFault::Conflict { of } => contradiction(page, misfit.before, of),
        TakeFault::Full { limit } => {
            page.value("with record ", misfit.before);
            page.word(" there are too many ", limit_words(*limit));
        }
        TakeFault::Memory => page.text("out of memory"),
    }
}

/// Of what a record contradicts one in front of it.
fn contradiction(page: &mut Page, before: usize, of: &Subject) {
    page.value("record ", before);
    page.text(" contradicts one in front of it, of ");
    match of {
        Subject::Client(client) => page.name("client ", client.bytes()),
        Subject::Topic(topic) => page.name("topic ", topic.bytes()),
    }
}

/// What there is too much of.
fn limit_words(limit: Limit) -> &'static str {
    match limit {
        Limit::Clients => "clients",
        Limit::Pending => "messages that wait for one client",
        Limit::Parked => "session operations that wait for earlier ones",
        Limit::Exceptions => "acknowledgements above one that is missing",
        Limit::Retained => "topics with something retained",
    }
}
