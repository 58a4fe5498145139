//! Sessions.

use crate::refusals::calls::{Calls, Made, Shown, given, is_word};
use crate::refusals::deltas::delta;
use crate::refusals::said::{Said, Stop};
use rep_ops::{Delta, Op};
use sn_session::{Session, SessionOp};
use sn_tables::SessionFault;
use std::alloc::Global;

/// Changes of each kind that adds something: a Take of a session with a subscription, a topic id,
/// a subscription, the topic of a will, its message, and the id of a message that was received.
const CHANGES: [&str; 7] = [
    "0100000006",
    "0102733100000000000000010100000001003c0001000000010001610100000000",
    "0102733100000000000000010101020001010003742f61",
    "0102733100000000000000010102030003742f2302",
    "0102733100000000000000010103050101000003742f61",
    "0102733100000000000000010104060004676f6e65",
    "0102733100000000000000010105070007",
];

/// A session, changes, and how many of them it has.
pub(crate) struct Sessions {
    session: Session,
    changes: Delta,
    done: usize,
}

impl Drop for Sessions {
    fn drop(self) {
        let Sessions {
            session,
            changes,
            done: _,
        } = self;
        drop(session);
        drop(changes);
    }
}

impl Made for Sessions {
    fn make(said: &mut Said, call: &str, _is_second: bool) -> Option<Sessions> {
        let mut made = Sessions {
            session: Session::empty(said.alloc),
            changes: delta(said, &CHANGES),
            done: 0,
        };
        if is_word(call, "Session::copy") {
            let changed = made.change_all(said);
            said.stop_if_short(changed.is_err());
        }
        Some(made)
    }
}

impl Calls for Sessions {
    fn call_once(&mut self, said: &mut Said, call: &str) {
        if is_word(call, "Session::copy") {
            self.copy(said);
        } else {
            self.change(said);
        }
    }
}

impl Sessions {
    /// Makes the changes that are left, and prints how much the session has then.
    fn change(&mut self, said: &mut Said) {
        match self.change_all(said) {
            Ok(()) => {
                self.session.show(said);
                said.answer();
            }
            Err(fault) => said.refuse(matches!(&fault, SessionFault::Memory)),
        }
    }

    /// Makes the changes that are left, up to one that is refused.
    fn change_all(&mut self, said: &mut Said) -> Result<(), SessionFault> {
        let ops = self.changes.ops();
        for at in self.done..ops.len() {
            if let Op::Session { change, .. } = &ops[at] {
                change_once(said, &mut self.session, change)?;
            }
            self.done = at + 1;
        }
        Ok(())
    }

    /// Copies the session.
    fn copy(&self, said: &mut Said) {
        let copy = self.session.copy(said.alloc);
        if let Ok(copy) = &copy {
            said.keep(*copy == self.session);
        }
        given(said, copy, SessionFault::Memory);
    }
}

/// Makes a change. If it is refused, the session is as it was.
fn change_once(
    said: &mut Said,
    session: &mut Session,
    change: &SessionOp,
) -> Result<(), SessionFault> {
    match session.copied(said.alloc) {
        Ok(before) => {
            let done = apply(said.alloc, session, change);
            said.keep(done.is_ok() || is_as(session, &before));
            drop(before);
            done
        }
        Err(_fault) => {
            said.stop(Stop::Memory);
            Ok(())
        }
    }
}

/// Makes a change.
fn apply(alloc: Global, session: &mut Session, change: &SessionOp) -> Result<(), SessionFault> {
    session.apply(alloc, change)
}

/// Whether a session is as it was.
fn is_as(session: &Session, before: &Session) -> bool {
    *session == *before
}

/// Prints how much a session has.
impl Shown for Session {
    fn show(&self, said: &mut Said) {
        said.number("topics", self.topics.len());
        said.number("subscriptions", self.subscriptions.len());
        said.number("received", self.received.len());
        if let Some(will) = &self.will {
            said.octets(will.message.as_slice());
        }
    }
}
