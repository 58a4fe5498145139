//! Several calls of one gateway, with one write.
//!
//! If memory for a row is refused, its first call goes alone, and the others are made in a row of
//! their own. If it is refused to a call, all that stand before that one are done, and it is made
//! again. So what is printed is the same, however many rows there are.

use crate::refusals::calls::{Calls, Made, beside, is_same};
use crate::refusals::gateways::{
    Gateway, NOT_SUBSCRIBED, SUBSCRIBE, frame, gateway, is_excuse, kept, show_kept, show_out,
};
use crate::refusals::said::{Said, Stop};
use gw_node::{Refusal, Reply, Step};
use rep_model::Replica;
use std::mem;
use std::sync::Arc;

/// How many calls there are.
const CALLS: usize = 3;

/// What they are: SUBSCRIBE to `t/#` and to the short name `ab`, and PINGREQ, for which nothing is
/// written.
const FRAMES: [&str; CALLS] = [SUBSCRIBE, "07122200016162", "0216"];

/// A gateway at which the client is connected, and the calls that are left.
pub(crate) struct Togethers<R: Replica> {
    node: Gateway<R>,
    steps: Vec<Arc<Step>>,
}

impl<R: Replica> Drop for Togethers<R> {
    fn drop(self) {
        let Togethers { node, steps } = self;
        drop(node);
        drop(steps);
    }
}

impl<R: Replica> Made for Togethers<R> {
    fn make(said: &mut Said, _call: &str, _is_second: bool) -> Option<Togethers<R>> {
        match gateway(said, true) {
            Some(node) => Some(Togethers {
                node,
                steps: steps(said),
            }),
            None => None,
        }
    }
}

impl<R: Replica> Calls for Togethers<R> {
    /// Makes the calls that are left, in as many rows as it takes.
    fn call_once(&mut self, said: &mut Said, _call: &str) {
        for _ in 0..CALLS {
            if self.steps.is_empty() || !self.call_row(said) {
                break;
            }
        }
        if self.steps.is_empty() {
            show_kept(said, &self.node);
            said.answer();
        }
    }
}

impl<R: Replica> Togethers<R> {
    /// Makes the calls that are left in a row. Says whether none was refused.
    fn call_row(&mut self, said: &mut Said) -> bool {
        let stood = kept(said, &self.node);
        let is_done = match answered(said, &mut self.node, self.steps.as_slice()) {
            Some(replies) => self.look_at_all(said, replies, stood.as_slice()),
            None => false,
        };
        drop(stood);
        is_done
    }

    /// Looks at what was answered, up to a refusal. Says whether there is none.
    fn look_at_all(&mut self, said: &mut Said, replies: Vec<Reply>, stood: &[u8]) -> bool {
        for reply in replies {
            if !self.look(said, &reply, stood) {
                return false;
            }
        }
        true
    }

    /// Looks at the answer to the first call that is left. Says whether that was done: it is left no
    /// more. A refusal comes before all other calls of its row: all is as it was.
    fn look(&mut self, said: &mut Said, reply: &Reply, stood: &[u8]) -> bool {
        match reply {
            Ok(shares) => {
                show_out(said, shares.out());
                self.go_on();
                true
            }
            Err(Refusal::Disk { excuse }) => {
                said.keep(is_excuse(excuse.out(), NOT_SUBSCRIBED));
                self.look_halted(said, stood);
                false
            }
            Err(refusal) => {
                said.keep(!self.node.is_halted());
                said.refuse(matches!(refusal, Refusal::Memory));
                self.look_unchanged(said, stood);
                false
            }
        }
    }

    /// One call is left no more.
    fn go_on(&mut self) {
        if !self.steps.is_empty() {
            drop(self.steps.remove(0));
        }
    }

    /// Looks whether the gateway keeps what it kept.
    fn look_unchanged(&self, said: &mut Said, stood: &[u8]) {
        let stands = kept(said, &self.node);
        said.keep(is_same(stands.as_slice(), stood));
        drop(stands);
    }

    /// Looks at a gateway whose disk failed. Puts one as it was in its place.
    fn look_halted(&mut self, said: &mut Said, stood: &[u8]) {
        said.keep(self.node.starved() && self.node.is_halted());
        said.starve();
        self.look_unchanged(said, stood);
        if let Some(node) = gateway(said, true) {
            drop(mem::replace(&mut self.node, node));
        }
    }
}

/// What a gateway answers to calls in a row, if there are any, and room for the answers.
fn answered<R: Replica>(
    said: &mut Said,
    node: &mut Gateway<R>,
    steps: &[Arc<Step>],
) -> Option<Vec<Reply>> {
    if steps.is_empty() {
        return None;
    }
    match Vec::with_capacity(said.alloc, steps.len()) {
        Ok(room) => Some(node.step_all(said.alloc, steps, room)),
        Err(_) => {
            said.stop(Stop::Memory);
            None
        }
    }
}

/// The calls as values.
pub(crate) fn steps(said: &mut Said) -> Vec<Arc<Step>> {
    let mut steps = Vec::new(said.alloc);
    for digits in &FRAMES {
        let step = frame(said, digits);
        let shared = Arc::new(said.alloc, step);
        if let Some(step) = beside(said, shared) {
            let is_short = steps.push(step).is_err();
            said.stop_if_short(is_short);
        }
    }
    steps
}
