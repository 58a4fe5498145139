//! Shifts.

use crate::refusals::calls::{Calls, beside, is_one_of, is_word, play_call};
use crate::refusals::gateways::{
    Gateway, NOT_SUBSCRIBED, SUBSCRIBE, frame, gateway, is_excuse, show_out,
};
use crate::refusals::said::{Said, Stop};
use crate::refusals::together::steps;
use gw_node::{Answer, NodeFault, Out, Step};
use gw_report::Glimpse;
use gw_shift::{CallFault, CloseFault, Closed, Ended, Pass, Shift, ShiftFault};
use jr_journal::MemoryDisk;
use rep_ops::Delta;
use rep_state::Folded;
use std::alloc::Global;
use std::mem;
use std::sync::{Arc, Wait};

/// A shift of a gateway on a disk in memory.
pub(crate) type Shared<R> = Shift<R, MemoryDisk>;

/// What the opening of a shift gives.
type Opened<R> = Result<(Shared<R>, Vec<Pass>), (Gateway<R>, ShiftFault)>;

/// What a call of a shift gives.
type Answered = Result<(Pass, Arc<Out>, u64), (Pass, CallFault)>;

/// What calls of a shift in a row give.
type RowAnswered = Result<(Pass, Vec<Answer>, u64), (Pass, CallFault)>;

/// A shift that is over.
type Over<R> = Ended<R, MemoryDisk>;

/// What the closing of a shift gives.
type Closing<R> = Result<Closed<R, MemoryDisk>, (Over<R>, Vec<Pass>, CloseFault)>;

/// A gateway of which a shift is opened. While that is done, it is not here.
#[derive(Drop)]
struct Openings {
    node: Option<Gateway<Folded>>,
}

impl Calls for Openings {
    fn call_once(&mut self, said: &mut Said, _call: &str) {
        if let Some(node) = self.node.take() {
            let opened = open(said.alloc, node, 2);
            self.look(said, opened);
        }
    }
}

impl Openings {
    /// Looks at an opening. If it was refused, the gateway came back.
    fn look(&mut self, said: &mut Said, opened: Opened<Folded>) {
        match opened {
            Ok((shift, passes)) => {
                drop(shift);
                show_passes(said, passes);
            }
            Err((node, ShiftFault::Memory)) => {
                said.keep(!node.is_halted());
                said.refuse(true);
                drop(mem::replace(&mut self.node, Some(node)));
            }
        }
    }
}

/// Prints how many passes there are.
fn show_passes(said: &mut Said, passes: Vec<Pass>) {
    said.number("passes", passes.len());
    drop(passes);
    said.answer();
}

/// Opens a shift of nine calls.
fn open(alloc: Global, node: Gateway<Folded>, passes: usize) -> Opened<Folded> {
    Shift::open(alloc, node, passes.clamp(1, 2), 9)
}

/// A shift of one pass, with it.
pub(crate) fn begun(said: &mut Said) -> Option<(Shared<Folded>, Vec<Pass>)> {
    let node = gateway(said, true)?;
    let opened = open(said.alloc, node, 1);
    beside(said, opened)
}

/// A shift, the step of its calls, its pass unless a call has it, and how many calls its history
/// has.
#[derive(Drop)]
struct Work<'a, W: Wait> {
    rt: &'a W,
    shift: &'a Shared<Folded>,
    step: &'a Arc<Step>,
    pass: Option<Pass>,
    calls: u64,
}

/// Plays a row of gateways with these replicas.
pub(crate) fn play_row<W: Wait>(rt: &W, said: &mut Said, call: &str) {
    if is_word(call, "Shift::open") {
        play_opening(said, call);
    } else if let Some(step) = subscribe(said) {
        play_with(rt, said, &step, call);
        drop(step);
    }
}

/// Plays the row of an opening.
fn play_opening(said: &mut Said, call: &str) {
    let node = gateway::<Folded>(said, true);
    let mut openings = Openings { node };
    play_call(said, &mut openings, call);
    drop(openings);
}

/// The step of a call.
fn subscribe(said: &mut Said) -> Option<Arc<Step>> {
    let step = frame(said, SUBSCRIBE);
    let made = Arc::new(said.alloc, step);
    beside(said, made)
}

/// Plays a row of a shift without calls, which is closed if its calls are what the row is about.
fn play_with<W: Wait>(rt: &W, said: &mut Said, step: &Arc<Step>, call: &str) {
    if let Some((shift, passes)) = begun(said) {
        let (pass, calls) = if is_word(call, "Shift::call_all") {
            play_rows(rt, said, &shift, passes, call)
        } else {
            play_in_shift(rt, said, &shift, passes, step, call)
        };
        if is_one_of(call, "Shift::call Shift::call_all") {
            close(said, shift, pass, calls);
        } else {
            drop(pass);
            drop(shift);
        }
    }
}

/// Plays a row of this shift. It has had a call of the step when something is asked of it. The pass
/// comes back, and how many calls the history has.
fn play_in_shift<W: Wait>(
    rt: &W,
    said: &mut Said,
    shift: &Shared<Folded>,
    mut passes: Vec<Pass>,
    step: &Arc<Step>,
    call: &str,
) -> (Option<Pass>, u64) {
    let pass = passes.pop();
    drop(passes);
    let mut work = Work {
        rt,
        shift,
        step,
        pass,
        calls: 0,
    };
    if !is_word(call, "Shift::call") {
        work.call_aside(said);
    }
    play_call(said, &mut work, call);
    let Work { pass, calls, .. } = work;
    (pass, calls)
}

impl<'a, W: Wait> Calls for Work<'a, W> {
    fn call_once(&mut self, said: &mut Said, call: &str) {
        if is_word(call, "Shift::call") {
            self.call(said);
        } else if is_word(call, "Shift::after") {
            if let Some(pass) = &self.pass {
                show_made(self.rt, said, self.shift, pass);
            }
        } else {
            look_at(self.rt, said, self.shift, call);
        }
    }
}

impl<'a, W: Wait> Work<'a, W> {
    /// Makes a call of which nothing is printed. If memory is refused in it, the row begins again.
    fn call_aside(&mut self, said: &mut Said) {
        let mut aside = Said::new(said.alloc);
        self.call(&mut aside);
        said.stop_if_short(!aside.is_answered());
        drop(aside);
    }

    /// Makes a call with the pass, unless another call has it.
    fn call(&mut self, said: &mut Said) {
        if let Some(pass) = self.pass.take() {
            self.call_by(said, pass);
        }
    }

    /// Makes a call with a pass.
    fn call_by(&mut self, said: &mut Said, pass: Pass) {
        match share(said, self.step) {
            Some(step) => {
                let answer = called_by(self.rt, said.alloc, self.shift, pass, step);
                self.show(said, answer);
            }
            None => drop(pass),
        }
    }

    /// Prints what a call answers, and takes its pass back.
    fn show(&mut self, said: &mut Said, answer: Answered) {
        match answer {
            Ok((pass, out, number)) => {
                self.take_back(pass);
                self.count(said, number);
                show_out(said, &out);
                drop(out);
                said.answer();
            }
            Err((pass, fault)) => {
                self.take_back(pass);
                self.look(said, &fault);
                drop(fault);
            }
        }
    }

    /// The pass is here again.
    fn take_back(&mut self, pass: Pass) {
        drop(mem::replace(&mut self.pass, Some(pass)));
    }

    /// One call more is in the history, under this number.
    fn count(&mut self, said: &mut Said, number: u64) {
        self.calls = self.calls.saturating_add(1);
        said.keep(number == self.calls);
    }

    /// Looks at a refusal. Memory before the gateway was reached is no call.
    fn look(&mut self, said: &mut Said, fault: &CallFault) {
        match fault {
            CallFault::Node { number, fault } => {
                self.count(said, *number);
                look_inside(said, fault);
            }
            fault => said.refuse(matches!(fault, CallFault::Memory)),
        }
    }
}

/// A shift, the calls that are left for it, its pass unless they have it, and how many calls its
/// history has.
#[derive(Drop)]
struct Rows<'a, W: Wait> {
    rt: &'a W,
    shift: &'a Shared<Folded>,
    steps: Vec<Arc<Step>>,
    pass: Option<Pass>,
    calls: u64,
}

/// Plays the row of calls in a row. The pass comes back, and how many calls the history has.
fn play_rows<W: Wait>(
    rt: &W,
    said: &mut Said,
    shift: &Shared<Folded>,
    mut passes: Vec<Pass>,
    call: &str,
) -> (Option<Pass>, u64) {
    let pass = passes.pop();
    drop(passes);
    let steps = steps(said);
    let mut rows = Rows {
        rt,
        shift,
        steps,
        pass,
        calls: 0,
    };
    play_call(said, &mut rows, call);
    let Rows {
        rt: _,
        shift: _,
        steps,
        pass,
        calls,
    } = rows;
    drop(steps);
    (pass, calls)
}

impl<'a, W: Wait> Calls for Rows<'a, W> {
    /// Makes the calls that are left, in as many rows as it takes.
    fn call_once(&mut self, said: &mut Said, _call: &str) {
        for _ in 0..self.steps.len() {
            if self.steps.is_empty() || !self.call_row(said) {
                break;
            }
        }
        if self.steps.is_empty() {
            said.answer();
        }
    }
}

impl<'a, W: Wait> Rows<'a, W> {
    /// Makes the calls that are left in a row, unless others have the pass. Says whether none was
    /// refused.
    fn call_row(&mut self, said: &mut Said) -> bool {
        match self.pass.take() {
            Some(pass) => {
                let (rt, shift) = (self.rt, self.shift);
                let answered = row_by(rt, said.alloc, shift, pass, self.steps.as_slice());
                self.look(said, answered)
            }
            None => false,
        }
    }

    /// Takes the pass back, and looks at what was answered.
    fn look(&mut self, said: &mut Said, answered: RowAnswered) -> bool {
        match answered {
            Ok((pass, answers, number)) => {
                self.take_back(pass);
                said.keep(number == self.calls.saturating_add(1));
                self.look_at_all(said, answers)
            }
            Err((pass, fault)) => {
                self.take_back(pass);
                said.refuse(matches!(&fault, CallFault::Memory));
                drop(fault);
                false
            }
        }
    }

    /// The pass is here again.
    fn take_back(&mut self, pass: Pass) {
        drop(mem::replace(&mut self.pass, Some(pass)));
    }

    /// Looks at what was answered, up to a refusal. All of it is in the history. Says whether none
    /// was refused.
    fn look_at_all(&mut self, said: &mut Said, answers: Vec<Answer>) -> bool {
        let mut is_done = true;
        for answer in answers {
            self.calls = self.calls.saturating_add(1);
            if is_done {
                is_done = self.look_at(said, &answer);
            }
        }
        is_done
    }

    /// Looks at the answer to the first call that is left. Says whether that was done: it is left no
    /// more.
    fn look_at(&mut self, said: &mut Said, answer: &Answer) -> bool {
        match answer {
            Ok(out) => {
                show_out(said, out);
                if !self.steps.is_empty() {
                    drop(self.steps.remove(0));
                }
                true
            }
            Err(fault) => {
                look_inside(said, fault);
                false
            }
        }
    }
}

/// What a shift answers to calls in a row.
fn row_by<W: Wait>(
    rt: &W,
    alloc: Global,
    shift: &Shared<Folded>,
    pass: Pass,
    steps: &[Arc<Step>],
) -> RowAnswered {
    if steps.is_empty() {
        return Err((pass, CallFault::Memory));
    }
    shift.call_all(rt, alloc, pass, steps)
}

/// A share of the step.
fn share(said: &mut Said, step: &Arc<Step>) -> Option<Arc<Step>> {
    beside(said, step.clone())
}

/// What a shift answers to a call.
fn called_by<W: Wait>(
    rt: &W,
    alloc: Global,
    shift: &Shared<Folded>,
    pass: Pass,
    step: Arc<Step>,
) -> Answered {
    shift.call(rt, alloc, pass, step)
}

/// Looks at a refusal of the gateway. If its disk was refused memory, the row begins again.
fn look_inside(said: &mut Said, fault: &NodeFault) {
    match fault {
        NodeFault::Disk { out } => {
            said.keep(is_excuse(out, NOT_SUBSCRIBED));
            said.starve();
            said.stop(Stop::Memory);
        }
        fault => said.refuse(matches!(fault, NodeFault::Memory)),
    }
}

/// Asks for the deltas that were made, and prints how many there are.
fn show_made<W: Wait>(rt: &W, said: &mut Said, shift: &Shared<Folded>, pass: &Pass) {
    let made = made_by(rt, said.alloc, shift, pass);
    match &made {
        Ok(deltas) => {
            said.number("deltas", deltas.len());
            said.answer();
        }
        Err(fault) => said.refuse(matches!(fault, CallFault::Memory)),
    }
    drop(made);
}

/// The deltas that the calls of a shift made.
fn made_by<W: Wait>(
    rt: &W,
    alloc: Global,
    shift: &Shared<Folded>,
    pass: &Pass,
) -> Result<Vec<(u64, Delta)>, CallFault> {
    shift.after(rt, alloc, pass, 0, 9)
}

/// Looks at the gateway without a call.
fn look_at<W: Wait>(rt: &W, said: &mut Said, shift: &Shared<Folded>, call: &str) {
    if is_word(call, "Shift::glance") {
        show_glimpses(rt, said, shift);
    } else {
        show_known(rt, said, shift);
    }
}

/// Asks for the clients at a glance, and prints how many there are.
fn show_glimpses<W: Wait>(rt: &W, said: &mut Said, shift: &Shared<Folded>) {
    let glimpses = shift.glance(rt, said.alloc, b"", 9);
    match &glimpses {
        Ok(found) => {
            said.number("clients", found.len());
            said.answer();
        }
        Err(_) => said.refuse(true),
    }
    drop(glimpses);
}

/// Asks how many messages are known for each client, and prints for how many clients that is.
fn show_known<W: Wait>(rt: &W, said: &mut Said, shift: &Shared<Folded>) {
    let glimpses = shift.glance(rt, said.alloc, b"", 9);
    match beside(said, glimpses) {
        Some(clients) => {
            show_known_of(rt, said, shift, clients.as_slice());
            drop(clients);
        }
        None => {}
    }
}

/// The same for these clients.
fn show_known_of<W: Wait>(rt: &W, said: &mut Said, shift: &Shared<Folded>, clients: &[Glimpse]) {
    let known = shift.messages_known(rt, said.alloc, clients, 1);
    match &known {
        Ok(counts) => {
            said.number("counts", counts.len());
            said.answer();
        }
        Err(_) => said.refuse(true),
    }
    drop(known);
}

/// Ends a shift: its pass has all calls.
fn close(said: &mut Said, shift: Shared<Folded>, pass: Option<Pass>, calls: u64) {
    let passes = listed(said, pass);
    let closing = closed_by(end(shift), passes);
    look_closed(said, &closing, calls);
    drop(closing);
}

/// A list of the pass, if there is one.
fn listed(said: &mut Said, pass: Option<Pass>) -> Vec<Pass> {
    let mut passes = Vec::new(said.alloc);
    if let Some(pass) = pass {
        add(said, &mut passes, pass);
    }
    passes
}

/// A pass comes after the others.
fn add(said: &mut Said, passes: &mut Vec<Pass>, pass: Pass) {
    let pushed = passes.push(pass);
    let is_short = pushed.is_err();
    drop(pushed);
    said.stop_if_short(is_short);
}

/// A shift is over.
fn end(shift: Shared<Folded>) -> Over<Folded> {
    shift.end()
}

/// A shift that is over is closed with passes, or comes back with them.
fn closed_by(over: Over<Folded>, passes: Vec<Pass>) -> Closing<Folded> {
    over.close(passes)
}

/// Looks whether a shift was closed, and has so many calls.
fn look_closed(said: &mut Said, closing: &Closing<Folded>, calls: u64) {
    match closing {
        Ok(closed) => said.keep(closed.history.len() as u64 == calls),
        Err(_) => said.stop(Stop::Other),
    }
}
