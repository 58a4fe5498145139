//! The step table.

ghost use Rattle.std.specs.Prelude.{IfSome};
ghost use Rattle.sn_frame.specs.Bodies.{IsMessage};

use crate::refusals::calls::{Calls, Made, Shown, beside, is_word};
use crate::refusals::deltas::{client, delta_of, octets_of};
use crate::refusals::locals::{HERE, change, config};
use crate::refusals::replicas::{new, take};
use crate::refusals::said::{Said, Stop};
use octets::{NoMemory, Sequence};
use rep_model::Replica;
use rep_ops::{ClientId, Op};
use sn_deliver::{ack_in, publish_in, pubrel_in, step, wake};
use sn_exchange::{Visit, deliver_next, peer_at, visited};
use sn_flow::{connect, disconnect, will_msg, will_msg_update, will_topic, will_topic_update};
use sn_frame::{Flags, Frame, decode};
use sn_local::{Config, Dialogs, Send, StepFault};
use sn_plan::{Bound, Plan, Row, Scene, other, plan_of_row, session_in, unseen, view_or};
use sn_publish::Publication;
use sn_session::Session;
use sn_subscribe::{Asking, register, subscribe, unsubscribe};
use sn_tick::tick;
use std::alloc::Global;

/// When a tick comes.
const LATER: u64 = 20;

/// What comes before each call, and what comes then, each a datagram in hexadecimal digits; `tick`
/// stands for time that passes.
const COMES: &str = "
connect: > 08040401003c7331
step: > 08040401003c7331
other: > 030100
disconnect: 08040401003c7331 > 0418012c
wake: 08040401003c7331 0418012c > 04167331
register: 08040401003c7331 > 090a00000001742f61
subscribe: 08040401003c7331 > 0812200002742f23
unsubscribe: 08040401003c7331 0812200002742f23 > 0814000003742f23
will_topic: 08040c01003c7331 > 060700742f61
will_msg: 08040c01003c7331 060700742f61 > 0609676f6e65
will_topic_update: 08040c01003c7331 060700742f61 0609676f6e65 > 061a00742f62
will_msg_update: 08040c01003c7331 060700742f61 0609676f6e65 > 061c68657265
publish_in: 08040401003c7331 0812200002742f61 > 080c200001000478
pubrel_in: 08040401003c7331 090a00000001742f61 080c400001000578 > 04100005
ack_in: 08040401003c7331 0812200002742f61 080c200001000478 tick > 070d0001000100
deliver_next: 08040401003c7331 07122200026162 0418012c 080c626162000078 > 04167331
visited: 08040401003c7331 07122200026162 0418012c 080c626162000078 > 04167331
tick: 08040401003c7331 0812200002742f61 080c200001000478 > tick
";

/// A gateway without a journal, its client, and what comes when the call is made.
pub(crate) struct Steps<R: Replica> {
    config: Config,
    replica: R,
    dialogs: Dialogs,
    client: ClientId,
    last: &'static str,
}

impl<R: Replica> Drop for Steps<R> {
    fn drop(self) {
        let Steps {
            config,
            replica,
            dialogs,
            client,
            last: _,
        } = self;
        drop(config);
        drop(replica);
        drop(dialogs);
        drop(client);
    }
}

/// What comes before a call, and what comes then.
fn comes(call: &str) -> (&'static str, &'static str) {
    for line in COMES.lines() {
        if let Some((name, both)) = line.split_once(": ") {
            if is_word(name, call) {
                return both.split_once("> ").unwrap_or(("", ""));
            }
        }
    }
    ("", "")
}

impl<R: Replica> Made for Steps<R> {
    fn make(said: &mut Said, call: &str, _is_second: bool) -> Option<Steps<R>> {
        let (earlier, last) = comes(call);
        match fresh(said, last) {
            Some(steps) => Some(heard(said, steps, earlier)),
            None => None,
        }
    }
}

/// A gateway that hears what comes before the call.
fn heard<R: Replica>(said: &mut Said, mut steps: Steps<R>, earlier: &str) -> Steps<R> {
    for word in earlier.split_whitespace() {
        steps.hear(said, word);
    }
    steps
}

impl<R: Replica> Calls for Steps<R> {
    fn call_once(&mut self, said: &mut Said, call: &str) {
        match call {
            "step" | "tick" => self.step_once(said),
            "deliver_next" => self.deliver_once(said),
            "visited" => self.visit_once(said),
            _ => self.row_once(said),
        }
    }
}

/// A gateway that has heard nothing.
fn fresh<R: Replica>(said: &mut Said, last: &'static str) -> Option<Steps<R>> {
    match client(said) {
        Some(client) => fresh_for(said, client, last),
        None => None,
    }
}

/// A gateway with this client.
fn fresh_for<R: Replica>(
    said: &mut Said,
    client: ClientId,
    last: &'static str,
) -> Option<Steps<R>> {
    match config(said) {
        Some(config) => fresh_told(said, client, config, last),
        None => {
            drop(client);
            None
        }
    }
}

/// A gateway with this client, which is told this.
fn fresh_told<R: Replica>(
    said: &mut Said,
    client: ClientId,
    config: Config,
    last: &'static str,
) -> Option<Steps<R>> {
    match new(said) {
        Some(replica) => Some(Steps {
            config,
            replica,
            dialogs: Dialogs::empty(said.alloc),
            client,
            last,
        }),
        None => {
            drop(client);
            drop(config);
            None
        }
    }
}

/// The frame of a datagram.
fn read(said: &mut Said, digits: &str) -> Option<Frame>
    ensures { IfSome result IsMessage }
{
    let octets = octets_of(said, &[digits]);
    let read = decode(said.alloc, octets.as_slice());
    drop(octets);
    match read {
        Ok(frame) => Some(frame),
        Err(_) => {
            said.stop(Stop::Memory);
            None
        }
    }
}

impl<R: Replica> Steps<R> {
    /// What a row reads beside the frame.
    fn scene(&self) -> Scene<'_, R> {
        Scene {
            config: &self.config,
            replica: &self.replica,
            dialogs: &self.dialogs,
            from: HERE,
            moment: 1,
        }
    }

    /// The plan of a datagram, which is read beside it, or of a tick.
    fn planned(&self, said: &mut Said, word: &str) -> Option<Result<Plan, StepFault>> {
        if is_word(word, "tick") {
            Some(self.ticked(said.alloc))
        } else {
            self.stepped(said, word)
        }
    }

    /// The plan of a tick.
    fn ticked(&self, alloc: Global) -> Result<Plan, StepFault> {
        tick(alloc, &self.config, &self.replica, &self.dialogs, LATER)
    }

    /// The plan of a datagram, which is read beside it.
    fn stepped(&self, said: &mut Said, digits: &str) -> Option<Result<Plan, StepFault>> {
        let (config, replica, dialogs) = (&self.config, &self.replica, &self.dialogs);
        match read(said, digits) {
            Some(frame) => {
                let planned = step(said.alloc, config, replica, dialogs, HERE, &frame, 1);
                drop(frame);
                Some(planned)
            }
            None => None,
        }
    }

    /// A datagram or a tick comes before the call.
    fn hear(&mut self, said: &mut Said, word: &str) {
        if let Some(planned) = self.planned(said, word) {
            if let Some(plan) = beside(said, planned) {
                self.take(said, plan);
            }
        }
    }

    /// Takes a plan: its operations, and what is in no set of operations.
    fn take(&mut self, said: &mut Said, plan: Plan) {
        let Plan { ops, sends, local } = plan;
        drop(sends);
        self.take_ops(said, ops.into_vec());
        let changed = change(&mut self.dialogs, local);
        said.stop_if_short(changed.is_err());
    }

    /// Takes operations.
    fn take_ops(&mut self, said: &mut Said, ops: Vec<Op>) {
        if let Some(delta) = delta_of(said, ops) {
            take(said, &mut self.replica, &delta);
            drop(delta);
        }
    }

    /// Asks for the plan of what comes.
    fn step_once(&self, said: &mut Said) {
        if let Some(planned) = self.planned(said, self.last) {
            show_planned(said, planned);
        }
    }

    /// Asks for the plan of the datagram's row, with what follows it.
    fn deliver_once(&self, said: &mut Said) {
        if let Some(made) = self.row(said) {
            if let Some(row) = beside(said, made) {
                let scene = self.scene();
                let plan = deliver_next(said.alloc, &scene, row);
                show_planned(said, plan);
            }
        }
    }

    /// Asks for the datagram's row with what follows it, by the view of its client.
    fn visit_once(&self, said: &mut Said) {
        if let Some(made) = self.row(said) {
            if let Some(row) = beside(said, made) {
                let made = self.visited(said.alloc, row);
                self.show_made(said, made);
            }
        }
    }

    /// A row with what follows it, by the view of the client.
    fn visited(&self, alloc: Global, row: Row) -> Result<Row, NoMemory> {
        let empty = Session::empty(alloc);
        let nobody = unseen(alloc);
        let view = view_or(&self.replica, &self.client, &nobody);
        let bound = Bound {
            client: &self.client,
            view,
            session: session_in(view, &empty),
        };
        let made = visited_row(alloc, &self.scene(), &bound, row);
        drop(empty);
        drop(nobody);
        made
    }

    /// Asks for the row of the datagram, and prints its plan.
    fn row_once(&self, said: &mut Said) {
        if let Some(made) = self.row(said) {
            self.show_made(said, made);
        }
    }

    /// Prints the plan of a row that was asked for.
    fn show_made(&self, said: &mut Said, made: Result<Row, NoMemory>) {
        match made {
            Ok(row) => self.show_row(said, row),
            Err(_) => said.refuse(true),
        }
    }

    /// Prints the plan of a row, which is made beside it.
    fn show_row(&self, said: &mut Said, row: Row) {
        let made = plan_of_row(said.alloc, 1, &self.replica, row);
        if let Some(plan) = beside(said, made) {
            show_plan(said, plan);
            said.answer();
        }
    }

    /// The row of the datagram, which is read beside it.
    fn row(&self, said: &mut Said) -> Option<Result<Row, NoMemory>> {
        match read(said, self.last) {
            Some(frame) => {
                let row = self.row_of(said.alloc, &frame);
                drop(frame);
                Some(row)
            }
            None => None,
        }
    }

    /// The row of a frame, whose client is looked up if it is bound.
    fn row_of(&self, alloc: Global, frame: &Frame) -> Result<Row, NoMemory> {
        let empty = Session::empty(alloc);
        let nobody = unseen(alloc);
        let view = view_or(&self.replica, &self.client, &nobody);
        let bound = Bound {
            client: &self.client,
            view,
            session: session_in(view, &empty),
        };
        let row = self.row_by(alloc, &bound, frame);
        drop(empty);
        drop(nobody);
        row
    }

    /// The row of a frame. Each of the functions below knows some frames, and leaves all others to
    /// the next.
    fn row_by(&self, alloc: Global, bound: &Bound<'_>, frame: &Frame) -> Result<Row, NoMemory> {
        let scene = self.scene();
        match frame {
            Frame::Connect {
                flags,
                protocol,
                duration,
                ..
            } => connect(alloc, &scene, *flags, *protocol, *duration, &self.client),
            Frame::WillTopic { will } => will_topic(alloc, &scene, will),
            Frame::WillMsg { message } => will_msg(alloc, &scene, message.as_slice()),
            Frame::PingReq { .. } => wake(alloc, &scene, b"s1"),
            Frame::SearchGw { .. } => other(alloc, &scene, frame),
            frame => session_row_of(alloc, &scene, bound, frame),
        }
    }
}

/// The row of a frame that is about a session.
fn session_row_of<R: Replica>(
    alloc: Global,
    scene: &Scene<'_, R>,
    bound: &Bound<'_>,
    frame: &Frame,
) -> Result<Row, NoMemory> {
    match frame {
        Frame::Disconnect { duration } => disconnect(alloc, scene, bound, *duration),
        Frame::WillTopicUpd { will } => will_topic_update(alloc, scene, bound, will),
        Frame::WillMsgUpd { message } => {
            will_msg_update(alloc, scene, bound, message.as_slice())
        }
        Frame::PubAck { .. } => acknowledged(alloc, scene, bound, frame),
        frame => message_row_of(alloc, scene, bound, frame),
    }
}

/// The row of an acknowledgement.
fn acknowledged<R: Replica>(
    alloc: Global,
    scene: &Scene<'_, R>,
    bound: &Bound<'_>,
    frame: &Frame,
) -> Result<Row, NoMemory> {
    let peer = peer_at(alloc, scene.from, bound.client, scene.moment)?;
    let visit = Visit {
        predefined: &scene.config.predefined,
        peer: &peer,
        session: bound.session,
        pending: bound.view.pending.as_slice(),
    };
    ack_in(alloc, &visit, frame)
}

/// A row with what follows it.
fn visited_row<R: Replica>(
    alloc: Global,
    scene: &Scene<'_, R>,
    bound: &Bound<'_>,
    row: Row,
) -> Result<Row, NoMemory> {
    let peer = match peer_at(alloc, scene.from, bound.client, scene.moment) {
        Ok(peer) => peer,
        Err(fault) => {
            drop(row);
            return Err(fault);
        }
    };
    let visit = Visit {
        predefined: &scene.config.predefined,
        peer: &peer,
        session: bound.session,
        pending: bound.view.pending.as_slice(),
    };
    visited(alloc, &visit, row)
}

/// The row of a frame that is about a message.
fn message_row_of<R: Replica>(
    alloc: Global,
    scene: &Scene<'_, R>,
    bound: &Bound<'_>,
    frame: &Frame,
) -> Result<Row, NoMemory> {
    match frame {
        Frame::Publish {
            flags,
            topic,
            msg_id,
            body,
        } => {
            let publication = Publication {
                flags: *flags,
                topic: *topic,
                msg_id: *msg_id,
                body,
            };
            publish_in(alloc, scene, bound, &publication)
        }
        Frame::PubRel { msg_id } => pubrel_in(alloc, scene, bound, *msg_id),
        frame => topic_row_of(alloc, scene, bound, frame),
    }
}

/// The row of a frame that is about topics.
fn topic_row_of<R: Replica>(
    alloc: Global,
    scene: &Scene<'_, R>,
    bound: &Bound<'_>,
    frame: &Frame,
) -> Result<Row, NoMemory> {
    match frame {
        Frame::Register { msg_id, name, .. } => {
            register(alloc, scene, bound, *msg_id, name.as_slice())
        }
        Frame::Subscribe {
            flags,
            msg_id,
            topic,
        } => subscribe(
            alloc,
            scene,
            bound,
            &asking(*flags, *msg_id, topic.as_slice()),
        ),
        Frame::Unsubscribe {
            flags,
            msg_id,
            topic,
        } => unsubscribe(
            alloc,
            scene,
            bound,
            &asking(*flags, *msg_id, topic.as_slice()),
        ),
        _ => Err(NoMemory),
    }
}

/// What a client asks for.
fn asking(flags: Flags, msg_id: u16, field: &[u8]) -> Asking<'_> {
    Asking {
        flags,
        msg_id,
        field,
    }
}

/// Prints the plan that a call gives.
fn show_planned(said: &mut Said, planned: Result<Plan, StepFault>) {
    match planned {
        Ok(plan) => {
            show_plan(said, plan);
            said.answer();
        }
        Err(fault) => said.refuse(matches!(&fault, StepFault::Memory)),
    }
}

/// Prints what a plan sends, and its operations.
fn show_plan(said: &mut Said, plan: Plan) {
    let Plan { ops, sends, local } = plan;
    drop(local);
    show_sends(said, sends);
    if let Some(delta) = delta_of(said, ops.into_vec()) {
        delta.show(said);
        drop(delta);
    }
}

/// Prints datagrams.
fn show_sends(said: &mut Said, sends: Sequence<Send>) {
    for send in sends.as_slice() {
        said.octets(send.bytes.as_slice());
    }
    drop(sends);
}
