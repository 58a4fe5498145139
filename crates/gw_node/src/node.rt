//! One gateway.
//!
//! A node remembers two things so that it need not look for them again. Contracts see neither. Each
//! has a ghost field that says what is so, so the prover refuses a change that does not forget it.
//!
//! - `idle`: no tick up to this second has anything to do. What a tick finds depends on the moment
//!   only by what is long enough ago, so a tick that finds nothing ten seconds ahead answers for
//!   every moment before (`idle_lasts` of step_laws). Each frame that is carried out and each delta
//!   clears it. If something is due within those seconds, a tick walks the clients twice.
//! - `tidy`: the gateway owns the client of each address and of each timer (`gw_own`).

ghost use Rattle.std.specs.Prelude.{◌≡◌, true};
ghost use Rattle.gw_node.specs.inner.Resting.{rests};
ghost use Rattle.gw_own.specs.inner.Tidy.{tidied};

use super::carrying::write_and_take;
use super::handling::{
    handle_answer, handle_digest, handle_frame, handle_step, handle_tick, handle_view,
};
use super::opening::{not_opened, nothing, start};
use super::retained::retained_of;
use super::rewriting::{handle_compact, handle_reopen};
use super::row::{Reply, USUAL, WHOLE, play};
use gw_answer::{Answer, NodeFault, Step, one_share, three_shares};
use gw_glance::{glance, messages_known};
use gw_report::Glimpse;
use jr_journal::{Disk, Journal, MemoryDisk};
use octets::NoMemory;
use rep_digest::Digest;
use rep_model::Replica;
use rep_ops::{ClientId, Delta, Retained};
use sn_local::{Addr, Config, Dialogs};
use sn_topic::TopicName;
use std::alloc::Global;
use std::sync::Arc;

/// A gateway: what it was told, what it keeps of what it has taken, which address is which client,
/// and its journal.
#[derive(Drop)]
pub struct Node<R: Replica, D: Disk> {
    pub(crate) config: Config,
    pub(crate) replica: R,
    pub(crate) dialogs: Dialogs,
    pub(crate) journal: Journal<D>,
    pub(crate) records: u64,
    /// Until when ticks have nothing to do, where that was found out and nothing has changed since.
    pub(crate) idle: Option<u64>,
    ghost is_idle_until: { rests idle config (R.kept replica) dialogs.local ≡ true },
    /// Whether each address and each timer is known to be of a client that the gateway owns.
    pub(crate) tidy: bool,
    ghost is_tidy: { tidied tidy config.gateway (R.kept replica) dialogs.local ≡ true },
}

impl<R: Replica, D: Disk + Drop> Node<R, D> {
    ghost use Rattle.std.specs.Prelude.{◌≡◌, ◌≤◌, ◌<◌, ◌+◌, ◌++◌, List, [], None, true, false, length, map, vec_capacity, IfOk, IfErr, OnOk, IsTrue, MatchResult, take};
    ghost use Rattle.std.specs.Arc.{arc_value};
    ghost use Rattle.rep_op.specs.declared.op.Op.{Op};
    ghost use Rattle.rep_ops.specs.Splitting.{all_of};
    ghost use Rattle.rep_model.specs.Keep.{CountsAs};
    ghost use Rattle.rep_model.specs.Held.{IsHeld};
    ghost use Rattle.rep_model.specs.Views as views;
    ghost use Rattle.rep_model.specs.Topics.{all_retained};
    ghost use Rattle.jr_disk.specs.Disk.{image};
    ghost use Rattle.jr_journal.specs.Records.{records};
    ghost use Rattle.jr_journal.specs.Faults.{is_fresh, fault_of};
    ghost use Rattle.jr_journal.specs.Crashes.{recovered, LeavesNoMore};
    ghost use Rattle.jr_journal.specs.Arranged.{misses_failure};
    ghost use Rattle.gw_answer.specs.declared.step.Step.TheVariants as steps;
    ghost use Rattle.gw_event.specs.Occasions.{Datagram, Clock};
    ghost use Rattle.gw_node.specs.Parts.{state_of, disk_of, records_of};
    ghost use Rattle.gw_node.specs.Parts as spec;
    ghost use Rattle.gw_answer.specs.Answers.{refusal_of_fault, said};
    ghost use Rattle.gw_node.specs.Calls.{OwnCall, TakeCall, ViewCall, DigestCall, AnswerCall, CompactCall, StepCall};
    ghost use Rattle.gw_node.specs.Keeping.{Keeps};
    ghost use Rattle.gw_node.specs.Taking.{RecoversTo, HasTaken};
    ghost use Rattle.gw_node.specs.Opening.{IsStarted, FitInTurn, MayRefuse, IsDiskFault, IsOpenFault, LeavesSlots, GoesOnIn, ReopenCall};
    ghost use Rattle.gw_node.specs.Standing.{EventOn, EventsOn};
    ghost use Rattle.gw_node.specs.Failures.{failed_all};
    ghost use Rattle.gw_node.specs.Glancing.{glimpses_of};
    ghost use Rattle.gw_glance.specs.Knowing as known;

    /// Opens a gateway on the disk of its journal, and takes what the journal holds; nothing of
    /// that is written again. The gateway begins without bindings, dialogs and timers.
    ///
    /// First the journal is opened: `Disk` only where the disk failed, with nothing to be sent;
    /// `Journal` for what is in the slots. Then its records are taken, one after the other:
    /// `Conflict` and `Full` for one that does not fit to those before it. `Memory` may stand in
    /// the place of each. With a fault the disk comes back. Its slots may be synced by then, a torn
    /// record cut away or a journal begun; on an honest disk no crash leaves what it could not have
    /// left before.
    pub fn open(alloc: Global, config: Config, disk: D) -> Result<Node<R, D>, (D, NodeFault)>
        ensures starts { IfOk result (λ node. IsStarted config (state_of R.kept node)) }
        ensures may { IfErr result (λ refused. MayRefuse (refusal_of_fault refused.1)) }
        ensures counts { MatchResult result (λ node. D.failures disk ≤ D.failures (disk_of node))
            (λ refused. D.failures disk ≤ D.failures refused.0) }
        ensures cause { IfErr result (λ refused. IsDiskFault (refusal_of_fault refused.1)
            → D.failures disk < D.failures refused.0) }
        ensures starved { D.starved disk ≡ true
            → MatchResult result (λ node. D.starved (disk_of node) ≡ true)
            (λ refused. D.starved refused.0 ≡ true) }
        // It takes the records of the slots as they were found,
        ensures records { D.honest → IfOk result (λ node. records_of node
            ≡ length (records config.gateway (image (D.slots disk)))) }
        ensures takes { D.honest → IfOk result
            (λ node. CountsAs (all_of (records config.gateway (image (D.slots disk))))
            (state_of R.kept node).kept) }
        // and keeps nothing that is not in them,
        ensures keeps { D.honest → IfOk result
            (λ node. Keeps (all_of (records config.gateway (image (D.slots disk))))
            (state_of R.kept node).kept) }
        ensures none { D.honest → IfOk result (λ node. records config.gateway (image (D.slots disk))
            ≡ [] → (state_of R.kept node).kept ≡ []) }
        // each of which fits to those before it,
        ensures fits { D.honest → OnOk result
            (FitInTurn [] (records config.gateway (image (D.slots disk)))) }
        // beside whatever set it had taken before it stopped.
        ensures restarts { D.honest → IfOk result (λ node. (S : List Op) (refused : List (List Op))
            → RecoversTo config.gateway S refused (image (D.slots disk)) →
            HasTaken (S ++ all_of (records config.gateway (image (D.slots disk)))) []
            (state_of R.kept node)) }
        // Where nothing was refused, that is the set itself.
        ensures durable { D.honest → IfOk result (λ node. (S : List Op)
            → RecoversTo config.gateway S [] (image (D.slots disk))
            → HasTaken S [] (state_of R.kept node)) }
        // Its journal goes on in the slot that is read.
        ensures place { D.honest → IfOk result (λ node. GoesOnIn (state_of R.kept node)
            config.gateway (image (D.slots disk))) }
        ensures known { D.honest → IfOk result (λ node. D.slots (disk_of node) ≡ recovered
            config.gateway (image (D.slots disk))) }
        // It is refused exactly where the format says so, or a record does not fit, or the disk
        // failed, or memory ran out.
        ensures found { D.honest → OnOk result
            (fault_of config.gateway (image (D.slots disk)) ≡ None) }
        ensures fault { D.honest → IfErr result (λ refused. IsOpenFault config.gateway
            (image (D.slots disk)) (refusal_of_fault refused.1)) }
        // Refused for another cause than the disk, it leaves the slots as they were, synced, or as
        // an opening leaves them.
        ensures slots { D.honest → IfErr result (λ refused. LeavesSlots config.gateway
            (D.slots disk) (refusal_of_fault refused.1) (D.slots refused.0)) }
        // Whatever refused it, no crash leaves what it could not have left before.
        ensures leaves { D.honest → IfErr result (λ refused. LeavesNoMore config.gateway
            (D.slots disk) (D.slots refused.0)) }
        // A failure that is arranged for an append stays arranged, unless a journal is begun.
        ensures quiet { D.honest → IsTrue (misses_failure (D.outlook disk)
            (is_fresh (image (D.slots disk)))) →
            IfOk result (λ node. D.starved (disk_of node) ≡ false
            → D.outlook (disk_of node) ≡ D.outlook disk) }
        ensures blameless { D.honest → IsTrue
            (misses_failure (D.outlook disk) (is_fresh (image (D.slots disk)))) →
            IfErr result (λ refused. D.starved refused.0 ≡ false
            → (IsDiskFault (refusal_of_fault refused.1) → ⊥)
            × (D.outlook refused.0 ≡ D.outlook disk)) }
    {
        let Ok(replica) = R::empty(alloc) else {
            return Err((disk, NodeFault::Memory));
        };
        let Some(out) = nothing(alloc) else {
            return Err((disk, NodeFault::Memory));
        };
        match Journal::open(alloc, disk, config.gateway) {
            Ok((journal, deltas)) => start(alloc, config, replica, journal, deltas),
            Err((disk, fault)) => Err((disk, not_opened(fault, out))),
        }
    }

    /// A datagram comes from an address at a moment, which is in seconds. The step table says what
    /// becomes of it (MQTT-SN 1.2 section 6; the frames are those of section 5.4). The operations
    /// of the step, if there are any, become one delta. It is written to the journal and synced,
    /// then it is taken and what the step notes is noted; `sends` of the answer is what is to be
    /// sent, and `made` is the delta, for the other gateways. A step without operations writes
    /// nothing.
    ///
    /// The faults, in the order in which they are looked for: `Halted`, a write of the journal has
    /// failed, or a try to open it again; `Frame`, the bytes are no frame; `Exhausted`, the step
    /// needs an epoch, a sequence number or a clock after the last; `Conflict` and `Full`, its
    /// operations cannot be taken, or make no delta; `Disk`, the disk failed. `Memory` may stand in
    /// the place of each.
    ///
    /// After `Disk` the node is halted, and what it keeps and knows is as before; `out` of the
    /// fault is to be sent: return code 1, congestion (section 5.3.10), where the frame's answer
    /// has a return code. After each other fault nothing has changed.
    pub fn frame(&mut self, alloc: Global, from: Addr, bytes: &[u8], now: u64) -> Answer
        ensures call { OwnCall (state_of R.kept self.old) (Datagram from bytes.now) now
            (said result) (state_of R.kept self.new) }
        ensures event { EventOn (state_of R.kept self.old) (steps.Frame from bytes.now now)
            (said result) (state_of R.kept self.new) }
    {
        one_share(handle_frame(alloc, self, from, bytes, now))
    }

    /// A delta of another gateway comes. If it has operations it is written to the journal and
    /// synced; then it is taken, and bindings and timers of clients that another gateway now owns
    /// are dropped. Nothing is sent, and the delta is not handed on.
    ///
    /// The faults, in the order in which they are looked for: `Halted`, a write of the journal has
    /// failed, or a try to open it again; `Conflict` and `Full`, the delta does not fit to what is
    /// kept; `Disk`, the disk failed. `Memory` may stand in the place of each. After `Disk` the
    /// node is halted, what it keeps and knows is as before, and nothing is to be sent. After each
    /// other fault nothing has changed.
    pub fn take(&mut self, alloc: Global, delta: &Delta) -> Answer
        ensures call { TakeCall (state_of R.kept self.old) delta.now (said result)
            (state_of R.kept self.new) }
        ensures event { EventOn (state_of R.kept self.old) (steps.Take delta.now) (said result)
            (state_of R.kept self.new) }
    {
        one_share(write_and_take(alloc, self, delta))
    }

    /// Time goes by: it is this moment, in seconds. One thing is done that is due: ADVERTISE
    /// (MQTT-SN 1.2 section 6.1), or what is due with one client: it is lost, and its will is
    /// published (6.3, 6.14); a frame is sent again (6.13); messages that wait are delivered
    /// (6.10). What is written to the journal, taken, noted and sent is as with `frame`, and so are
    /// the faults, of which `Frame` never comes. Nobody waits for the answer to a tick, so after
    /// `Disk` nothing is to be sent.
    pub fn tick(&mut self, alloc: Global, now: u64) -> Answer
        ensures call { OwnCall (state_of R.kept self.old) Clock now (said result)
            (state_of R.kept self.new) }
        ensures event { EventOn (state_of R.kept self.old) (steps.Tick now) (said result)
            (state_of R.kept self.new) }
    {
        one_share(handle_tick(alloc, self, now))
    }

    /// Somebody asks for a client's view: `view` of the answer, or none where nothing names the
    /// client. A halted node answers too. The only fault is `Memory`.
    pub fn view(&self, alloc: Global, client: &ClientId) -> Answer
        ensures call { ViewCall (state_of R.kept self.now) client.now (said result)
            (state_of R.kept self.now) }
        ensures event { EventOn (state_of R.kept self.now) (steps.View client.now) (said result)
            (state_of R.kept self.now) }
    {
        one_share(handle_view(alloc, self, client))
    }

    /// A gateway asks for the digest: `digest` of the answer. A halted node answers too. The
    /// faults: `Full` where the digest would be longer than 8,388,608 octets, or `Memory`.
    pub fn digest(&self, alloc: Global) -> Answer
        ensures call { DigestCall (state_of R.kept self.now) (said result)
            (state_of R.kept self.now) }
        ensures event { EventOn (state_of R.kept self.now) steps.Digest (said result)
            (state_of R.kept self.now) }
    {
        one_share(handle_digest(alloc, self))
    }

    /// A gateway asks for what its digest does not cover: `answer`, the operations that must be
    /// kept here and that the digest does not cover. With them that gateway has what it would have
    /// with all that this one has. A halted node answers too. The only fault is `Memory`.
    pub fn answer(&self, alloc: Global, digest: &Digest) -> Answer
        ensures call { AnswerCall (state_of R.kept self.now) digest.now (said result)
            (state_of R.kept self.now) }
        ensures event { EventOn (state_of R.kept self.now) (steps.Answer digest.now) (said result)
            (state_of R.kept self.now) }
    {
        one_share(handle_answer(alloc, self, digest))
    }

    /// The journal is to hold what is kept, and nothing else: what is kept is written into its
    /// other slot and synced, and the journal goes on there. The node keeps and knows what it did,
    /// and nothing is sent.
    ///
    /// The faults, in the order in which they are looked for: `Halted`, a write of the journal has
    /// failed, or a try to open it again; `Journal` with `Foreign`, the journal's generation is the
    /// last that a header can hold; `Disk`, the disk failed. `Memory` may stand in the place of
    /// each. After `Disk` the node is halted, and a crash leaves the records from before, or what
    /// is kept. After each other fault nothing has changed.
    pub fn compact(&mut self, alloc: Global) -> Answer
        ensures call { CompactCall (state_of R.kept self.old) (said result)
            (state_of R.kept self.new) }
        ensures event { EventOn (state_of R.kept self.old) steps.Compact (said result)
            (state_of R.kept self.new) }
    {
        one_share(handle_compact(alloc, self))
    }

    /// The gateway is opened again, halted or not, from what its disk holds; see `open`. It goes on
    /// without bindings, dialogs and timers, and nothing is sent. A delta that was refused with
    /// `Disk` is taken if all of it had reached the disk, else it is cut away.
    ///
    /// The faults are those of `open`. After each of them the node keeps and knows what it did; it
    /// is halted, but after `Memory` it is halted or not as before.
    pub fn reopen(&mut self, alloc: Global) -> Answer
        ensures call { ReopenCall (state_of R.kept self.old) (said result)
            (state_of R.kept self.new) }
        ensures event { EventOn (state_of R.kept self.old) steps.Reopen (said result)
            (state_of R.kept self.new) }
    {
        one_share(handle_reopen(alloc, self))
    }

    /// A call as a value. Its answer is given three times: the shares are taken before the journal
    /// is written, so that a call that was done can always be told.
    pub fn step(&mut self, alloc: Global, step: &Step) -> (Answer, Answer, Answer)
        ensures call { StepCall (state_of R.kept self.old) step.now (said result.0)
            (state_of R.kept self.new) }
        ensures event { EventOn (state_of R.kept self.old) step.now (said result.0)
            (state_of R.kept self.new) }
        ensures second { said result.1 ≡ said result.0 }
        ensures third { said result.2 ≡ said result.0 }
    {
        three_shares(handle_step(alloc, self, step))
    }

    /// Calls one after the other, of which what they make and take is written at once, with one
    /// sync. The first ones are done, and the first at least: as many as there are answers. The
    /// others are for another row.
    ///
    /// Each call is answered as if it came alone, on what those before it led to; and its answer is
    /// given in shares, which are taken before the journal is written. Where the disk fails, `Disk`
    /// is told to the first call that had something to write, with its excuse, and `Halted` to
    /// those behind it; what the node keeps and knows is as before that first one. Of the deltas
    /// that were to be written a crash may leave some first ones, each whole.
    ///
    /// A call is done alone if it is no datagram, delta or tick, if the node is halted, if it has
    /// nothing to write or more than 64 operations, and where memory runs out for a row. A row ends
    /// before such a call, and once its records have more than 1,048,576 octets; but a datagram, a
    /// delta or a tick that has nothing to write may stand behind the first call.
    pub fn step_all(&mut self, alloc: Global, steps: &[Arc<Step>], room: Vec<Reply>) -> Vec<Reply>
        requires some { 0 < length steps.now }
        requires room { (room.items ≡ []) × (length steps.now ≤ vec_capacity room) }
        ensures some { (0 < length result.items) × (length result.items ≤ length steps.now) }
        ensures events { EventsOn (state_of R.kept self.old)
            (take (length result.items) (map arc_value steps.now)) result.items
            (state_of R.kept self.new) }
        ensures failures { D.failures (disk_of self.old) + failed_all result.items
            ≤ D.failures (disk_of self.new) }
    {
        play(alloc, self, USUAL, &steps[0], &steps[1..], room)
    }

    /// Calls one after the other, of which what they make and take is written at once, as
    /// `step_all` carries them out, but without its bounds. No call is done alone and no row ends
    /// because there are too many operations, or octets of records. So where the disk fails, and
    /// memory did not run out, all calls behind the first that had something to write were in the
    /// write.
    pub fn step_whole(&mut self, alloc: Global, steps: &[Arc<Step>], room: Vec<Reply>) -> Vec<Reply>
        requires some { 0 < length steps.now }
        requires room { (room.items ≡ []) × (length steps.now ≤ vec_capacity room) }
        ensures some { (0 < length result.items) × (length result.items ≤ length steps.now) }
        ensures events { EventsOn (state_of R.kept self.old)
            (take (length result.items) (map arc_value steps.now)) result.items
            (state_of R.kept self.new) }
        ensures failures { D.failures (disk_of self.old) + failed_all result.items
            ≤ D.failures (disk_of self.new) }
    {
        play(alloc, self, WHOLE, &steps[0], &steps[1..], room)
    }

    /// The gateway's number.
    pub fn gateway(&self) -> u8
        ensures { result ≡ (state_of R.kept self.now).config.gateway }
    {
        self.config.gateway
    }

    /// Whether a write has failed since the node was opened, or an attempt to open it again.
    pub fn is_halted(&self) -> bool
        ensures { result ≡ spec.is_halted (state_of R.kept self.now) }
    {
        self.journal.is_halted()
    }

    /// The disk as it stands.
    pub fn into_disk(self) -> D
        ensures { result ≡ disk_of self }
    {
        self.journal.into_disk()
    }

    /// What the gateway was told, and its disk as it stands: with both it can be opened again.
    pub fn into_parts(self) -> (Config, D)
        ensures config { result.0 ≡ (state_of R.kept self).config }
        ensures disk { result.1 ≡ disk_of self }
    {
        (self.config, self.journal.into_disk())
    }

    /// How many records were read when the node was last opened.
    pub fn records(&self) -> u64
        ensures { result ≡ records_of self.now }
    {
        self.records
    }

    /// The operations that must be kept, in the order of their names, as deltas of which each but
    /// the last is as full as it can be. A halted node tells them too.
    pub fn held(&self, alloc: Global) -> Result<Vec<Delta>, NoMemory>
        ensures { IfOk result (λ deltas. IsHeld (state_of R.kept self.now).kept deltas.items) }
    {
        match self.replica.held(alloc) {
            Ok(deltas) => Ok(deltas),
            Err(_) => Err(NoMemory),
        }
    }

    /// What is retained of each topic of which something ever was, in ascending order of the
    /// topics; with an empty body where that was ended. A halted node tells it too.
    pub fn retained(&self, alloc: Global) -> Result<Vec<(TopicName, Retained)>, NoMemory>
        ensures { IfOk result (λ all. all.items ≡ all_retained (state_of R.kept self.now).kept) }
    {
        retained_of(alloc, &self.replica)
    }

    /// The clients that the node knows, in ascending order.
    pub fn clients(&self, alloc: Global) -> Result<Vec<ClientId>, NoMemory>
        ensures { IfOk result
            (λ all. all.items ≡ views.clients (state_of R.kept self.now).kept) }
    {
        match self.replica.clients(alloc) {
            Ok(clients) => Ok(clients),
            Err(_) => Err(NoMemory),
        }
    }

    /// The clients at a glance whose ids are above these octets, in ascending order, at most so
    /// many. A halted node shows them too. It is no call of the node, and changes nothing.
    pub fn glance(&self, alloc: Global, above: &[u8], most: usize) -> Result<Vec<Glimpse>, NoMemory>
        ensures { IfOk result (λ all. all.items
            ≡ take most (glimpses_of (state_of R.kept self.now) above.now)) }
    {
        let config = &self.config;
        glance(
            alloc,
            config.gateway,
            &self.replica,
            &self.dialogs,
            above,
            most,
        )
    }

    /// How many messages a gateway has put for a client, as far as this one knows: those that are
    /// acknowledged count too.
    pub fn messages_known(&self, client: &ClientId, origin: u8) -> u64
        ensures { result
            ≡ known.messages_known client.now origin (state_of R.kept self.now).kept }
    {
        messages_known(&self.replica, client, origin)
    }
}

impl<R: Replica> Node<R, MemoryDisk> {
    ghost use Rattle.gw_node.specs.Parts.{state_of, disk_of};
    ghost use Rattle.gw_node.specs.Arranging.{Arranges};
    ghost use Rattle.gw_node.specs.Carrying.{TakesNothing};

    /// Whether memory was refused in the disk.
    pub fn starved(&self) -> bool
        ensures { result ≡ (disk_of self.now).starved }
    {
        self.journal.starved()
    }

    /// Arranges a failure on the disk of its journal, in place of one that was arranged before, and
    /// changes nothing else: the next append goes out and its sync fails, or the next append stops
    /// after so many bytes.
    pub fn fail_next(&mut self, bytes: usize, sync: bool)
        ensures call { Arranges bytes sync (state_of R.kept self.old) (state_of R.kept self.new) }
        ensures taken { TakesNothing (state_of R.kept self.old) (state_of R.kept self.new) }
    {
        self.journal.fail_next(bytes, sync);
    }
}
