//! What a row of the step table says.

ghost use Rattle.std.specs.Prelude.{◌≡◌, ◌≤◌, ◌++◌, [], map, OnOk, IfOk, IsOk, IsTrue, ◌↔◌, Err};
ghost use Rattle.sn_frame.specs.declared.frame.TheConstants.{MAX_FRAME};
ghost use Rattle.sn_frame.specs.Bodies.{IsMessage};
ghost use Rattle.sn_frame.specs.Grammar.{total_of, spelling};
ghost use Rattle.rep_op.specs.Orders.{name_of};

use octets::{NoMemory, Octets};
use rep_model::rep_ops::{ClientId, Put};
use sn_frame::{EncodeFault, Frame, encode};
use sn_local::{Addr, LocalChange, Send};
use sn_session::{Message, SessionOp};
use sn_tables::QosLevel;
use sn_topic::TopicName;
use std::alloc::{AllocError, Global};
use std::marker::Model;
use std::mem;

/// A message for a client, before it has a sequence number.
#[derive(Drop)]
pub struct NewPut {
    /// Whom it is for.
    pub client: ClientId,
    /// The name that it was published under.
    pub topic: TopicName,
    /// At which quality of service the client gets it: 0, 1 or 2.
    pub qos: QosLevel,
    /// What is published.
    pub body: Message,
}

/// What is posted to a topic: for whoever subscribes later, or handed to one that subscribes.
#[derive(Drop)]
pub struct Posted {
    /// The name that it is published under.
    pub topic: TopicName,
    /// At which quality of service: 0, 1 or 2.
    pub qos: QosLevel,
    /// What is published; if it is empty, nothing is retained.
    pub body: Message,
}

/// What a step does, before its operations have names. Contracts see its parts (`Drafted`).
#[derive(Drop)]
pub struct Draft {
    pub(crate) changes: Vec<SessionOp>,
    pub(crate) acks: Vec<(u64, u8)>,
    pub(crate) handed: Vec<Posted>,
    pub(crate) retain: Option<Posted>,
    pub(crate) puts: Vec<NewPut>,
    pub(crate) expires: u64,
    pub(crate) sends: Vec<Send>,
    pub(crate) local: Vec<LocalChange>,
}

impl Model for Draft {
    ghost use Rattle.sn_plan.specs.Drafts.{Drafted};

    ghost Value = { Drafted };

    ghost view = { λ d. record {
      changes = d.changes.items;
      acks = d.acks.items;
      handed = d.handed.items;
      retain = d.retain;
      puts = d.puts.items;
      expires = d.expires;
      sends = d.sends.items;
      local = d.local.items;
    } };
}

impl Draft {
    ghost use Rattle.sn_plan.specs.Drafts.{nothing, changed, changed_if, acked, acked_all, lasting, sent, moved};
    ghost use Rattle.sn_plan.specs.Drafts as spec;

    /// A step that does nothing.
    pub fn new(alloc: Global) -> Draft
        ensures { result ≡ nothing }
    {
        Draft {
            changes: Vec::new(alloc),
            acks: Vec::new(alloc),
            handed: Vec::new(alloc),
            retain: None,
            puts: Vec::new(alloc),
            expires: 0,
            sends: Vec::new(alloc),
            local: Vec::new(alloc),
        }
    }

    /// A step that sends this frame and does nothing else.
    pub fn reply(alloc: Global, to: Addr, frame: Frame) -> Result<Draft, NoMemory>
        requires message { IsMessage frame }
        requires size { total_of frame ≤ MAX_FRAME }
        ensures { IfOk result (λ draft. draft ≡ sent to frame nothing) }
    {
        let mut draft = Draft::new(alloc);
        match draft.send(alloc, to, frame) {
            Ok(()) => Ok(draft),
            Err(fault) => {
                drop(draft);
                Err(fault)
            }
        }
    }

    /// The changes of the session so far.
    pub fn changes(&self) -> &[SessionOp]
        ensures { result.now ≡ self.now.changes }
    {
        self.changes.as_slice()
    }

    /// The puts that are acknowledged so far, by sequence number and origin.
    pub fn acks(&self) -> &[(u64, u8)]
        ensures { result.now ≡ self.now.acks }
    {
        self.acks.as_slice()
    }

    /// Whether the session stays as it is.
    pub(crate) fn changes_nothing(&self) -> bool
        ensures { IsTrue result ↔ (self.now.changes ≡ []) }
    {
        self.changes.is_empty()
    }

    /// The changes of the session, which the draft then has no more.
    pub(crate) fn take_changes(&mut self, alloc: Global) -> Vec<SessionOp>
        ensures taken { result.items ≡ self.old.changes }
        ensures left { self.new ≡ record self.old { changes = [] } }
    {
        mem::replace(&mut self.changes, Vec::new(alloc))
    }

    /// And then this change of the session.
    pub fn change(&mut self, change: SessionOp) -> Result<(), AllocError>
        ensures { OnOk result (self.new ≡ changed change self.old) }
    {
        self.changes.push(change)?;
        Ok(())
    }

    /// And then this change of the session, if there is one.
    pub fn change_if(&mut self, change: Option<SessionOp>) -> Result<(), AllocError>
        ensures { OnOk result (self.new ≡ changed_if change self.old) }
    {
        match change {
            None => Ok(()),
            Some(change) => self.change(change),
        }
    }

    /// And then the acknowledgement of the client's put with this sequence number and origin.
    pub fn ack(&mut self, seq: u64, origin: u8) -> Result<(), AllocError>
        ensures { OnOk result (self.new ≡ acked (seq, origin) self.old) }
    {
        self.acks.push((seq, origin))?;
        Ok(())
    }

    /// And then the acknowledgements of these puts.
    pub fn ack_all(&mut self, puts: &[Put]) -> Result<(), AllocError>
        ensures { OnOk result (self.new ≡ acked_all (map name_of puts.now) self.old) }
    {
        extend_names(&mut self.acks, puts)
    }

    /// And then the client is handed this, which was retained.
    pub fn hand_all(&mut self, posted: Vec<Posted>) -> Result<(), AllocError>
        ensures { OnOk result (self.new ≡ spec.hand_all posted.items self.old) }
    {
        extend_handed(&mut self.handed, posted)
    }

    /// And then this is retained, or nothing.
    pub fn retain_if(&mut self, posted: Option<Posted>)
        ensures { self.new ≡ spec.retain_if posted self.old }
    {
        drop(mem::replace(&mut self.retain, posted));
    }

    /// And then these messages.
    pub fn put_all(&mut self, puts: Vec<NewPut>) -> Result<(), AllocError>
        ensures { OnOk result (self.new ≡ spec.put_all puts.items self.old) }
    {
        extend_puts(&mut self.puts, puts)
    }

    /// And each message that it makes need not wait from this moment on, in seconds; 0 for none.
    pub fn last_until(&mut self, expires: u64)
        ensures { self.new ≡ lasting expires self.old }
    {
        self.expires = expires;
    }

    /// And then this frame.
    pub fn send(&mut self, alloc: Global, to: Addr, frame: Frame) -> Result<(), NoMemory>
        requires message { IsMessage frame }
        requires size { total_of frame ≤ MAX_FRAME }
        ensures { OnOk result (self.new ≡ sent to frame self.old) }
    {
        let bytes = written(alloc, &frame);
        drop(frame);
        let bytes = Octets::new(bytes?)?;
        self.sends.push(Send { to, bytes })?;
        Ok(())
    }

    /// And then this change of the local state.
    pub fn note(&mut self, change: LocalChange) -> Result<(), AllocError>
        ensures { OnOk result (self.new ≡ moved change self.old) }
    {
        self.local.push(change)?;
        Ok(())
    }
}

/// The spelling of a frame. Its fields have sizes that its message allows, and it is not too long,
/// so nothing but memory can be wanting.
fn written(alloc: Global, frame: &Frame) -> Result<Vec<u8>, NoMemory>
    requires message { IsMessage frame.now }
    requires size { total_of frame.now ≤ MAX_FRAME }
    ensures { IfOk result (λ bytes. bytes.items ≡ spelling frame.now) }
{
    let mut bytes = Vec::new(alloc);
    match encode(alloc, frame, &mut bytes) {
        Ok(()) => Ok(bytes),
        Err(EncodeFault::Memory) => Err(NoMemory),
        Err(EncodeFault::Body | EncodeFault::TooLong) => unreachable!(),
    }
}

/// Appends these messages.
fn extend_puts(puts: &mut Vec<NewPut>, more: Vec<NewPut>) -> Result<(), AllocError>
    ensures { OnOk result (puts.new.items ≡ puts.old.items ++ more.items) }
{
    for put in more {
        puts.push(put)?;
    }
    Ok(())
}

/// Appends what a client is handed.
fn extend_handed(handed: &mut Vec<Posted>, more: Vec<Posted>) -> Result<(), AllocError>
    ensures { OnOk result (handed.new.items ≡ handed.old.items ++ more.items) }
{
    for posted in more {
        handed.push(posted)?;
    }
    Ok(())
}

/// Appends the names of these puts.
fn extend_names(names: &mut Vec<(u64, u8)>, puts: &[Put]) -> Result<(), AllocError>
    ensures { OnOk result (names.new.items ≡ names.old.items ++ map name_of puts.now) }
{
    for put in puts {
        names.push((put.seq, put.origin))?;
    }
    Ok(())
}

/// The draft, unless memory ran out while it was written.
pub fn finished(draft: Draft, done: Result<(), NoMemory>) -> Result<Draft, NoMemory>
    ensures { IfOk result (λ made. (made ≡ draft) × IsOk done) }
{
    match done {
        Ok(()) => Ok(draft),
        Err(fault) => {
            drop(draft);
            Err(fault)
        }
    }
}
