//! The view of a client.

ghost use Rattle.std.specs.Prelude.{◌≡◌, ◌==◌, false, length, List, IfOk, IfErr};
ghost use Rattle.std.specs.List.{list_any};
ghost use Rattle.rep_model.specs.Moments.{is_past, AllLast};
ghost use Rattle.rep_model.specs.inner.Moments as spec;

use octets::NoMemory;
use rep_ops::{OpsFault, Put, Stamp};
use sn_session::Session;
use std::alloc::Global;
use std::marker::Model;

/// Messages in the order of delivery: by sequence number, then origin. Contracts see the list.
pub struct Puts {
    items: Vec<Put>,
    /// No message has a moment before this one, from which on it need not wait: whoever asks for
    /// one that is past looks at all of them only if one may be.
    soonest: u64,
}

impl Drop for Puts {
    fn drop(self) {
        let Puts { items, soonest: _ } = self;
        drop(items);
    }
}

impl Model for Puts {
    ghost use Rattle.std.specs.Prelude.{List};
    ghost use Rattle.rep_op.specs.declared.op.Put.{Put};
    ghost use Rattle.rep_model.specs.Moments.{AllLast};

    ghost Value = { List Put };

    ghost view = { λ p. p.items.items };

    ghost invariant = { λ p. AllLast p.soonest p.items.items };
}

/// The moment of a message, if it has one before this moment, else this one.
fn sooner(moment: u64, put: &Put) -> u64
    ensures { result ≡ spec.sooner moment put.now }
{
    if 0 < put.expires && put.expires < moment {
        put.expires
    } else {
        moment
    }
}

/// The least moment that one of these messages has before this moment, else this one.
fn soonest_of(moment: u64, puts: &[Put]) -> u64
    ensures { result ≡ spec.soonest_of moment puts.now }
{
    let mut soonest = moment;
    for put in puts {
        soonest = sooner(soonest, put);
    }
    soonest
}

impl Puts {
    /// These messages. All of them are looked at.
    pub fn new(items: Vec<Put>) -> Puts
        ensures { result ≡ items.items }
    {
        let soonest = soonest_of(u64::MAX, items.as_slice());
        Puts { items, soonest }
    }

    /// These messages, of which none has a moment before this one, in seconds. None is looked at.
    pub fn lasting(items: Vec<Put>, soonest: u64) -> Puts
        requires { AllLast soonest items.items }
        ensures { result ≡ items.items }
    {
        Puts { items, soonest }
    }

    /// A moment, in seconds, before which neither these messages nor the others have one.
    pub fn soonest_with(&self, more: &[Put]) -> u64
        ensures these { AllLast result self.now }
        ensures others { AllLast result more.now }
    {
        soonest_of(self.soonest, more)
    }

    /// Whether the moment of one of them may be there, from which on it need not wait. The time
    /// does not depend on how many there are.
    pub fn may_be_past(&self, now: u64) -> bool
        ensures { result ≡ false → list_any (is_past now) self.now ≡ false }
    {
        if now < self.soonest {
            return false;
        }
        true
    }

    /// The messages, in their order.
    pub fn as_slice(&self) -> &[Put]
        ensures { result.now ≡ self.now }
    {
        self.items.as_slice()
    }

    /// The messages, in their order, to be moved.
    pub fn into_items(self) -> Vec<Put>
        ensures { result.items ≡ self }
    {
        let Puts { items, soonest: _ } = self;
        items
    }

    /// How many messages there are.
    pub fn len(&self) -> usize
        ensures { result ≡ length self.now }
    {
        self.items.len()
    }

    /// Whether there is none.
    pub fn is_empty(&self) -> bool
        ensures { result ≡ (length self.now == 0) }
    {
        self.items.is_empty()
    }

    /// Equal messages.
    pub fn copied(&self, alloc: Global) -> Result<Puts, NoMemory>
        ensures { IfOk result (λ made. made ≡ self.now) }
    {
        let mut items = Vec::new(alloc);
        for put in self.items.as_slice() {
            items.push(put.copied(alloc)?)?;
        }
        Ok(Puts::new(items))
    }
}

/// What a set of operations says of a client.
pub struct ClientView {
    /// The greatest stamp whose Take is there.
    pub stamp: Option<Stamp>,
    /// How many operations of that stamp are there from 0 on without a gap; at most 256.
    pub prefix: u16,
    /// The session that these make.
    pub session: Option<Session>,
    /// The messages that are not acknowledged, by sequence number, then origin.
    pub pending: Puts,
}

impl Drop for ClientView {
    fn drop(self) {
        let ClientView {
            stamp: _,
            prefix: _,
            session,
            pending,
        } = self;
        drop(session);
        drop(pending);
    }
}

impl ClientView {
    /// An equal view.
    pub fn copied(&self, alloc: Global) -> Result<ClientView, NoMemory>
        ensures { IfOk result (λ made. made ≡ self.now) }
    {
        Ok(ClientView {
            stamp: self.stamp,
            prefix: self.prefix,
            pending: self.pending.copied(alloc)?,
            session: copied_session(&self.session, alloc)?,
        })
    }

    /// The same, where want of memory is a fault of this crate.
    pub fn copy(&self, alloc: Global) -> Result<ClientView, OpsFault>
        ensures ok { IfOk result (λ made. made ≡ self.now) }
        ensures err { IfErr result (λ fault. fault ≡ OpsFault.Memory) }
    {
        Ok(self.copied(alloc)?)
    }
}

/// An equal session, if there is one.
fn copied_session(session: &Option<Session>, alloc: Global) -> Result<Option<Session>, NoMemory>
    ensures { IfOk result (λ made. made ≡ session.now) }
{
    match session {
        None => Ok(None),
        Some(session) => Ok(Some(session.copied(alloc)?)),
    }
}
