//! What a gateway must show by the definitions.

use super::drive::Drive;
use octets::NoMemory;
use rep_model::{ClientView, Replica, TakeFault};
use rep_ops::{ClientId, Delta, Op, Put, Retained};
use rep_plain::Plain;
use rep_same::{same_client, same_put, same_retained, same_topic, same_view};
use sn_topic::TopicName;
use std::alloc::Global;

/// What a gateway must show: the views of the set that it has made and taken.
#[derive(Drop)]
pub(crate) struct Seat {
    /// The set, kept whole.
    pub(crate) plain: Plain,
    /// The index of the answer that showed its views last.
    pub(crate) shown: Option<usize>,
    /// The numbers of the deltas that it has made or taken since.
    pub(crate) latest: Vec<u64>,
    /// The deltas that were refused, and that it has since it was opened again.
    pub(crate) joined: Vec<Delta>,
    /// What its journal must hold.
    pub(crate) drive: Drive,
}

impl Seat {
    /// A gateway that has made and taken nothing.
    pub(crate) fn empty(alloc: Global) -> Result<Seat, NoMemory> {
        let Ok(plain) = Plain::empty(alloc) else {
            return Err(NoMemory);
        };
        Ok(Seat {
            plain,
            shown: None,
            latest: Vec::new(alloc),
            joined: Vec::new(alloc),
            drive: Drive::empty(alloc),
        })
    }

    /// Takes a delta. False where it does not fit.
    pub(crate) fn take(&mut self, alloc: Global, delta: &Delta) -> Result<bool, NoMemory> {
        take_into(alloc, &mut self.plain, delta)
    }

    /// Takes deltas. False where one does not fit.
    pub(crate) fn take_all(&mut self, alloc: Global, deltas: &[Delta]) -> Result<bool, NoMemory> {
        for delta in deltas {
            if !self.take(alloc, delta)? {
                return Ok(false);
            }
        }
        Ok(true)
    }

    /// Whether these are the clients of the set, and their views.
    pub(crate) fn shows(&self, views: &[(ClientId, ClientView)]) -> bool {
        let mut place = 0;
        for (client, view) in views {
            let Some((behind, own, seen)) = self.plain.client_at(place) else {
                return false;
            };
            if !same_client(own, client) || !same_view(seen, view) {
                return false;
            }
            place = behind;
        }
        self.plain.client_at(place).is_none()
    }

    /// Whether this is what the set retains of topics.
    pub(crate) fn retains(&self, topics: &[(TopicName, Retained)]) -> bool {
        let mut place = 0;
        for (topic, kept) in topics {
            let Some((behind, own, stood)) = self.plain.topic_at(place) else {
                return false;
            };
            if !same_topic(own, topic) || !same_retained(stood, kept) {
                return false;
            }
            place = behind;
        }
        self.plain.topic_at(place).is_none()
    }
}

/// A replica takes a delta. False where it does not fit.
fn take_into<R: Replica>(alloc: Global, replica: &mut R, delta: &Delta) -> Result<bool, NoMemory> {
    match replica.prepare(alloc, delta) {
        Ok(staged) => {
            replica.commit(staged);
            Ok(true)
        }
        Err(fault) => {
            let is_short = matches!(&fault, TakeFault::Memory);
            drop(fault);
            if is_short { Err(NoMemory) } else { Ok(false) }
        }
    }
}

/// Whether two gateways show the same.
pub(crate) fn are_same(a: &[(ClientId, ClientView)], b: &[(ClientId, ClientView)]) -> bool {
    if a.len() != b.len() {
        return false;
    }
    for (index, one) in a.iter().enumerate() {
        if !is_same_row(one, b.get(index)) {
            return false;
        }
    }
    true
}

/// Whether these are equal clients with equal views, where both are there.
fn is_same_row(one: &(ClientId, ClientView), other: Option<&(ClientId, ClientView)>) -> bool {
    match other {
        Some(other) => same_client(&one.0, &other.0) && same_view(&one.1, &other.1),
        None => false,
    }
}

/// Whether a message waits for a client.
pub(crate) fn waits(views: &[(ClientId, ClientView)], client: &ClientId, put: &Put) -> bool {
    for (other, view) in views {
        if same_client(other, client) {
            return view
                .pending
                .as_slice()
                .iter()
                .any(|waiting| same_put(waiting, put));
        }
    }
    false
}

/// Whether a delta acknowledges a client's message.
pub(crate) fn acknowledges(delta: Option<&Delta>, client: &ClientId, put: &Put) -> bool {
    match delta {
        Some(delta) => delta
            .ops()
            .iter()
            .any(|op| is_acknowledgement(op, client, put)),
        None => false,
    }
}

/// Whether an operation acknowledges a client's message.
fn is_acknowledgement(op: &Op, client: &ClientId, put: &Put) -> bool {
    match op {
        Op::Ack {
            client: other,
            origin,
            first,
            last,
        } => {
            same_client(other, client)
                && *origin == put.origin
                && *first <= put.seq
                && put.seq <= *last
        }
        Op::Session { .. } | Op::Put { .. } | Op::Retain { .. } => false,
    }
}
