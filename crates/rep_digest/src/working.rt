//! The digest of what a replica keeps.

ghost use Rattle.std.specs.Prelude.{◌≡◌, ◌<◌, ◌⊎◌, List, length, map, IfOk, IfErr};
ghost use Rattle.rep_op.specs.declared.op.Op.{Op};
ghost use Rattle.rep_ops.specs.Spelling.{max_octets};
ghost use Rattle.rep_ops.specs.Splitting.{all_of};
ghost use Rattle.rep_op.specs.Values.{AreValues};
ghost use Rattle.rep_model.specs.Views.{view};
ghost use Rattle.rep_model.specs.Views as views;
ghost use Rattle.rep_digest.specs.Digests.{client_entries, digested, digest};
ghost use Rattle.rep_digest.specs.WellMade.{IsDigest};
ghost use Rattle.rep_digest.specs.Spelling.{digest_spelling};
ghost use Rattle.rep_digest.specs.inner.Steps.{group, drafted_entry};
ghost use Rattle.rep_digest.specs.inner.Steps as spec;

use super::digest::Digest;
use super::draft::entry_of;
use super::entry::{ClientEntry, RetainedEntry};
use super::groups::{Acknowledged, acknowledgements};
use super::size::is_within_limit;
use super::topics::topics_of;
use octets::{NoMemory, Sequence};
use rep_model::{ClientView, Puts, Replica};
use rep_ops::{ClientId, Delta, OpsFault};
use std::alloc::Global;

/// The digest of what a replica keeps, which is that of what it has taken.
///
/// `Limit` where it would be spelled in more than 8,388,608 octets.
pub fn digest_of<R: Replica>(alloc: Global, replica: &R) -> Result<Digest, OpsFault>
    ensures ok { IfOk result (λ made. made ≡ digest (R.kept replica.now)) }
    ensures fault { IfErr result (λ fault. (fault ≡ OpsFault.Memory)
        ⊎ ((fault ≡ OpsFault.Limit) × (max_octets
        < length (digest_spelling (digest (R.kept replica.now)))))) }
{
    let (clients, topics) = worked_out(alloc, replica)?;
    if !is_within_limit(clients.as_slice(), topics.as_slice()) {
        drop(clients);
        drop(topics);
        return Err(OpsFault::Limit);
    }
    Ok(Digest { clients, topics })
}

/// The entries of the digest, however large.
fn worked_out<R: Replica>(
    alloc: Global,
    replica: &R,
) -> Result<(Vec<ClientEntry>, Vec<RetainedEntry>), NoMemory>
    ensures { IfOk result
        (λ made. (digested made.0.items made.1.items ≡ digest (R.kept replica.now))
        × IsDigest (digest (R.kept replica.now))) }
{
    let clients = clients_of(alloc, replica)?;
    match topics_of(alloc, replica) {
        Ok(topics) => Ok((clients, topics)),
        Err(fault) => {
            drop(clients);
            Err(fault)
        }
    }
}

/// The entries of clients.
fn clients_of<R: Replica>(alloc: Global, replica: &R) -> Result<Vec<ClientEntry>, NoMemory>
    ensures { IfOk result (λ entries. (entries.items ≡ client_entries (R.kept replica.now))
        × IsDigest (digest (R.kept replica.now))) }
{
    let Ok(clients) = replica.clients(alloc) else {
        return Err(NoMemory);
    };
    let Ok(held) = replica.held(alloc) else {
        drop(clients);
        return Err(NoMemory);
    };
    are_values(held.as_slice());
    let Ok(groups) = acknowledgements(alloc, clients.as_slice(), held.as_slice()) else {
        drop(held);
        drop(clients);
        return Err(NoMemory);
    };
    let entries = entries_of(alloc, replica, clients.as_slice(), groups.as_slice());
    drop(groups);
    drop(held);
    drop(clients);
    entries
}

/// What the types of deltas promise of their operations.
fn are_values(deltas: &[Delta])
    ensures { AreValues (all_of deltas.now) }
{
    for delta in deltas {
        let _ops = delta.ops();
    }
}

/// The entries of clients, worked out of their views and groups.
fn entries_of<R: Replica>(
    alloc: Global,
    replica: &R,
    clients: &[ClientId],
    groups: &[Sequence<Acknowledged>],
) -> Result<Vec<ClientEntry>, NoMemory>
    requires { length groups.now ≡ length clients.now }
    ensures { (W : List Op) → groups.now ≡ spec.groups clients.now W
        → IfOk result (λ entries. entries.items
        ≡ map (λ c. drafted_entry c (view c (R.kept replica.now)) (group W c)) clients.now) }
{
    let mut entries = Vec::with_capacity(alloc, clients.len())?;
    for i in 0..clients.len() {
        entries.push(entry_in(alloc, replica, &clients[i], groups[i].as_slice())?)?;
    }
    Ok(entries)
}

/// The entry of a client.
fn entry_in<R: Replica>(
    alloc: Global,
    replica: &R,
    client: &ClientId,
    acks: &[Acknowledged],
) -> Result<ClientEntry, NoMemory>
    ensures { IfOk result (λ entry. entry ≡ drafted_entry client.now
        (view client.now (R.kept replica.now)) acks.now) }
{
    match replica.view_of(client) {
        Some(view) => Ok(entry_of(alloc, client, view, acks)?),
        None => {
            let view = unseen(alloc);
            let entry = entry_of(alloc, client, &view, acks);
            drop(view);
            Ok(entry?)
        }
    }
}

/// The view of a client that no operation names.
fn unseen(alloc: Global) -> ClientView
    ensures { result ≡ views.unseen }
{
    ClientView {
        stamp: None,
        prefix: 0,
        session: None,
        pending: Puts::new(Vec::new(alloc)),
    }
}
