//! The subscriptions of a session.

ghost use Rattle.std.specs.Prelude.{◌≡◌, ◌==◌, ◌<◌, ◌≤◌, ◌↔◌, ◌++◌, [], ◌∷◌, length, IfOk, IfSome, MatchOption, OnOk, OnErr, IsErrOf, IsTrue, false, Some, is_none};
ghost use Rattle.std.specs.Ordering.{nat_cmp};
ghost use Rattle.std.specs.Cmp.Lexicographic.{slice_cmp};
ghost use Rattle.sn_tables.specs.declared.table.TheConstants.{MAX_ENTRIES};
ghost use Rattle.sn_tables.specs.Tables.{IsTable};
ghost use Rattle.sn_tables.specs.Tables as tables;
ghost use Rattle.sn_tables.specs.inner.Tables.{IsPlace};
ghost use Rattle.sn_tables.specs.Subscriptions.{subscription_cmp, with_subscription, without_filter, subscription_of, filter_has_no_room, asked_qos, IsGreatest};
ghost use Rattle.sn_tables.specs.Subscriptions as spec;

use crate::fault::SessionFault;
use crate::qos_level::QosLevel;
use crate::table::{MAX_ENTRIES, insert_at};
use sn_topic::octets::NoMemory;
use sn_topic::{Filter, TopicName, matches};
use std::alloc::Global;
use std::cmp::Ordering;
use std::marker::Model;

/// What a client asked for.
#[derive(Drop)]
pub struct Subscription {
    /// Which topics.
    pub filter: Filter,
    /// The greatest quality of service at which it wants them.
    pub qos: QosLevel,
}

impl Subscription {
    /// An equal subscription.
    pub fn copied(&self, alloc: Global) -> Result<Subscription, NoMemory>
        ensures { IfOk result (λ made. made ≡ self.now) }
    {
        Ok(Subscription {
            filter: self.filter.copied(alloc)?,
            qos: self.qos,
        })
    }
}

/// The subscriptions of a session: at most 256, strictly ascending by the octets of their filters.
/// Contracts see the list of them.
pub struct Subscriptions {
    entries: Vec<Subscription>,
}

impl Drop for Subscriptions {
    fn drop(self) {
        let Subscriptions { entries } = self;
        drop(entries);
    }
}

impl Model for Subscriptions {
    ghost use Rattle.std.specs.Prelude.{List};
    ghost use Rattle.sn_tables.specs.declared.subscriptions.Subscription.{Subscription};
    ghost use Rattle.sn_tables.specs.Tables.{IsTable};
    ghost use Rattle.sn_tables.specs.Subscriptions.{subscription_cmp};

    ghost Value = { List Subscription };

    ghost view = { λ s. s.entries.items };

    ghost invariant = { λ s. IsTable subscription_cmp s.entries.items };
}

impl Subscriptions {
    /// The table without an entry.
    pub fn empty(alloc: Global) -> Subscriptions
        ensures { result ≡ [] }
    {
        Subscriptions {
            entries: Vec::new(alloc),
        }
    }

    /// The table of these entries; nothing where their filters do not strictly ascend, or there are
    /// more than 256.
    pub fn from_sorted(entries: Vec<Subscription>) -> Option<Subscriptions>
        ensures { MatchOption result (¬ (IsTable subscription_cmp entries.items))
            (λ made. (made ≡ entries.items) × IsTable subscription_cmp entries.items) }
    {
        if entries.len() > MAX_ENTRIES || !is_ascending(entries.as_slice()) {
            return None;
        }
        Some(Subscriptions { entries })
    }

    /// The entries, ascending by filter.
    pub fn as_slice(&self) -> &[Subscription]
        ensures entries { result.now ≡ self.now }
        ensures table { IsTable subscription_cmp self.now }
    {
        self.entries.as_slice()
    }

    /// How many entries there are, at most 256.
    pub fn len(&self) -> usize
        ensures count { result ≡ length self.now }
        ensures limit { result ≤ MAX_ENTRIES }
    {
        self.entries.len()
    }

    /// Whether there is no entry.
    pub fn is_empty(&self) -> bool
        ensures { result ≡ (length self.now == 0) }
    {
        self.entries.is_empty()
    }

    /// The quality of service of a filter. The time is logarithmic.
    pub fn qos_of(&self, filter: &Filter) -> Option<QosLevel>
        ensures { result ≡ spec.filter_qos filter.now self.now }
    {
        let entries = self.entries.as_slice();
        match place(entries, filter) {
            Ok(at) => Some(entries[at].qos),
            Err(_) => None,
        }
    }

    /// Whether this filter would be the 257th.
    pub fn has_no_room(&self, filter: &Filter) -> bool
        ensures { result ≡ filter_has_no_room filter.now self.now }
    {
        self.entries.len() >= MAX_ENTRIES && self.qos_of(filter).is_none()
    }

    /// The greatest quality of service of the filters that ask for a topic; nothing where none
    /// does.
    pub fn subscribed_qos(&self, name: &TopicName) -> Option<QosLevel>
        ensures value { result ≡ spec.subscribed_qos name.now self.now }
        ensures greatest { IfSome result (IsGreatest (asked_qos name.now self.now)) }
    {
        let mut greatest = None;
        for entry in self.entries.as_slice() {
            if matches(&entry.filter, name) {
                greatest = Some(or_greater(greatest, entry.qos));
            }
        }
        greatest
    }

    /// Sets the subscription of a filter. `Full` exactly where it would be the 257th; on an error
    /// the table is as it was. A filter that is there takes no memory.
    pub fn set(&mut self, alloc: Global, filter: &Filter, qos: QosLevel) -> Result<(), SessionFault>
        ensures ok { OnOk result (self.new ≡ with_subscription
            (record { filter = filter.now; qos = qos }) self.old) }
        ensures err { OnErr result (self.new ≡ self.old) }
        ensures full { IsErrOf result SessionFault.Full
            ↔ IsTrue (filter_has_no_room filter.now self.old) }
        ensures fits { OnOk result (filter_has_no_room filter.now self.old ≡ false) }
        ensures absent { OnErr result (IsTrue (is_none (subscription_of filter.now self.old))) }
    {
        if self.has_no_room(filter) {
            return Err(SessionFault::Full);
        }
        match place(self.entries.as_slice(), filter) {
            Ok(at) => {
                let entry = &mut self.entries[at];
                entry.qos = qos;
            }
            Err(at) => {
                let filter = filter.copied(alloc)?;
                let entry = Subscription { filter, qos };
                insert_at(&mut self.entries, at, entry)?;
            }
        }
        Ok(())
    }

    /// Takes the subscription of a filter away, if it is there.
    pub fn remove(&mut self, filter: &Filter)
        ensures { self.new ≡ without_filter filter.now self.old }
    {
        match place(self.entries.as_slice(), filter) {
            Ok(at) => {
                self.entries.remove(at);
            }
            Err(_) => {}
        }
    }

    /// An equal table.
    pub fn copied(&self, alloc: Global) -> Result<Subscriptions, NoMemory>
        ensures { IfOk result (λ made. made ≡ self.now) }
    {
        let mut entries = Vec::with_capacity(alloc, self.entries.len())?;
        for entry in self.entries.as_slice() {
            push_copy(alloc, &mut entries, entry)?;
        }
        Ok(Subscriptions { entries })
    }
}

/// Puts an equal subscription after the others.
fn push_copy(
    alloc: Global,
    entries: &mut Vec<Subscription>,
    entry: &Subscription,
) -> Result<(), NoMemory>
    ensures { OnOk result (entries.new.items ≡ entries.old.items ++ entry.now ∷ []) }
{
    entries.push(entry.copied(alloc)?)?;
    Ok(())
}

/// Where the subscription of a filter is, or where it would go. The time is logarithmic.
fn place(entries: &[Subscription], filter: &Filter) -> Result<usize, usize>
    requires { IsTrue (tables.is_ascending subscription_cmp entries.now) }
    ensures { IsPlace (λ entry. slice_cmp nat_cmp entry.filter filter.now) entries.now result }
{
    entries.binary_search_by(|entry| compare(&entry.filter, filter))
}

/// The order of two filters: that of their octets, as words in a dictionary.
fn compare(a: &Filter, b: &Filter) -> Ordering
    ensures { result ≡ slice_cmp nat_cmp a.now b.now }
{
    a.bytes().cmp(&b.bytes())
}

/// Whether the filters strictly ascend.
fn is_ascending(entries: &[Subscription]) -> bool
    ensures { result ≡ tables.is_ascending subscription_cmp entries.now }
{
    let mut left = entries;
    while let [first, second, ..] = left {
        if !compare(&first.filter, &second.filter).is_lt() {
            return false;
        }
        left = &left[1..];
    }
    true
}

/// The greater of a level so far, if there is one, and another.
fn or_greater(so_far: Option<QosLevel>, qos: QosLevel) -> QosLevel
    ensures { Some result ≡ spec.or_greater so_far qos }
{
    match so_far {
        None => qos,
        Some(best) => best.max(qos),
    }
}

impl PartialEq for Subscription {
    ghost use Rattle.std.specs.Cmp.{partial_equiv_from_equiv};
    ghost use Rattle.sn_tables.specs.Subscriptions.{subscription_eq, subscription_equiv};

    ghost eq = { subscription_eq };

    ghost laws = { partial_equiv_from_equiv subscription_equiv };

    fn eq(&self, other: &Self) -> bool {
        self.filter == other.filter && self.qos == other.qos
    }
}

impl Eq for Subscription {
    ghost use Rattle.sn_tables.specs.Subscriptions.{subscription_equiv};

    ghost laws = { subscription_equiv };
}

impl PartialEq for Subscriptions {
    ghost use Rattle.std.specs.Cmp.Lexicographic.{pointwise, lists_equiv};
    ghost use Rattle.std.specs.Cmp.{partial_equiv_from_equiv};
    ghost use Rattle.sn_tables.specs.Subscriptions.{subscription_eq, subscription_equiv};

    ghost eq = { pointwise subscription_eq };

    ghost laws = { partial_equiv_from_equiv (lists_equiv subscription_equiv) };

    fn eq(&self, other: &Self) -> bool {
        self.as_slice() == other.as_slice()
    }
}

impl Eq for Subscriptions {
    ghost use Rattle.std.specs.Cmp.Lexicographic.{lists_equiv};
    ghost use Rattle.sn_tables.specs.Subscriptions.{subscription_equiv};

    ghost laws = { lists_equiv subscription_equiv };
}
