//! A table of topics.

ghost use Rattle.std.specs.Prelude.{◌≡◌, ◌<◌, ◌≤◌, ◌⊎◌, ◌++◌, ◌∷◌, ◌+◌, ◌↔◌, ℕ, List, [], drop, filter, false, Some, IsTrue, IfOk, OnOk, IfErr, MatchOption, slice_set, vec_len};
ghost use Rattle.std.specs.Option.{option_copied};
ghost use Rattle.std.specs.Ordering.{is_lt};
ghost use Rattle.rep_op.specs.Orders.{AreOfTopics, is_of_client, subject_of, topic_name_cmp, clock_of, clock_cmp};
ghost use Rattle.rep_op.specs.Sets.{retain_at, Agrees};
ghost use Rattle.rep_ops.specs.Making.{AreWellMade};
ghost use Rattle.sn_topic.specs.Levels.{has_wildcard};
ghost use Rattle.sn_tables.specs.Tables.{is_ascending};
ghost use Rattle.sn_tables.specs.inner.Tables.{IsPlace, IsFoundAt, IsGap};
ghost use Rattle.rep_model.specs.Taking.{AllAgree};
ghost use Rattle.rep_model.specs.Keep.{keep, IsKeptOf};
ghost use Rattle.rep_model.specs.Topics as topics;
ghost use Rattle.rep_model.specs.Fresh as fresh;
ghost use Rattle.rep_retain.specs.Tables.{entry_cmp, op_of, ops_of};
ghost use Rattle.rep_retain.specs.inner.Tables.{by_topic, kept_in, with_kept, with_op, with_ops};
ghost use Rattle.rep_retain.specs.Refusals.{IsContradiction, AreFew, IsFull};
ghost use Rattle.rep_retain.specs.inner.Refusals.{IsInKeeping};

use super::staged::{TopicsStaged, alone};
use octets::NoMemory;
use rep_model::{Limit, MOST_RETAINED, TakeFault};
use rep_op::{clock_order, topic_order};
use rep_ops::{Op, Retained};
use sn_topic::{Filter, TopicName, matches};
use std::alloc::Global;
use std::cmp::Ordering;
use std::marker::Model;

/// What is retained of each topic: the last. Contracts see the topics with it, in ascending order.
pub struct Topics {
    entries: Vec<(TopicName, Retained)>,
}

impl Drop for Topics {
    fn drop(self) {
        let Topics { entries } = self;
        drop(entries);
    }
}

impl Model for Topics {
    ghost use Rattle.std.specs.Prelude.{List, ℕ};
    ghost use Rattle.rep_op.specs.declared.op.Retained.{Retained};
    ghost use Rattle.rep_retain.specs.Tables.{IsTopicTable};

    ghost Value = { List (List ℕ × Retained) };

    ghost view = { λ t. t.entries.items };

    ghost invariant = { λ t. IsTopicTable t.entries.items };
}

/// Where a topic stands in a table, or where it would go. The time is logarithmic.
pub(crate) fn place(entries: &[(TopicName, Retained)], topic: &TopicName) -> Result<usize, usize>
    requires { IsTrue (is_ascending entry_cmp entries.now) }
    ensures { IsPlace (by_topic topic.now) entries.now result }
{
    entries.binary_search_by(|entry| topic_order(&entry.0, topic))
}

/// What a table has of a topic. The time is logarithmic.
fn find<'a>(entries: &'a [(TopicName, Retained)], topic: &TopicName) -> Option<&'a Retained>
    requires { IsTrue (is_ascending entry_cmp entries.now) }
    ensures { option_copied result ≡ kept_in topic.now entries.now }
{
    match place(entries, topic) {
        Ok(at) => Some(&entries[at].1),
        Err(_) => None,
    }
}

/// Whether the second was retained later.
pub(crate) fn is_later(own: &Retained, kept: &Retained) -> bool
    ensures { result ≡ is_lt (clock_cmp (clock_of own.now) (clock_of kept.now)) }
{
    clock_order(own, kept).is_lt()
}

/// Whether two are equal.
fn is_same(own: &Retained, kept: &Retained) -> bool
    ensures { IsTrue result ↔ (own.now ≡ kept.now) }
{
    own == kept
}

/// Whether two of a topic do not contradict each other: their names differ, or they are equal.
fn is_in_keeping(own: &Retained, kept: &Retained) -> bool
    ensures { IsTrue result ↔ IsInKeeping (Some own.now) kept.now }
{
    if clock_order(kept, own).is_eq() {
        is_same(own, kept)
    } else {
        true
    }
}

/// Whether what is retained of a topic contradicts nothing in a table.
fn keeps_to(entries: &[(TopicName, Retained)], topic: &TopicName, kept: &Retained) -> bool
    requires { IsTrue (is_ascending entry_cmp entries.now) }
    ensures { IsTrue result ↔ IsInKeeping (kept_in topic.now entries.now) kept.now }
{
    match find(entries, topic) {
        None => true,
        Some(own) => is_in_keeping(own, kept),
    }
}

/// Whether an operation of a topic contradicts nothing in a table.
fn agrees(entries: &[(TopicName, Retained)], op: &Op) -> bool
    requires table { IsTrue (is_ascending entry_cmp entries.now) }
    requires topic { is_of_client op.now ≡ false }
    ensures { IsTrue result ↔ Agrees (ops_of entries.now) op.now }
{
    match op {
        Op::Retain { topic, retained } => keeps_to(entries, topic, retained),
        Op::Session { .. } | Op::Put { .. } | Op::Ack { .. } => unreachable!(),
    }
}

/// An entry of a table.
pub(crate) fn entry_of(
    alloc: Global,
    topic: &TopicName,
    kept: &Retained,
) -> Result<(TopicName, Retained), NoMemory>
    ensures { IfOk result (λ entry. entry ≡ (topic.now, kept.now)) }
{
    let topic = topic.copied(alloc)?;
    match kept.copied(alloc) {
        Ok(kept) => Ok((topic, kept)),
        Err(fault) => {
            drop(topic);
            Err(fault)
        }
    }
}

/// Puts what is retained of a topic into its place, if it is later than what stands there.
fn put_at(
    alloc: Global,
    entries: &mut Vec<(TopicName, Retained)>,
    at: usize,
    topic: &TopicName,
    kept: &Retained,
) -> Result<(), NoMemory>
    requires bound { at < vec_len entries.old }
    requires place { IsFoundAt (by_topic topic.now) entries.old.items at }
    ensures { OnOk result (entries.new.items ≡ with_kept topic.now kept.now entries.old.items) }
{
    if !is_later(&entries[at].1, kept) {
        return Ok(());
    }
    let entry = entry_of(alloc, topic, kept)?;
    entries[at] = entry;
    Ok(())
}

/// Puts an entry into the place of another.
fn set_at(entries: &mut Vec<(TopicName, Retained)>, at: usize, later: (TopicName, Retained))
    requires { at < vec_len entries.old }
    ensures { entries.new.items ≡ slice_set entries.old.items at later }
{
    entries[at] = later;
}

/// Puts what is retained of a topic that is new into the place where it goes.
fn put_new(
    alloc: Global,
    entries: &mut Vec<(TopicName, Retained)>,
    at: usize,
    topic: &TopicName,
    kept: &Retained,
) -> Result<(), NoMemory>
    requires bound { at ≤ vec_len entries.old }
    requires gap { IsGap (by_topic topic.now) entries.old.items at }
    ensures { OnOk result (entries.new.items ≡ with_kept topic.now kept.now entries.old.items) }
{
    let entry = entry_of(alloc, topic, kept)?;
    entries.insert(at, entry)?;
    Ok(())
}

/// Puts what is retained of a topic into a table, if it is later.
fn put(
    alloc: Global,
    entries: &mut Vec<(TopicName, Retained)>,
    topic: &TopicName,
    kept: &Retained,
) -> Result<(), NoMemory>
    requires { IsTrue (is_ascending entry_cmp entries.old.items) }
    ensures { OnOk result (entries.new.items ≡ with_kept topic.now kept.now entries.old.items) }
{
    match place(entries.as_slice(), topic) {
        Ok(at) => put_at(alloc, entries, at, topic, kept),
        Err(at) => put_new(alloc, entries, at, topic, kept),
    }
}

/// Puts an operation into a table. One of a client changes nothing.
fn put_op(alloc: Global, entries: &mut Vec<(TopicName, Retained)>, op: &Op) -> Result<(), NoMemory>
    requires { IsTrue (is_ascending entry_cmp entries.old.items) }
    ensures { OnOk result (entries.new.items ≡ with_op entries.old.items op.now) }
{
    match op {
        Op::Session { .. } | Op::Put { .. } | Op::Ack { .. } => Ok(()),
        Op::Retain { topic, retained } => put(alloc, entries, topic, retained),
    }
}

/// Equal entries.
fn copy_all(
    alloc: Global,
    entries: &[(TopicName, Retained)],
) -> Result<Vec<(TopicName, Retained)>, NoMemory>
    ensures { IfOk result (λ made. made.items ≡ entries.now) }
{
    let mut made = Vec::with_capacity(alloc, entries.len())?;
    for (topic, kept) in entries {
        made.push(entry_of(alloc, topic, kept)?)?;
    }
    Ok(made)
}

/// Puts operations into a table, one after the other.
fn put_all(
    alloc: Global,
    entries: &mut Vec<(TopicName, Retained)>,
    ops: &[Op],
) -> Result<(), NoMemory>
    requires { IsTrue (is_ascending entry_cmp entries.old.items) }
    ensures { OnOk result (entries.new.items ≡ with_ops entries.old.items ops.now) }
{
    for op in ops {
        put_op(alloc, entries, op)?;
    }
    Ok(())
}

/// A table with operations.
fn put_ops(
    alloc: Global,
    entries: &[(TopicName, Retained)],
    ops: &[Op],
) -> Result<Vec<(TopicName, Retained)>, NoMemory>
    requires { IsTrue (is_ascending entry_cmp entries.now) }
    ensures { IfOk result (λ next. next.items ≡ with_ops entries.now ops.now) }
{
    let mut next = copy_all(alloc, entries)?;
    match put_all(alloc, &mut next, ops) {
        Ok(()) => Ok(next),
        Err(fault) => {
            drop(next);
            Err(fault)
        }
    }
}

/// The refusal of operations, one of which contradicts what is kept.
fn conflict(alloc: Global, op: &Op) -> TakeFault
    ensures { (result ≡ TakeFault.Conflict (subject_of op.now)) ⊎ (result ≡ TakeFault.Memory) }
{
    match op.subject(alloc) {
        Ok(of) => TakeFault::Conflict { of },
        Err(_) => TakeFault::Memory,
    }
}

/// Whether operations of topics contradict nothing in a table.
fn check_all(alloc: Global, entries: &[(TopicName, Retained)], ops: &[Op]) -> Result<(), TakeFault>
    requires table { IsTrue (is_ascending entry_cmp entries.now) }
    requires topics { AreOfTopics ops.now }
    ensures agree { OnOk result (AllAgree (ops_of entries.now) ops.now) }
    ensures fault { IfErr result (IsContradiction (ops_of entries.now) ops.now) }
{
    for op in ops {
        if !agrees(entries, op) {
            return Err(conflict(alloc, op));
        }
    }
    Ok(())
}

/// Puts an equal entry after others.
fn push_entry(
    alloc: Global,
    found: &mut Vec<(TopicName, Retained)>,
    topic: &TopicName,
    kept: &Retained,
) -> Result<(), NoMemory>
    ensures { OnOk result (found.new.items ≡ found.old.items ++ (topic.now, kept.now) ∷ []) }
{
    found.push(entry_of(alloc, topic, kept)?)?;
    Ok(())
}

/// Puts the operation that an entry stands for after others.
fn push_op(
    alloc: Global,
    ops: &mut Vec<Op>,
    topic: &TopicName,
    kept: &Retained,
) -> Result<(), NoMemory>
    ensures { OnOk result (ops.new.items ≡ ops.old.items ++ op_of (topic.now, kept.now) ∷ []) }
{
    let (topic, retained) = entry_of(alloc, topic, kept)?;
    ops.push(Op::Retain { topic, retained })?;
    Ok(())
}

/// Whether a subscriber to the filter is to have it.
fn is_offered(asked: &Filter, topic: &TopicName, kept: &Retained) -> bool
    ensures { result ≡ topics.is_offered asked.now (topic.now, kept.now) }
{
    matches(asked, topic) && !kept.body.is_empty()
}

impl Topics {
    ghost use Rattle.rep_retain.specs.Staging.{topics_moved, IsTopicsReady};

    /// The table of no topic.
    pub fn empty(alloc: Global) -> Topics
        ensures { result ≡ [] }
    {
        Topics {
            entries: Vec::new(alloc),
        }
    }

    /// Whether operations of topics contradict nothing that is kept.
    ///
    /// `Conflict` of the topic of one that does, or `Memory`.
    pub fn check(&self, alloc: Global, ops: &[Op]) -> Result<(), TakeFault>
        requires { AreOfTopics ops.now }
        ensures agree { OnOk result (AllAgree (ops_of self.now) ops.now) }
        ensures fault { IfErr result (IsContradiction (ops_of self.now) ops.now) }
    {
        check_all(alloc, self.entries.as_slice(), ops)
    }

    /// Makes ready to take operations of topics: the table with them, or nothing if there is none.
    /// Of one operation whose topic has a place it is the entry alone, if that is later.
    ///
    /// `Full` where there would be more than 4,096 topics, or `Memory`.
    pub fn prepare(&self, alloc: Global, ops: &[Op]) -> Result<TopicsStaged, TakeFault>
        requires made { AreWellMade ops.now }
        requires topics { AreOfTopics ops.now }
        ensures few { OnOk result (AreFew (ops_of self.now ++ ops.now)) }
        ensures kept { IfOk result (λ staged. IsKeptOf (ops_of self.now ++ ops.now)
            (ops_of (topics_moved self.now staged))) }
        ensures ready { IfOk result (λ staged. IsTopicsReady self.now staged) }
        ensures fault { IfErr result (IsFull (ops_of self.now ++ ops.now)) }
    {
        let _own = self.entries.len();
        if ops.is_empty() {
            return Ok(TopicsStaged::Nothing);
        }
        let found = alone(alloc, self.entries.as_slice(), ops)?;
        match found {
            Some(staged) => Ok(staged),
            None => match self.with(alloc, ops) {
                Ok(next) => Ok(TopicsStaged::Table(next)),
                Err(fault) => Err(fault),
            },
        }
    }

    /// The table with operations of topics.
    fn with(&self, alloc: Global, ops: &[Op]) -> Result<Topics, TakeFault>
        requires made { AreWellMade ops.now }
        requires topics { AreOfTopics ops.now }
        ensures few { OnOk result (AreFew (ops_of self.now ++ ops.now)) }
        ensures kept { IfOk result (λ next. IsKeptOf (ops_of self.now ++ ops.now)
            (ops_of next)) }
        ensures fault { IfErr result (IsFull (ops_of self.now ++ ops.now)) }
    {
        let entries = put_ops(alloc, self.entries.as_slice(), ops)?;
        if entries.len() > MOST_RETAINED {
            return Err(TakeFault::Full {
                limit: Limit::Retained,
            });
        }
        Ok(Topics { entries })
    }

    /// Takes what the latest `prepare` made ready.
    pub fn commit(&mut self, staged: TopicsStaged)
        requires { IsTopicsReady self.old staged }
        ensures { self.new ≡ topics_moved self.old staged }
    {
        match staged {
            TopicsStaged::Nothing => {}
            TopicsStaged::Entry(at, entry) => set_at(&mut self.entries, at, entry),
            TopicsStaged::Table(next) => *self = next,
        }
    }

    /// An equal table.
    pub fn copied(&self, alloc: Global) -> Result<Topics, NoMemory>
        ensures { IfOk result (λ made. made ≡ self.now) }
    {
        let entries = copy_all(alloc, self.entries.as_slice())?;
        Ok(Topics { entries })
    }

    /// What is retained of a topic. The time is logarithmic.
    pub fn get(&self, topic: &TopicName) -> Option<&Retained>
        ensures { option_copied result ≡ topics.retained topic.now (ops_of self.now) }
    {
        find(self.entries.as_slice(), topic)
    }

    /// The clock of what is retained next of a topic; nothing after the last.
    pub fn next_clock(&self, topic: &TopicName) -> Option<u64>
        ensures { result ≡ fresh.next_clock topic.now (ops_of self.now) }
    {
        match find(self.entries.as_slice(), topic) {
            None => Some(1),
            Some(own) => own.clock.checked_add(1),
        }
    }

    /// The topic at a place, with what is retained of it, and the place after it; nothing after the
    /// last.
    pub fn at(&self, place: usize) -> Option<(usize, &TopicName, &Retained)>
        ensures { MatchOption result
            (drop place (topics.all_retained (ops_of self.now)) ≡ [])
            (λ found. (drop place (topics.all_retained (ops_of self.now))
            ≡ (found.1.now, found.2.now) ∷ drop found.0 (topics.all_retained (ops_of self.now)))
            × (found.0 ≡ place + 1)) }
    {
        entry_at(self.entries.as_slice(), place)
    }

    /// What is retained of the topics that a filter asks for, but what was ended. The time is
    /// logarithmic where no wildcard stands in it.
    pub fn matching(
        &self,
        alloc: Global,
        asked: &Filter,
    ) -> Result<Vec<(TopicName, Retained)>, NoMemory>
        ensures { IfOk result (λ all. all.items
            ≡ topics.retained_matching asked.now (ops_of self.now)) }
    {
        let entries = self.entries.as_slice();
        if asked.has_wildcard() {
            offered(alloc, entries, asked)
        } else {
            named(alloc, entries, asked)
        }
    }

    /// What the type promises of the operations that it stands for.
    pub fn are_made(&self)
        ensures { AreWellMade (ops_of self.now) }
    {
        let _own = self.entries.len();
    }

    /// Puts what is kept after other operations.
    pub fn push_to(&self, alloc: Global, ops: &mut Vec<Op>) -> Result<(), NoMemory>
        ensures ok { OnOk result (ops.new.items ≡ ops.old.items ++ ops_of self.now) }
        ensures made { AreWellMade (ops_of self.now) }
        ensures stays { (t : List ℕ) (name : ℕ × ℕ)
            → retain_at t (keep (ops_of self.now)) name ≡ retain_at t (ops_of self.now) name }
    {
        push_ops(alloc, ops, self.entries.as_slice())
    }
}

/// The entry at a place, in two parts, and the place after it; nothing after the last.
fn entry_at(
    entries: &[(TopicName, Retained)],
    place: usize,
) -> Option<(usize, &TopicName, &Retained)>
    ensures { MatchOption result (drop place entries.now ≡ [])
        (λ found. (drop place entries.now
        ≡ (found.1.now, found.2.now) ∷ drop found.0 entries.now)
        × (found.0 ≡ place + 1)) }
{
    if place < entries.len() {
        let entry = &entries[place];
        Some((place + 1, &entry.0, &entry.1))
    } else {
        None
    }
}

/// The entries that a subscriber to the filter is to have.
fn offered(
    alloc: Global,
    entries: &[(TopicName, Retained)],
    asked: &Filter,
) -> Result<Vec<(TopicName, Retained)>, NoMemory>
    ensures { IfOk result (λ found. found.items
        ≡ filter (topics.is_offered asked.now) entries.now) }
{
    let mut found = Vec::new(alloc);
    for (topic, kept) in entries {
        if is_offered(asked, topic, kept) {
            push_entry(alloc, &mut found, topic, kept)?;
        }
    }
    Ok(found)
}

/// How a topic is ordered against a filter: by their octets.
fn filter_order(topic: &TopicName, asked: &Filter) -> Ordering
    ensures { result ≡ topic_name_cmp topic.now asked.now }
{
    topic.bytes().cmp(&asked.bytes())
}

/// Where the topic whose name is the filter stands in a table, or where it would go.
fn named_place(entries: &[(TopicName, Retained)], asked: &Filter) -> Result<usize, usize>
    requires { IsTrue (is_ascending entry_cmp entries.now) }
    ensures { IsPlace (by_topic asked.now) entries.now result }
{
    entries.binary_search_by(|entry| filter_order(&entry.0, asked))
}

/// An entry, if a subscriber to the filter is to have it.
fn one_offered(
    alloc: Global,
    entry: &(TopicName, Retained),
    asked: &Filter,
) -> Result<Vec<(TopicName, Retained)>, NoMemory>
    ensures { IfOk result (λ found. found.items
        ≡ filter (topics.is_offered asked.now) (entry.now ∷ [])) }
{
    let mut found = Vec::new(alloc);
    if !is_offered(asked, &entry.0, &entry.1) {
        return Ok(found);
    }
    push_entry(alloc, &mut found, &entry.0, &entry.1)?;
    Ok(found)
}

/// The entries that a subscriber to a filter without a wildcard is to have: at most that of the
/// topic of its name. The time is logarithmic.
fn named(
    alloc: Global,
    entries: &[(TopicName, Retained)],
    asked: &Filter,
) -> Result<Vec<(TopicName, Retained)>, NoMemory>
    requires table { IsTrue (is_ascending entry_cmp entries.now) }
    requires plain { has_wildcard asked.now ≡ false }
    ensures { IfOk result (λ found. found.items
        ≡ filter (topics.is_offered asked.now) entries.now) }
{
    match named_place(entries, asked) {
        Ok(at) => one_offered(alloc, &entries[at], asked),
        Err(_) => Ok(Vec::new(alloc)),
    }
}

/// Puts what entries stand for after other operations.
fn push_ops(
    alloc: Global,
    ops: &mut Vec<Op>,
    entries: &[(TopicName, Retained)],
) -> Result<(), NoMemory>
    ensures { OnOk result (ops.new.items ≡ ops.old.items ++ ops_of entries.now) }
{
    for (topic, kept) in entries {
        push_op(alloc, ops, topic, kept)?;
    }
    Ok(())
}
