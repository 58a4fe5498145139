//! The messages that wait for a client after a change, for which no memory is taken.

ghost use Rattle.std.specs.Prelude.{◌≡◌, ◌+◌, ◌==◌, ◌<◌, ◌≤◌, ◌++◌, [], suc, false, vec_capacity, List, take, drop, filter, length, count_by, IfOk, IsTrue};
ghost use Rattle.rep_op.specs.declared.op.Put.{Put};
ghost use Rattle.rep_model.specs.Moments.{AllLast};
ghost use Rattle.rep_log.specs.Mail.{weave, NoneCovered, Rising};
ghost use Rattle.rep_log.specs.Mail as mail;
ghost use Rattle.rep_entry.specs.Spans.{AreFreeOutside};
ghost use Rattle.rep_entry.specs.inner.Mail.{left_from};
ghost use Rattle.rep_entry.specs.inner.Mail as spec;
ghost use Rattle.rep_log.specs.Origins.{ranges_in};

use super::span::{Span, between};
use super::weaving::{goes_before, merge};
use octets::NoMemory;
use rep_log::{Acks, append_reusing};
use rep_model::Puts;
use rep_ops::Put;
use std::collections::VecDeque;

/// So many messages at most are dropped one by one, each with a move of those behind it.
const FEW: usize = 8;

/// Whether the message is not acknowledged.
fn is_left(acks: &Acks, put: &Put) -> bool
    ensures { result ≡ mail.is_uncovered (ranges_in acks.now) put.now }
{
    !acks.covers(put.seq, put.origin)
}

/// Drops the messages that are acknowledged. All are asked.
fn drop_any(all: &mut Vec<Put>, acks: &Acks)
    ensures { all.new.items ≡ filter (mail.is_uncovered (ranges_in acks.now)) all.old.items }
{
    all.retain(|put| is_left(acks, put));
}

/// Drops the message at a place, if it is acknowledged. Those after it move.
fn drop_at(all: &mut Vec<Put>, at: usize, acks: &Acks)
    requires { at < length all.old.items }
    ensures { (whole : List Put) → at < length whole
        → all.old.items ≡ left_from (ranges_in acks.now) (suc at) whole
        → all.new.items ≡ left_from (ranges_in acks.now) at whole }
{
    if is_left(acks, &all[at]) {
        return;
    }
    all.remove(at);
}

/// Drops those that are acknowledged of so many messages from a place on, one by one.
fn drop_each(all: &mut Vec<Put>, from: usize, count: usize, acks: &Acks)
    requires bound { from + count ≤ length all.old.items }
    requires front { NoneCovered (ranges_in acks.now) (take from all.old.items) }
    requires back { NoneCovered (ranges_in acks.now) (drop count (drop from all.old.items)) }
    ensures { all.new.items ≡ filter (mail.is_uncovered (ranges_in acks.now)) all.old.items }
{
    let mut at = from + count;
    while from < at {
        at -= 1;
        drop_at(all, at, acks);
    }
}

/// Drops the messages that are acknowledged. Only those of the span are asked, unless they are
/// many.
fn drop_covered(all: &mut Vec<Put>, span: Span, acks: &Acks)
    requires rising { Rising all.old.items }
    requires free { AreFreeOutside span (ranges_in acks.now) all.old.items }
    ensures { all.new.items ≡ filter (mail.is_uncovered (ranges_in acks.now)) all.old.items }
{
    let (from, count) = between(all.as_slice(), span);
    if count > FEW {
        drop_any(all, acks);
    } else {
        drop_each(all, from, count, acks);
    }
}

/// Whether the new messages come after all that wait.
fn all_come_after(waiting: &[Put], news: &[Put]) -> bool
    requires { Rising waiting.now }
    ensures { IsTrue result → weave waiting.now news.now ≡ waiting.now ++ news.now }
{
    match waiting.last() {
        None => true,
        Some(last) => are_behind(last, news),
    }
}

/// Whether the first of the new messages, if there is one, comes after this.
fn are_behind(last: &Put, news: &[Put]) -> bool
    ensures { result ≡ spec.are_behind last.now news.now }
{
    match news.first() {
        None => true,
        Some(first) => goes_before(last, first),
    }
}

/// The messages that wait, and new ones. Where none is new nothing is moved, and where all come
/// after those that wait, these stay where they are as long as there is room.
fn with_new_messages(room: Vec<Put>, mut waiting: Vec<Put>, news: Vec<Put>) -> Vec<Put>
    requires empty { room.items ≡ [] }
    requires room { (length news.items == 0) ≡ false
        → length waiting.items + length news.items ≤ vec_capacity room }
    requires rising { Rising waiting.items }
    ensures { result.items ≡ weave waiting.items news.items }
{
    if news.as_slice().is_empty() {
        return waiting;
    }
    if all_come_after(waiting.as_slice(), news.as_slice()) {
        append_reusing(&mut waiting, news, room);
        return waiting;
    }
    merge(room, VecDeque::from_vec(waiting), VecDeque::from_vec(news))
}

/// Whether the message with the least moment may be among those that were dropped: so many are left
/// of so many. If that moment is the last one of all, it is none.
fn may_be_gone(left: usize, count: usize, soonest: u64) -> bool {
    left < count && soonest < u64::MAX
}

/// Whether the first of these messages has no moment, or one that is later than this.
fn is_later(left: &[Put], soonest: u64) -> bool {
    match left.first() {
        None => true,
        Some(first) => first.expires == 0 || soonest < first.expires,
    }
}

/// These messages, of which none has a moment before this one, and which were so many before some
/// were dropped. If the one with that moment may be gone, all are looked at: messages that were
/// made in one second are so dropped one by one without a look at the others.
fn puts_of(left: Vec<Put>, count: usize, soonest: u64) -> Puts
    requires { AllLast soonest left.items }
    ensures { result ≡ left.items }
{
    let gone = may_be_gone(left.len(), count, soonest);
    let again = gone && is_later(left.as_slice(), soonest);
    if again {
        Puts::new(left)
    } else {
        Puts::lasting(left, soonest)
    }
}

/// The messages that wait after a change: those that waited, and new ones, without those that are
/// acknowledged, which lie in the span.
pub(crate) fn wait_on(
    room: Vec<Put>,
    waiting: Puts,
    news: Vec<Put>,
    span: Span,
    acks: &Acks,
) -> Puts
    requires empty { room.items ≡ [] }
    requires room { (length news.items == 0) ≡ false
        → length waiting + length news.items ≤ vec_capacity room }
    requires rising { Rising waiting }
    requires woven { Rising (weave waiting news.items) }
    requires free { AreFreeOutside span (ranges_in acks.now) (weave waiting news.items) }
    ensures { result ≡ filter (mail.is_uncovered (ranges_in acks.now)) (weave waiting news.items) }
{
    let soonest = waiting.soonest_with(news.as_slice());
    let count = waiting.len().saturating_add(news.len());
    let waiting = waiting.into_items();
    let left = without_acknowledged(room, waiting, news, span, acks);
    puts_of(left, count, soonest)
}

/// The messages that wait, and new ones, without those that are acknowledged, which lie in the
/// span.
fn without_acknowledged(
    room: Vec<Put>,
    waiting: Vec<Put>,
    news: Vec<Put>,
    span: Span,
    acks: &Acks,
) -> Vec<Put>
    requires empty { room.items ≡ [] }
    requires room { (length news.items == 0) ≡ false
        → length waiting.items + length news.items ≤ vec_capacity room }
    requires rising { Rising waiting.items }
    requires woven { Rising (weave waiting.items news.items) }
    requires free { AreFreeOutside span (ranges_in acks.now) (weave waiting.items news.items) }
    ensures { result.items ≡ filter (mail.is_uncovered (ranges_in acks.now))
        (weave waiting.items news.items) }
{
    let mut all = with_new_messages(room, waiting, news);
    drop_covered(&mut all, span, acks);
    all
}

/// How many of the messages are not acknowledged. All are asked.
fn count_each(puts: &[Put], acks: &Acks) -> usize
    ensures count { result ≡ count_by (mail.is_uncovered (ranges_in acks.now)) puts.now }
    ensures bound { result ≤ length puts.now }
{
    puts.iter().filter(|put| is_left(acks, *put)).count()
}

/// How many of the messages are not acknowledged. Only those of the span are asked.
fn count_left(puts: &[Put], span: Span, acks: &Acks) -> usize
    ensures { Rising puts.now
        → AreFreeOutside span (ranges_in acks.now) puts.now
        → result ≡ count_by (mail.is_uncovered (ranges_in acks.now)) puts.now }
{
    let (from, count) = between(puts, span);
    let asked = puts.split_at(from).1.split_at(count).0;
    puts.len() - count + count_each(asked, acks)
}

/// How many messages will wait, where these wait and those are new, and those that are acknowledged
/// lie in the span.
pub(crate) fn count_settled(
    waiting: &[Put],
    news: &[Put],
    span: Span,
    acks: &Acks,
) -> Result<usize, NoMemory>
    ensures { Rising waiting.now
        → Rising news.now
        → AreFreeOutside span (ranges_in acks.now) waiting.now
        → AreFreeOutside span (ranges_in acks.now) news.now
        → IfOk result (λ count. count
        ≡ length (filter (mail.is_uncovered (ranges_in acks.now)) (weave waiting.now news.now))) }
{
    sum(
        count_left(waiting, span, acks),
        count_left(news, span, acks),
    )
}

/// Both together.
fn sum(a: usize, b: usize) -> Result<usize, NoMemory>
    ensures { IfOk result (λ count. count ≡ a + b) }
{
    let count = a.checked_add(b).ok_or(NoMemory)?;
    Ok(count)
}
