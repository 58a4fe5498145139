//! The way back of one of two replicas, before both take a delta. What `take` says of the way back
//! is what `take_both` needs.

use crate::sets::made_up::{delta, next};
use crate::sets::pairs::{Pair, keep_fault};
use crate::sets::words::Words;
use rep_model::{Replica, TakeFault};
use rep_ops::Delta;
use std::alloc::Global;

/// In a line `back` one of the two takes the deltas that are made up of the next two numbers, if
/// both are there, and goes back. The number that was used last.
pub(crate) fn there_and_back(
    words: &mut Words<'_>,
    pair: &mut Pair,
    number: u64,
    size: u64,
    is_plain: bool,
) -> u64 {
    if words.first != "back" {
        return number;
    }
    let first = next(number);
    let second = next(first);
    if let Some(one) = delta(words, first, size) {
        let other = delta(words, second, size);
        back_over(words, pair, one, other, is_plain);
    }
    second
}

/// One of the two takes a delta, and another one if that is there, and goes back.
fn back_over(
    words: &mut Words<'_>,
    pair: &mut Pair,
    one: Delta,
    other: Option<Delta>,
    is_plain: bool,
) {
    if let Some(two) = other {
        go_back(words, pair, &one, &two, is_plain);
        drop(two);
    }
    drop(one);
}

/// One of the two takes two deltas, as far as it can, and goes back.
fn go_back(words: &mut Words<'_>, pair: &mut Pair, one: &Delta, two: &Delta, is_plain: bool) {
    let gone = if is_plain {
        take_both(words.alloc, &mut pair.plain, one, two)
    } else {
        take_both(words.alloc, &mut pair.folded, one, two)
    };
    keep_fault(words, &gone);
    drop(gone);
}

/// A replica takes two deltas, as far as it can, and goes back to what it kept before.
fn take_both<R: Replica>(
    alloc: Global,
    replica: &mut R,
    one: &Delta,
    two: &Delta,
) -> Result<(), TakeFault> {
    let mut aside = replica.aside(alloc)?;
    let first = take(alloc, replica, &mut aside, one);
    let second = take(alloc, replica, &mut aside, two);
    replica.put_back(aside);
    first?;
    second
}

/// A replica takes a delta, if it can, and what that replaces lies aside.
fn take<R: Replica>(
    alloc: Global,
    replica: &mut R,
    aside: &mut R,
    delta: &Delta,
) -> Result<(), TakeFault>
    requires { R.can_go_back replica.old aside.old }
    ensures { R.can_go_back replica.new aside.new }
{
    let staged = replica.prepare(alloc, delta)?;
    replica.save(alloc, aside, &staged)?;
    replica.commit(staged);
    Ok(())
}
