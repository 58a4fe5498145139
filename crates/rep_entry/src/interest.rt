//! Which topics a client's filters may ask for, as a few marks.
//!
//! Each topic has one of 64 marks, made of its octets. Of a client those are kept that the topics
//! may have for which its filters ask; a filter with a wildcard may ask for any. So a publication
//! passes over most clients that it is not for, and looks at no filter of theirs.
//!
//! The mark is the highest six bits of a mix like that of Fowler, Noll and Vo. A client with one
//! filter is asked without need by one publication in 64. Names that differ in their last digit
//! alone have few marks, since that octet moves the mark by a quarter for each step: there it is
//! one in three.

ghost use Rattle.std.specs.Prelude.{◌≡◌, ◌<◌};
ghost use Rattle.rep_entry.specs.Interests.{AsksWithin, AskWithin, SessionWithin};
ghost use Rattle.rep_entry.specs.Interests as spec;

use sn_session::Session;
use sn_tables::Subscription;
use sn_topic::Filter;

/// Every mark.
const ALL_MARKS: u64 = u64::MAX;

/// A number of 32 bits, mixed with one octet more.
fn mixed_with(mixed: u64, octet: u8) -> u64
    requires { mixed < 4294967296 }
    ensures value { result ≡ spec.mixed_with mixed octet }
    ensures small { result < 4294967296 }
{
    (mixed + octet as u64) * 16_777_619 % 4_294_967_296
}

/// The mark of a topic, 0 to 63.
pub fn mark_of(octets: &[u8]) -> u64
    ensures value { result ≡ spec.mark_of octets.now }
    ensures few { result < 64 }
{
    let mut mixed = 2_166_136_261;
    for octet in octets {
        mixed = mixed_with(mixed, *octet);
    }
    mixed / 67_108_864
}

/// Whether a mark is among these.
pub fn has_mark(marks: u64, mark: u64) -> bool
    requires { mark < 64 }
    ensures { result ≡ spec.has_mark marks mark }
{
    (marks >> mark) % 2 == 1
}

/// The marks of the topics for which a filter may ask.
fn marks_in(filter: &Filter) -> u64
    ensures { AsksWithin result filter.now }
{
    if filter.has_wildcard() {
        ALL_MARKS
    } else {
        1 << mark_of(filter.bytes())
    }
}

/// The marks of the topics for which these subscriptions may ask.
fn marks_among(subscriptions: &[Subscription]) -> u64
    ensures { AskWithin result subscriptions.now }
{
    let mut marks = 0;
    for subscription in subscriptions {
        marks |= marks_in(&subscription.filter);
    }
    marks
}

/// The marks of the topics for which a client with this session may ask.
pub fn marks_of(session: &Option<Session>) -> u64
    ensures { SessionWithin result session.now }
{
    match session {
        None => 0,
        Some(session) => marks_among(session.subscriptions.as_slice()),
    }
}
