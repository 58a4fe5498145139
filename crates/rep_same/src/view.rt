//! Whether two messages that wait, or two views of a client, are equal.

ghost use Rattle.std.specs.Prelude.{◌≡◌, ◌↔◌, IsTrue};

use super::change::same_session;
use rep_model::ClientView;
use rep_model::rep_ops::Put;
use sn_session::Session;

/// Whether two messages are equal.
pub fn same_put(a: &Put, b: &Put) -> bool
    ensures { IsTrue result ↔ (a.now ≡ b.now) }
{
    a == b
}

/// Whether two lists of messages are equal.
fn same_puts(a: &[Put], b: &[Put]) -> bool
    ensures { IsTrue result ↔ (a.now ≡ b.now) }
{
    let mut left = a;
    let mut right = b;
    'puts: while let (Some((x, xs)), Some((y, ys))) = (left.split_first(), right.split_first()) {
        if !same_put(x, y) {
            return false;
        }
        left = xs;
        right = ys;
    }
    left.is_empty() && right.is_empty()
}

/// Whether two sessions are equal, where there are any.
fn same_fold(a: &Option<Session>, b: &Option<Session>) -> bool
    ensures { IsTrue result ↔ (a.now ≡ b.now) }
{
    match (a, b) {
        (None, None) => true,
        (Some(x), Some(y)) => same_session(x, y),
        _ => false,
    }
}

/// Whether two views are equal.
pub fn same_view(a: &ClientView, b: &ClientView) -> bool
    ensures { IsTrue result ↔ (a.now ≡ b.now) }
{
    a.stamp == b.stamp
        && a.prefix == b.prefix
        && same_fold(&a.session, &b.session)
        && same_puts(a.pending.as_slice(), b.pending.as_slice())
}
