//! How many messages of a gateway are known for a client.

ghost use Rattle.std.specs.Prelude.{◌≡◌};
ghost use Rattle.gw_glance.specs.Knowing.{known_below};
ghost use Rattle.gw_glance.specs.Knowing as spec;

use rep_model::Replica;
use rep_op::ClientId;

/// How many numbers are below the next one, which begins with 1; all, after the last.
fn numbers_below(next: Option<u64>) -> u64
    ensures { result ≡ known_below next }
{
    match next {
        None => u64::MAX,
        Some(number) => number.saturating_sub(1),
    }
}

/// How many messages a gateway has put for a client, as far as is known here: it numbers them from
/// 1 on. Those count that are acknowledged, and those that were passed by a later one.
pub fn messages_known<R: Replica>(replica: &R, client: &ClientId, origin: u8) -> u64
    ensures { result ≡ spec.messages_known client.now origin (R.kept replica.now) }
{
    numbers_below(replica.next_seq(client, origin))
}
