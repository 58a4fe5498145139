//! The queue of a reading, and its place in it.

ghost use Rattle.std.specs.Prelude.{◌≡◌, ◌<◌, true, Some, None, IfOk};
ghost use Rattle.br_spool.specs.Places as spec;

use octets::NoMemory;
use rep_op::ClientId;
use std::alloc::Global;

/// The number of a spool as a gateway, and as the origin of its messages.
pub const SPOOL: u8 = 255;

/// How many queues there are.
pub const QUEUES: u64 = 64;

/// How many readings go into a queue before the next one has its turn.
pub const TURN: u64 = 8_192;

/// The last place in a queue: each number below 64 times as many has a place.
pub const LAST_SEQ: u64 = 288_230_376_151_703_552;

/// How many readings a spool holds at most: then a queue has two turns of them, which are as many
/// messages as may wait for a client.
pub const MAX_ROOM: u64 = 1_000_000;

/// The queue of the reading of this number. Many readings in turn go into one queue, so that their
/// acknowledgements become one range.
pub fn queue_of(number: u64) -> u8
    ensures { result ≡ spec.queue_of number }
{
    (number / TURN % QUEUES) as u8
}

/// Its place in the queue, from 1.
pub fn number_seq(number: u64) -> u64
    ensures { result ≡ spec.number_seq number }
{
    number / TURN / QUEUES * TURN + number % TURN + 1
}

/// Whether a queue has this place.
fn is_place(queue: u8, seq: u64) -> bool
    ensures { result ≡ spec.is_place queue seq }
{
    u64::from(queue) < QUEUES && 1 <= seq && seq <= LAST_SEQ
}

/// The number of the reading at a place that there is.
fn place_number(queue: u8, seq: u64) -> u64
    requires { spec.is_place queue seq ≡ true }
    ensures { result ≡ spec.place_number queue seq }
{
    let before = seq - 1;
    (before / TURN * QUEUES + u64::from(queue)) * TURN + before % TURN
}

/// The number of the reading at a place of a queue, if there is such a place.
pub fn number_at_place(queue: u8, seq: u64) -> Option<u64>
    ensures { result ≡ spec.number_at_place queue seq }
{
    if is_place(queue, seq) {
        Some(place_number(queue, seq))
    } else {
        None
    }
}

/// The client whose messages are the readings of a queue: `q00` to `q63`.
pub(crate) fn queue_client(alloc: Global, queue: u8) -> Result<ClientId, NoMemory>
    requires { queue < 64 }
    ensures { IfOk result (λ client. client ≡ spec.queue_client queue) }
{
    match ClientId::new(alloc, &[b'q', b'0' + queue / 10, b'0' + queue % 10]) {
        Ok(client) => Ok(client),
        Err(_) => Err(NoMemory),
    }
}

/// The queue that two digits write, if they do.
fn queue_by(tens: u8, ones: u8) -> Option<u8>
    ensures { result ≡ spec.queue_by tens ones }
{
    if b'0' <= tens && tens < b'7' && b'0' <= ones && ones <= b'9' {
        Some((tens - b'0') * 10 + (ones - b'0'))
    } else {
        None
    }
}

/// The queue whose client this is.
pub(crate) fn queue_in(client: &[u8]) -> Option<u8>
    ensures { result ≡ spec.queue_in client.now }
{
    match client {
        [b'q', tens, ones] => queue_by(*tens, *ones),
        _ => None,
    }
}
