//! How long is waited for something, and between two things that cost.

ghost use Rattle.std.specs.Prelude.{◌≡◌};
ghost use Rattle.gw_relay.specs.Pausing as spec;

/// How many seconds lie between two answers to digests of one gateway.
pub const ANSWER_PAUSE: u64 = 10;

/// How many seconds a gateway says nothing on a link at most, before it says its number again.
pub const QUIET_TIME: u64 = 30;

/// How many seconds nothing is heard of a gateway before its link is given up.
pub const GONE_TIME: u64 = 100;

/// How many seconds lie between two dials at most.
pub const LONGEST_PAUSE: u64 = 60;

/// How many seconds lie between two lines of one trouble.
pub const LINE_PAUSE: u64 = 60;

/// How many milliseconds a gateway listens at most after its start, before it serves.
pub const LONGEST_LISTENING: u64 = 5_000;

/// How many milliseconds nothing comes over links before all is taken to be heard that was there.
pub const QUIET_MOMENT: u64 = 1_000;

/// How many seconds the clock waits at most for a gateway that reads what clients have sent.
pub const LONGEST_BACKLOG: u64 = 60;

/// Whether a gateway that was started may serve, which dials so many peers. So many of them have
/// asked for what they lack, nothing has come and nothing was worked on for so many milliseconds,
/// and it has listened for so many: each peer was heard and then a moment was quiet, or it has
/// listened long enough.
pub fn may_serve(peers: u64, asked: u64, quiet: u64, listened: u64) -> bool
    ensures { result ≡ spec.may_serve peers asked quiet listened }
{
    listened >= LONGEST_LISTENING || (asked >= peers && quiet >= QUIET_MOMENT)
}

/// Whether no tick is made in a second, since the gateway has not read all that clients have sent.
/// The queue was full in a second, and has not been empty since: `None` where it was. A tick would
/// take clients for lost though they have spoken.
pub fn is_behind(since: Option<u64>, second: u64) -> bool
    ensures { result ≡ spec.is_behind since second }
{
    match since {
        None => false,
        Some(since) => second.saturating_sub(since) < LONGEST_BACKLOG,
    }
}

/// Whether a digest of a gateway may be answered in a second, after one that was answered before.
pub fn may_answer(last: u64, second: u64) -> bool
    ensures { result ≡ spec.may_answer last second }
{
    second.saturating_sub(last) >= ANSWER_PAUSE
}

/// Whether a gateway that last spoke in a second is to say its number again.
pub fn is_quiet(last: u64, second: u64) -> bool
    ensures { result ≡ spec.is_quiet last second }
{
    second.saturating_sub(last) >= QUIET_TIME
}

/// Whether the link of a gateway is given up that was last heard in a second.
pub fn is_gone(last: u64, second: u64) -> bool
    ensures { result ≡ spec.is_gone last second }
{
    second.saturating_sub(last) >= GONE_TIME
}

/// How many seconds a peer is not dialled, after a link that ended; the last pause was so long. A
/// peer that has not said its number is dialled less and less often.
pub fn next_pause(last: u64, has_spoken: bool) -> u64
    ensures { result ≡ spec.next_pause last has_spoken }
{
    if has_spoken {
        return 0;
    }
    if last >= LONGEST_PAUSE {
        return LONGEST_PAUSE;
    }
    let more = last + last + 1;
    if more >= LONGEST_PAUSE {
        return LONGEST_PAUSE;
    }
    more
}

/// Whether a link whose other end says its number ends another one: both were accepted, and the
/// number is the same. Who dials again has lost the older one.
pub fn replaces(is_accepted: bool, number: u8, older_is_accepted: bool, older: u8) -> bool
    ensures { result ≡ spec.replaces is_accepted number older_is_accepted older }
{
    is_accepted && older_is_accepted && number == older
}

/// Whether a trouble is to be told in a second: it has happened since it was last told, and that
/// was long enough before.
pub fn is_to_tell(count: u64, told: u64, last: Option<u64>, second: u64) -> bool
    ensures { result ≡ spec.is_to_tell count told last second }
{
    match last {
        None => count > told,
        Some(last) => count > told && second.saturating_sub(last) >= LINE_PAUSE,
    }
}
