//! When a frame is sent again, and when a run is over. A moment is a number of milliseconds since
//! the run began.

ghost use Rattle.std.specs.Prelude.{◌≡◌, ◌≤◌, ◌<◌, ◌*◌, ◌-◌, IsTrue, IsFalse, IsSome, if◌then◌else◌, false, true};

use crate::talk::Talk;

/// After how many milliseconds a frame that is not answered is sent again (T_retry of MQTT-SN 1.2
/// section 6.13, shortened for a person).
const RETRY: u64 = 1000;

/// How many milliseconds of silence end a run that has its answer: what the gateway sends after it
/// still comes.
const SILENCE: u64 = 300;

/// The moments of a run.
#[derive(Clone, Copy)]
pub(crate) struct Pace {
    /// When the time began to be counted: with the run, and for who wakes up with each frame that
    /// comes.
    pub since: u64,
    /// How long after that the run is over whatever comes.
    pub limit: u64,
    /// When the pending frame was sent last, if it was.
    pub sent: Option<u64>,
    /// When a frame went or came last.
    pub last: u64,
    /// Whether a frame came.
    pub came: bool,
}

impl Pace {
    /// The begin of a run of so many seconds; 0 for one without an end.
    pub(crate) fn of(seconds: u16) -> Pace
        ensures limit { 1 ≤ seconds → result.limit ≡ seconds * 1000 }
        ensures begun { (result.since ≡ 0) × (result.sent ≡ None) × (result.last ≡ 0)
            × (result.came ≡ false) }
    {
        let limit = if seconds == 0 {
            u64::MAX
        } else {
            u64::from(seconds) * 1000
        };
        Pace {
            since: 0,
            limit,
            sent: None,
            last: 0,
            came: false,
        }
    }

    /// Whether the run is over: its time is up, or it has its answer and nothing followed for a
    /// while.
    pub(crate) fn is_over(&self, talk: &Talk, moment: u64) -> bool
        ensures late { self.now.limit ≤ moment - self.now.since → IsTrue result }
        ensures waiting { moment - self.now.since < self.now.limit → talk.now.outcome ≡ None
            → IsFalse result }
    {
        if moment.saturating_sub(self.since) >= self.limit {
            return true;
        }
        talk.outcome.is_some() && self.sent.is_some() && moment.saturating_sub(self.last) >= SILENCE
    }

    /// Whether the pending frame is to be sent now: for the first time, or again where nothing has
    /// answered it.
    pub(crate) fn is_due(&self, talk: &Talk, moment: u64) -> bool
        ensures first { self.now.sent ≡ None → IsTrue result }
        ensures ended { IsSome talk.now.outcome → IsSome self.now.sent → IsFalse result }
    {
        match self.sent {
            None => true,
            Some(sent) => talk.outcome.is_none() && moment.saturating_sub(sent) >= RETRY,
        }
    }

    /// The time is counted from this moment on.
    pub(crate) fn wait_from(&mut self, moment: u64)
        ensures { self.new ≡ record self.old { since = moment } }
    {
        self.since = moment;
    }

    /// The pending frame was sent.
    pub(crate) fn note_sent(&mut self, moment: u64)
        ensures { self.new ≡ record self.old { sent = Some moment; last = moment } }
    {
        self.sent = Some(moment);
        self.last = moment;
    }

    /// A frame came, for which another is to be sent or not.
    pub(crate) fn note_came(&mut self, moment: u64, goes_on: bool)
        ensures came { (self.new.came ≡ true) × (self.new.last ≡ moment) }
        ensures limit { (self.new.limit ≡ self.old.limit) × (self.new.since ≡ self.old.since) }
        ensures sent { self.new.sent ≡ (if goes_on then None else self.old.sent) }
    {
        self.came = true;
        self.last = moment;
        if goes_on {
            self.sent = None;
        }
    }
}
