//! The numbers of a report.

ghost use Rattle.std.specs.Prelude.{◌≡◌};
ghost use Rattle.gw_report.specs.Numbers.{single_value, link_value};

use super::count::{Column, Single};
use super::label::{Label, Place};
use octets::Sequence;

/// How many numbers have no label.
pub const SINGLE_COUNT: usize = 27;

/// The numbers without a label, in the order in which they are shown.
pub const SINGLES: [Single; SINGLE_COUNT] = [
    Single::UpSeconds,
    Single::Shift,
    Single::ShiftCalls,
    Single::DatagramsReceived,
    Single::DatagramsDropped,
    Single::DatagramsUnsent,
    Single::TurnSeconds,
    Single::TurnSecondsMax,
    Single::CompactionSeconds,
    Single::CompactionSecondsMax,
    Single::Halted,
    Single::TickAgeSeconds,
    Single::TickSecondsMax,
    Single::StoodStillSeconds,
    Single::LinksTurnedAway,
    Single::ClientsOwned,
    Single::ClientsBound,
    Single::WaitingMessages,
    Single::WaitingMost,
    Single::ClientsNearFull,
    Single::ClientsFull,
    Single::TopicsNearFull,
    Single::StuckSecondsMost,
    Single::SetMark,
    Single::EventsLost,
    Single::ResidentMemory,
    Single::StartTime,
];

/// How many numbers each place of a link has.
pub const COLUMN_COUNT: usize = 11;

/// The numbers of a place of a link, in the order in which they are shown.
pub const COLUMNS: [Column; COLUMN_COUNT] = [
    Column::Up,
    Column::Number,
    Column::SinceSeconds,
    Column::HeardSeconds,
    Column::WaitingOctets,
    Column::Told,
    Column::Taken,
    Column::AnswerOperations,
    Column::ReceivedOctets,
    Column::SentOctets,
    Column::DialsFailed,
];

/// A number with the label that tells it from others of its name.
#[derive(Clone, Copy)]
pub struct Sample {
    /// The label.
    pub label: Label,
    /// The number.
    pub value: u64,
}

/// The numbers without a label. Durations are in seconds, or in thousandths if
/// `Single::in_thousandths` says so.
#[derive(Default, Drop)]
pub struct Singles {
    /// Seconds since the program began.
    pub up_seconds: u64,
    /// The number of the shift.
    pub shift: u64,
    /// The calls of the last shift that was closed.
    pub shift_calls: u64,
    /// What came to the socket.
    pub datagrams_received: u64,
    /// What came, and was dropped before it was a call.
    pub datagrams_dropped: u64,
    /// What could not be sent.
    pub datagrams_unsent: u64,
    /// The last time between two shifts, in thousandths.
    pub turn_seconds: u64,
    /// The longest such time of the last hour, in thousandths.
    pub turn_seconds_max: u64,
    /// The last compaction, in thousandths.
    pub compaction_seconds: u64,
    /// The longest compaction of the last hour, in thousandths.
    pub compaction_seconds_max: u64,
    /// 1 if the gateway is halted, else 0.
    pub halted: u64,
    /// Since the clock's last round began, in thousandths.
    pub tick_age_seconds: u64,
    /// The longest round of the clock in the last hour, in thousandths.
    pub tick_seconds_max: u64,
    /// Seconds for which the clock stood still, in all.
    pub stood_still_seconds: u64,
    /// Incoming links that found no place.
    pub links_turned_away: u64,
    /// Clients that this gateway owns.
    pub clients_owned: u64,
    /// Clients whose address this gateway knows.
    pub clients_bound: u64,
    /// Messages that wait.
    pub waiting_messages: u64,
    /// The most messages that wait for one client.
    pub waiting_most: u64,
    /// Clients for which three quarters of the limit wait.
    pub clients_near_full: u64,
    /// Clients for which so many messages wait that others are passed over.
    pub clients_full: u64,
    /// Clients that have nearly all topic ids that a session may have.
    pub topics_near_full: u64,
    /// The longest time in seconds that the first message of an active client stayed the same.
    pub stuck_seconds_most: u64,
    /// A hash of the set: equal sets have equal marks.
    pub set_mark: u64,
    /// Events that were dropped, since the list was locked or full.
    pub events_lost: u64,
    /// Memory of the process that is resident, in octets.
    pub resident_memory: u64,
    /// When the process began, in seconds since 1970.
    pub start_time: u64,
}

impl Singles {
    /// The number of this name.
    #[tactic(auto, unfolding(crate::specs::Numbers::single_value))]
    pub fn value(&self, single: Single) -> u64
        ensures { result ≡ single_value self.now single }
    {
        match single {
            Single::UpSeconds => self.up_seconds,
            Single::Shift => self.shift,
            Single::ShiftCalls => self.shift_calls,
            Single::DatagramsReceived => self.datagrams_received,
            Single::DatagramsDropped => self.datagrams_dropped,
            Single::DatagramsUnsent => self.datagrams_unsent,
            Single::TurnSeconds => self.turn_seconds,
            Single::TurnSecondsMax => self.turn_seconds_max,
            Single::CompactionSeconds => self.compaction_seconds,
            Single::CompactionSecondsMax => self.compaction_seconds_max,
            Single::Halted => self.halted,
            Single::TickAgeSeconds => self.tick_age_seconds,
            Single::TickSecondsMax => self.tick_seconds_max,
            Single::StoodStillSeconds => self.stood_still_seconds,
            Single::LinksTurnedAway => self.links_turned_away,
            Single::ClientsOwned => self.clients_owned,
            Single::ClientsBound => self.clients_bound,
            Single::WaitingMessages => self.waiting_messages,
            Single::WaitingMost => self.waiting_most,
            Single::ClientsNearFull => self.clients_near_full,
            Single::ClientsFull => self.clients_full,
            Single::TopicsNearFull => self.topics_near_full,
            Single::StuckSecondsMost => self.stuck_seconds_most,
            Single::SetMark => self.set_mark,
            Single::EventsLost => self.events_lost,
            Single::ResidentMemory => self.resident_memory,
            Single::StartTime => self.start_time,
        }
    }
}

/// What is known of a place of a link. If no link is up, the numbers are those of the last one.
pub struct Link {
    /// The place.
    pub place: Place,
    /// 1 if a link is up, else 0.
    pub up: u64,
    /// The number of the gateway at the other end; 0 if it is not known.
    pub number: u64,
    /// Seconds since the link was made.
    pub since_seconds: u64,
    /// Seconds since anything came over the link.
    pub heard_seconds: u64,
    /// Octets that wait to go out.
    pub waiting_octets: u64,
    /// Deltas that were sent.
    pub told: u64,
    /// Deltas that came and were taken.
    pub taken: u64,
    /// Operations of the last answer that was given.
    pub answer_operations: u64,
    /// Octets that came.
    pub received_octets: u64,
    /// Octets that went out.
    pub sent_octets: u64,
    /// Dials that made no link.
    pub dials_failed: u64,
}

impl Drop for Link {
    fn drop(self) {
        let Link {
            place,
            up: _,
            number: _,
            since_seconds: _,
            heard_seconds: _,
            waiting_octets: _,
            told: _,
            taken: _,
            answer_operations: _,
            received_octets: _,
            sent_octets: _,
            dials_failed: _,
        } = self;
        drop(place);
    }
}

impl Link {
    /// The number of this name.
    #[tactic(auto, unfolding(crate::specs::Numbers::link_value))]
    pub fn value(&self, column: Column) -> u64
        ensures { result ≡ link_value self.now column }
    {
        match column {
            Column::Up => self.up,
            Column::Number => self.number,
            Column::SinceSeconds => self.since_seconds,
            Column::HeardSeconds => self.heard_seconds,
            Column::WaitingOctets => self.waiting_octets,
            Column::Told => self.told,
            Column::Taken => self.taken,
            Column::AnswerOperations => self.answer_operations,
            Column::ReceivedOctets => self.received_octets,
            Column::SentOctets => self.sent_octets,
            Column::DialsFailed => self.dials_failed,
        }
    }
}

/// All numbers of a report: each has a place of its own, so none is left out and none is there
/// twice.
pub struct Numbers {
    /// Those without a label.
    pub singles: Singles,
    /// Datagrams that came, by the type of their frame.
    pub frames_received: Sequence<Sample>,
    /// Datagrams that went out, by the type of their frame.
    pub datagrams_sent: Sequence<Sample>,
    /// Calls of closed shifts, by kind and answer.
    pub calls: Sequence<Sample>,
    /// Compactions, by result.
    pub compactions: Sequence<Sample>,
    /// Openings while the program runs, by place.
    pub reopenings: Sequence<Sample>,
    /// Clients, by presence.
    pub clients: Sequence<Sample>,
    /// The octets of each file of the journal.
    pub journal_octets: Sequence<Sample>,
    /// Messages of each origin that are known here.
    pub messages_known: Sequence<Sample>,
    /// The places of links.
    pub links: Sequence<Link>,
    /// Deltas that came and were refused, by place and fault.
    pub link_refused: Sequence<Sample>,
}

impl Drop for Numbers {
    fn drop(self) {
        let Numbers {
            singles,
            frames_received,
            datagrams_sent,
            calls,
            compactions,
            reopenings,
            clients,
            journal_octets,
            messages_known,
            links,
            link_refused,
        } = self;
        drop(singles);
        drop(frames_received);
        drop(datagrams_sent);
        drop(calls);
        drop(compactions);
        drop(reopenings);
        drop(clients);
        drop(journal_octets);
        drop(messages_known);
        drop(links);
        drop(link_refused);
    }
}
