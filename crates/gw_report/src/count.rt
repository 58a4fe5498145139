//! The numbers that a gateway shows, with their words.

ghost use Rattle.std.specs.Prelude.{◌≡◌};
ghost use Rattle.gw_report.specs.Words.{kind_word, single_name, single_help, single_kind, is_in_thousandths, column_name, column_help, column_kind, count_name, count_help, count_kind};

/// Whether a number only grows.
#[derive(Clone, Copy)]
pub enum Kind {
    /// It only grows while the program runs.
    Counter,
    /// It may fall.
    Gauge,
}

impl Kind {
    /// How Prometheus writes the kind.
    #[tactic(auto, unfolding(crate::specs::Words::kind_word))]
    pub fn word(self) -> &'static str
        ensures { result.now ≡ kind_word self }
    {
        match self {
            Kind::Counter => "counter",
            Kind::Gauge => "gauge",
        }
    }
}

/// A number that has no label. Durations are in seconds, or in thousandths of one.
#[derive(Clone, Copy)]
pub enum Single {
    /// Seconds since the program began.
    UpSeconds,
    /// The number of the shift.
    Shift,
    /// The calls of the last shift that was closed.
    ShiftCalls,
    /// What came to the socket.
    DatagramsReceived,
    /// What came, and was dropped before it was a call.
    DatagramsDropped,
    /// What could not be sent.
    DatagramsUnsent,
    /// The last time between two shifts, in thousandths.
    TurnSeconds,
    /// The longest such time of the last hour, in thousandths.
    TurnSecondsMax,
    /// The last compaction, in thousandths.
    CompactionSeconds,
    /// The longest compaction of the last hour, in thousandths.
    CompactionSecondsMax,
    /// 1 if the gateway is halted, else 0.
    Halted,
    /// Since the clock's last round began, in thousandths.
    TickAgeSeconds,
    /// The longest round of the clock in the last hour, in thousandths.
    TickSecondsMax,
    /// Seconds for which the clock stood still, in all.
    StoodStillSeconds,
    /// Incoming links that found no place.
    LinksTurnedAway,
    /// Clients that this gateway owns.
    ClientsOwned,
    /// Clients whose address this gateway knows.
    ClientsBound,
    /// Messages that wait.
    WaitingMessages,
    /// The most messages that wait for one client.
    WaitingMost,
    /// Clients for which three quarters of the limit wait.
    ClientsNearFull,
    /// Clients for which so many messages wait that others are passed over.
    ClientsFull,
    /// Clients that have nearly all topic ids that a session may have.
    TopicsNearFull,
    /// The longest time in seconds that the first message of an active client stayed the same.
    StuckSecondsMost,
    /// A hash of the set: equal sets have equal marks.
    SetMark,
    /// Events whose line was left out, or for which memory ran out.
    EventsLost,
    /// Memory of the process that is resident, in octets.
    ResidentMemory,
    /// When the process began, in seconds since 1970.
    StartTime,
}

impl Single {
    /// The name, without the `nimhazel_` that begins it.
    #[tactic(auto, unfolding(crate::specs::Words::single_name))]
    pub fn name(self) -> &'static str
        ensures { result.now ≡ single_name self }
    {
        match self {
            Single::UpSeconds => "up_seconds",
            Single::Shift => "shift",
            Single::ShiftCalls => "shift_calls",
            Single::DatagramsReceived => "datagrams_received_total",
            Single::DatagramsDropped => "datagrams_dropped_total",
            Single::DatagramsUnsent => "datagrams_unsent_total",
            Single::TurnSeconds => "turn_seconds",
            Single::TurnSecondsMax => "turn_seconds_max",
            Single::CompactionSeconds => "compaction_seconds",
            Single::CompactionSecondsMax => "compaction_seconds_max",
            Single::Halted => "halted",
            Single::TickAgeSeconds => "tick_age_seconds",
            Single::TickSecondsMax => "tick_seconds_max",
            Single::StoodStillSeconds => "stood_still_seconds_total",
            Single::LinksTurnedAway => "links_turned_away_total",
            Single::ClientsOwned => "clients_owned",
            Single::ClientsBound => "clients_bound",
            Single::WaitingMessages => "waiting_messages",
            Single::WaitingMost => "waiting_most",
            Single::ClientsNearFull => "clients_near_full",
            Single::ClientsFull => "clients_full",
            Single::TopicsNearFull => "topics_near_full",
            Single::StuckSecondsMost => "stuck_seconds_most",
            Single::SetMark => "set_mark",
            Single::EventsLost => "events_lost_total",
            Single::ResidentMemory => "process_resident_memory_bytes",
            Single::StartTime => "process_start_time_seconds",
        }
    }

    /// What it is, in a sentence or two.
    #[tactic(auto, unfolding(crate::specs::Words::single_help))]
    pub fn help(self) -> &'static str
        ensures { result.now ≡ single_help self }
    {
        match self {
            Single::UpSeconds => "Seconds since the program began.",
            Single::Shift => "Number of the shift.",
            Single::ShiftCalls => "Calls of the last shift that was closed.",
            Single::DatagramsReceived => "Datagrams that came to the socket.",
            Single::DatagramsDropped => "Datagrams that were dropped before they were a call.",
            Single::DatagramsUnsent => "Datagrams that could not be sent.",
            Single::TurnSeconds => "Last time between two shifts, in which nobody is served.",
            Single::TurnSecondsMax => "Longest time between two shifts in the last hour.",
            Single::CompactionSeconds => "Duration of the last compaction.",
            Single::CompactionSecondsMax => "Longest compaction of the last hour.",
            Single::Halted => "1 if the gateway is halted, since a write failed.",
            Single::TickAgeSeconds => "Time since the last round of the clock began.",
            Single::TickSecondsMax => "Longest round of the clock in the last hour.",
            Single::StoodStillSeconds => "Seconds for which the clock stood still.",
            Single::LinksTurnedAway => "Incoming links that were closed at once.",
            Single::ClientsOwned => "Clients that this gateway owns.",
            Single::ClientsBound => "Clients whose address this gateway knows.",
            Single::WaitingMessages => "Messages that wait for all clients.",
            Single::WaitingMost => "Most messages that wait for one client.",
            Single::ClientsNearFull => "Clients with 768 waiting messages or more.",
            Single::ClientsFull => {
                "Clients with 1024 waiting messages. They get no others, despite PUBACK."
            }
            Single::TopicsNearFull => "Clients with 240 topic ids or more, of 256.",
            Single::StuckSecondsMost => {
                "Longest time that the first message of an active client stayed the same."
            }
            Single::SetMark => "Hash of the set. Gateways with equal sets have equal marks.",
            Single::EventsLost => "Events that were dropped before they were written.",
            Single::ResidentMemory => "Resident memory of the process.",
            Single::StartTime => "Start of the process, in seconds since 1970.",
        }
    }

    /// Whether it only grows.
    #[tactic(auto, unfolding(crate::specs::Words::single_kind))]
    pub fn kind(self) -> Kind
        ensures { result ≡ single_kind self }
    {
        match self {
            Single::UpSeconds => Kind::Gauge,
            Single::Shift => Kind::Gauge,
            Single::ShiftCalls => Kind::Gauge,
            Single::DatagramsReceived => Kind::Counter,
            Single::DatagramsDropped => Kind::Counter,
            Single::DatagramsUnsent => Kind::Counter,
            Single::TurnSeconds => Kind::Gauge,
            Single::TurnSecondsMax => Kind::Gauge,
            Single::CompactionSeconds => Kind::Gauge,
            Single::CompactionSecondsMax => Kind::Gauge,
            Single::Halted => Kind::Gauge,
            Single::TickAgeSeconds => Kind::Gauge,
            Single::TickSecondsMax => Kind::Gauge,
            Single::StoodStillSeconds => Kind::Counter,
            Single::LinksTurnedAway => Kind::Counter,
            Single::ClientsOwned => Kind::Gauge,
            Single::ClientsBound => Kind::Gauge,
            Single::WaitingMessages => Kind::Gauge,
            Single::WaitingMost => Kind::Gauge,
            Single::ClientsNearFull => Kind::Gauge,
            Single::ClientsFull => Kind::Gauge,
            Single::TopicsNearFull => Kind::Gauge,
            Single::StuckSecondsMost => Kind::Gauge,
            Single::SetMark => Kind::Gauge,
            Single::EventsLost => Kind::Counter,
            Single::ResidentMemory => Kind::Gauge,
            Single::StartTime => Kind::Gauge,
        }
    }

    /// Whether the value is in thousandths.
    #[tactic(auto, unfolding(crate::specs::Words::is_in_thousandths))]
    pub fn in_thousandths(self) -> bool
        ensures { result ≡ is_in_thousandths self }
    {
        match self {
            Single::UpSeconds => false,
            Single::Shift => false,
            Single::ShiftCalls => false,
            Single::DatagramsReceived => false,
            Single::DatagramsDropped => false,
            Single::DatagramsUnsent => false,
            Single::TurnSeconds => true,
            Single::TurnSecondsMax => true,
            Single::CompactionSeconds => true,
            Single::CompactionSecondsMax => true,
            Single::Halted => false,
            Single::TickAgeSeconds => true,
            Single::TickSecondsMax => true,
            Single::StoodStillSeconds => false,
            Single::LinksTurnedAway => false,
            Single::ClientsOwned => false,
            Single::ClientsBound => false,
            Single::WaitingMessages => false,
            Single::WaitingMost => false,
            Single::ClientsNearFull => false,
            Single::ClientsFull => false,
            Single::TopicsNearFull => false,
            Single::StuckSecondsMost => false,
            Single::SetMark => false,
            Single::EventsLost => false,
            Single::ResidentMemory => false,
            Single::StartTime => false,
        }
    }
}

/// A number that each place of a link has.
#[derive(Clone, Copy)]
pub enum Column {
    /// 1 if a link is up, else 0.
    Up,
    /// The number of the gateway at the other end; 0 if it is not known.
    Number,
    /// Seconds since the link was made.
    SinceSeconds,
    /// Seconds since anything came over the link.
    HeardSeconds,
    /// Octets that wait to go out, without those of an answer.
    WaitingOctets,
    /// Deltas that were sent.
    Told,
    /// Deltas that came and were taken.
    Taken,
    /// Operations of the last answer that was given.
    AnswerOperations,
    /// Octets that came.
    ReceivedOctets,
    /// Octets that went out.
    SentOctets,
    /// Dials that made no link.
    DialsFailed,
}

impl Column {
    /// The name, without the `nimhazel_` that begins it.
    #[tactic(auto, unfolding(crate::specs::Words::column_name))]
    pub fn name(self) -> &'static str
        ensures { result.now ≡ column_name self }
    {
        match self {
            Column::Up => "link_up",
            Column::Number => "link_number",
            Column::SinceSeconds => "link_since_seconds",
            Column::HeardSeconds => "link_heard_seconds",
            Column::WaitingOctets => "link_waiting_octets",
            Column::Told => "link_told_total",
            Column::Taken => "link_taken_total",
            Column::AnswerOperations => "link_answer_operations",
            Column::ReceivedOctets => "link_received_octets_total",
            Column::SentOctets => "link_sent_octets_total",
            Column::DialsFailed => "dials_failed_total",
        }
    }

    /// What it is, in a sentence or two.
    #[tactic(auto, unfolding(crate::specs::Words::column_help))]
    pub fn help(self) -> &'static str
        ensures { result.now ≡ column_help self }
    {
        match self {
            Column::Up => "1 if a link is up.",
            Column::Number => "Number of the gateway at the other end, 0 if unknown.",
            Column::SinceSeconds => "Seconds since the link was made.",
            Column::HeardSeconds => "Seconds since anything came over the link.",
            Column::WaitingOctets => "Octets that wait to go out, without those of an answer.",
            Column::Told => "Deltas that were sent.",
            Column::Taken => "Deltas that came and were taken.",
            Column::AnswerOperations => "Operations of the last answer that was given.",
            Column::ReceivedOctets => "Octets that came.",
            Column::SentOctets => "Octets that went out.",
            Column::DialsFailed => "Dials that made no link.",
        }
    }

    /// Whether it only grows.
    #[tactic(auto, unfolding(crate::specs::Words::column_kind))]
    pub fn kind(self) -> Kind
        ensures { result ≡ column_kind self }
    {
        match self {
            Column::Up => Kind::Gauge,
            Column::Number => Kind::Gauge,
            Column::SinceSeconds => Kind::Gauge,
            Column::HeardSeconds => Kind::Gauge,
            Column::WaitingOctets => Kind::Gauge,
            Column::Told => Kind::Counter,
            Column::Taken => Kind::Counter,
            Column::AnswerOperations => Kind::Gauge,
            Column::ReceivedOctets => Kind::Counter,
            Column::SentOctets => Kind::Counter,
            Column::DialsFailed => Kind::Counter,
        }
    }
}

/// A name whose numbers are told apart by labels.
#[derive(Clone, Copy)]
pub enum Count {
    /// Datagrams that came, by the type of their frame.
    FramesReceived,
    /// Datagrams that went out, by the type of their frame.
    DatagramsSent,
    /// Calls of closed shifts, by kind and answer.
    Calls,
    /// Compactions, by result.
    Compactions,
    /// Openings while the program runs, by place.
    Reopenings,
    /// Clients, by presence.
    Clients,
    /// The octets of each file of the journal.
    JournalOctets,
    /// Messages of each origin that are known here.
    MessagesKnown,
    /// Deltas that came and were refused, by place and fault.
    LinkRefused,
}

impl Count {
    /// The name, without the `nimhazel_` that begins it.
    #[tactic(auto, unfolding(crate::specs::Words::count_name))]
    pub fn name(self) -> &'static str
        ensures { result.now ≡ count_name self }
    {
        match self {
            Count::FramesReceived => "frames_received_total",
            Count::DatagramsSent => "datagrams_sent_total",
            Count::Calls => "calls_total",
            Count::Compactions => "compactions_total",
            Count::Reopenings => "reopenings_total",
            Count::Clients => "clients",
            Count::JournalOctets => "journal_octets",
            Count::MessagesKnown => "messages_known",
            Count::LinkRefused => "link_refused_total",
        }
    }

    /// What it is, in a sentence or two.
    #[tactic(auto, unfolding(crate::specs::Words::count_help))]
    pub fn help(self) -> &'static str
        ensures { result.now ≡ count_help self }
    {
        match self {
            Count::FramesReceived => "Datagrams that came, by message type.",
            Count::DatagramsSent => "Datagrams that went out, by message type.",
            Count::Calls => "Calls of closed shifts, by kind and answer.",
            Count::Compactions => "Compactions of the journal, by result.",
            Count::Reopenings => "Openings while the program runs. Each disconnects every client.",
            Count::Clients => "Clients that the gateway knows, by presence.",
            Count::JournalOctets => "Octets of each file of the journal.",
            Count::MessagesKnown => "Messages of each origin that are known here.",
            Count::LinkRefused => "Deltas that came and were refused, by fault.",
        }
    }

    /// Whether it only grows.
    #[tactic(auto, unfolding(crate::specs::Words::count_kind))]
    pub fn kind(self) -> Kind
        ensures { result ≡ count_kind self }
    {
        match self {
            Count::FramesReceived => Kind::Counter,
            Count::DatagramsSent => Kind::Counter,
            Count::Calls => Kind::Counter,
            Count::Compactions => Kind::Counter,
            Count::Reopenings => Kind::Counter,
            Count::Clients => Kind::Gauge,
            Count::JournalOctets => Kind::Gauge,
            Count::MessagesKnown => Kind::Gauge,
            Count::LinkRefused => Kind::Counter,
        }
    }
}
