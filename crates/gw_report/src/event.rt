//! What an operator may want to hear of: numbers and client ids, no text.

ghost use Rattle.std.specs.Prelude.{◌≡◌};
ghost use Rattle.gw_report.specs.Events.{level_of, level_number, level_word};

use rep_op::ClientId;

/// How bad an event is.
#[derive(Clone, Copy)]
pub enum Level {
    /// Somebody must act.
    Error,
    /// Somebody should look.
    Warning,
    /// The field as it should be.
    Info,
    /// For whoever looks for the cause of something.
    Debug,
}

impl Level {
    /// Its number in the journal of the system, as syslog has it (RFC 5424 section 6.2.1).
    pub fn number(self) -> u8
        ensures { result ≡ level_number self }
    {
        match self {
            Level::Error => 3,
            Level::Warning => 4,
            Level::Info => 6,
            Level::Debug => 7,
        }
    }

    /// How it is written.
    #[tactic(auto, unfolding(crate::specs::Events::level_word))]
    pub fn word(self) -> &'static str
        ensures { result.now ≡ level_word self }
    {
        match self {
            Level::Error => "err",
            Level::Warning => "warning",
            Level::Info => "info",
            Level::Debug => "debug",
        }
    }
}

/// Events on which somebody must act.
#[derive(Drop)]
pub enum Alarm {
    /// Another gateway says the number of this one.
    SameNumber {
        /// The number.
        number: u8,
        /// How often since the last such event.
        times: u64,
    },
    /// Deltas were refused, since they contradict what is kept.
    Conflict {
        /// The number of the peer; 0 if it is not known.
        number: u8,
        /// How many since the last such event.
        times: u64,
    },
    /// A gateway was linked once more while it was linked: two may have one number.
    Twice {
        /// Its number.
        number: u8,
        /// How often since the last such event.
        times: u64,
    },
    /// A write failed, and the gateway is halted.
    Halted,
}

/// Events at which somebody should look.
pub enum Warning {
    /// The gateway was opened again, and all clients are disconnected.
    Reopened,
    /// The journal could not be written anew.
    NotCompacted,
    /// A gateway that may not be linked was not linked.
    Stranger {
        /// Its number.
        number: u8,
        /// How often since the last such event.
        times: u64,
    },
    /// Deltas were refused, since a limit is met.
    DeltaFull {
        /// The number of the peer; 0 if it is not known.
        number: u8,
        /// How many since the last such event.
        times: u64,
    },
    /// Incoming links were closed at once, since there is no place for more.
    TurnedAway {
        /// How many since the last such event.
        times: u64,
    },
    /// So many messages wait for a client that it gets no others.
    ClientFull {
        /// The client.
        client: ClientId,
    },
    /// A client has nearly all topic ids that a session may have.
    TopicsNearFull {
        /// The client.
        client: ClientId,
        /// How many it has.
        topics: u64,
    },
    /// Three quarters of the clients are there that there may be.
    ClientsNearFull {
        /// How many there are.
        clients: u64,
    },
    /// Datagrams were dropped.
    Dropped {
        /// How many since the last such event.
        times: u64,
    },
    /// For a minute nothing could be sent.
    NothingSent,
    /// The clock stood still.
    StoodStill {
        /// For so many seconds.
        seconds: u64,
    },
    /// A link is gone.
    LinkLost {
        /// The number of the peer.
        number: u8,
    },
}

impl Drop for Warning {
    fn drop(self) {
        match self {
            Warning::Reopened => {}
            Warning::NotCompacted => {}
            Warning::Stranger {
                number: _,
                times: _,
            } => {}
            Warning::DeltaFull {
                number: _,
                times: _,
            } => {}
            Warning::TurnedAway { times: _ } => {}
            Warning::ClientFull { client } => drop(client),
            Warning::TopicsNearFull { client, topics: _ } => drop(client),
            Warning::ClientsNearFull { clients: _ } => {}
            Warning::Dropped { times: _ } => {}
            Warning::NothingSent => {}
            Warning::StoodStill { seconds: _ } => {}
            Warning::LinkLost { number: _ } => {}
        }
    }
}

/// Events of a field as it should be.
#[derive(Drop)]
pub enum Note {
    /// A link is made.
    LinkMade {
        /// The number of the peer.
        number: u8,
    },
    /// A shift is closed, and it took more than a second to turn.
    ShiftClosed {
        /// The number of the shift.
        shift: u64,
        /// How many calls it had.
        calls: u64,
        /// How long the turn took, in thousandths of a second.
        thousandths: u64,
    },
}

/// Events of single clients.
pub enum Detail {
    /// A client has connected.
    Connected {
        /// The client.
        client: ClientId,
    },
    /// A client was taken for lost.
    Lost {
        /// The client.
        client: ClientId,
    },
    /// Another gateway has taken a client over.
    TakenOver {
        /// The client.
        client: ClientId,
        /// The number of that gateway.
        number: u8,
    },
}

impl Drop for Detail {
    fn drop(self) {
        match self {
            Detail::Connected { client } => drop(client),
            Detail::Lost { client } => drop(client),
            Detail::TakenOver { client, number: _ } => drop(client),
        }
    }
}

/// What happened, by its level.
pub enum What {
    /// Somebody must act.
    Alarm(Alarm),
    /// Somebody should look.
    Warning(Warning),
    /// All is as it should be.
    Note(Note),
    /// It is of one client.
    Detail(Detail),
}

impl Drop for What {
    fn drop(self) {
        match self {
            What::Alarm(inner) => drop(inner),
            What::Warning(inner) => drop(inner),
            What::Note(inner) => drop(inner),
            What::Detail(inner) => drop(inner),
        }
    }
}

/// An event.
#[derive(Drop)]
pub struct Event {
    /// When, in seconds since the program began.
    pub moment: u64,
    /// What happened.
    pub what: What,
}

impl Event {
    /// How bad it is.
    pub fn level(&self) -> Level
        ensures { result ≡ level_of self.now.what }
    {
        match &self.what {
            What::Alarm(_) => Level::Error,
            What::Warning(_) => Level::Warning,
            What::Note(_) => Level::Info,
            What::Detail(_) => Level::Debug,
        }
    }
}
