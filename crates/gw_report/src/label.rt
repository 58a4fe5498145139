//! The labels that tell numbers of one name apart: words of the program and numbers, nothing else.

ghost use Rattle.std.specs.Prelude.{◌≡◌};
ghost use Rattle.gw_report.specs.Labels.{call_word, call_number, answer_word, answer_number, fault_word};
ghost use Rattle.gw_report.specs.Labels as spec;

use sn_frame::MsgType;
use sn_session::Presence;

/// What kind of call a gateway was asked for.
#[derive(Clone, Copy)]
pub enum CallKind {
    /// A datagram came.
    Frame,
    /// A delta came.
    Take,
    /// Time went by.
    Tick,
    /// Somebody asked for a client.
    View,
    /// The digest was asked for.
    Digest,
    /// A digest came, and was to be answered.
    Answer,
    /// The journal was to be compacted.
    Compact,
    /// The gateway was to be opened again.
    Reopen,
}

/// How many kinds of calls there are.
pub const KIND_COUNT: usize = 8;

/// The kinds of calls.
pub const KINDS: [CallKind; KIND_COUNT] = [
    CallKind::Frame,
    CallKind::Take,
    CallKind::Tick,
    CallKind::View,
    CallKind::Digest,
    CallKind::Answer,
    CallKind::Compact,
    CallKind::Reopen,
];

/// How a call was answered: done, or refused for this cause.
#[derive(Clone, Copy)]
pub enum CallAnswer {
    /// It was done.
    Done,
    /// The datagram is no frame.
    Frame,
    /// The gateway was halted.
    Halted,
    /// The disk failed.
    Disk,
    /// The delta contradicts what was taken.
    Conflict,
    /// A limit was met.
    Full,
    /// A number is at its last value.
    Exhausted,
    /// Memory ran out.
    Memory,
    /// The files are no journal of the gateway.
    Journal,
}

/// How many answers there are.
pub const ANSWER_COUNT: usize = 9;

/// The answers.
pub const ANSWERS: [CallAnswer; ANSWER_COUNT] = [
    CallAnswer::Done,
    CallAnswer::Frame,
    CallAnswer::Halted,
    CallAnswer::Disk,
    CallAnswer::Conflict,
    CallAnswer::Full,
    CallAnswer::Exhausted,
    CallAnswer::Memory,
    CallAnswer::Journal,
];

/// Why a delta of a link was refused.
#[derive(Clone, Copy)]
pub enum DeltaFault {
    /// It contradicts what was taken.
    Conflict,
    /// A limit was met.
    Full,
    /// Anything else.
    Other,
}

/// Where a link is made.
#[derive(Clone, Copy)]
pub enum Place {
    /// This gateway dials the peer of this place of the settings, from 0.
    Dialled(u16),
    /// A peer dialled, and has this place of those for incoming links, from 0.
    Accepted(u16),
}

/// What tells a number from others of its name.
#[derive(Clone, Copy)]
pub enum Label {
    /// Nothing: no other number has its name.
    Bare,
    /// The type of a frame (MQTT-SN 1.2 section 5.2.2).
    Frame(MsgType),
    /// A datagram of no such type.
    OtherFrame,
    /// The kind of a call, and its answer.
    Call(CallKind, CallAnswer),
    /// It was done.
    Done,
    /// It failed.
    Failed,
    /// The gateway was opened again during a shift.
    InPlace,
    /// The gateway was opened again between two shifts.
    BetweenShifts,
    /// The presence of clients.
    Presence(Presence),
    /// Clients without a session.
    NoSession,
    /// The first file of the journal.
    FirstSlot,
    /// The second file of the journal.
    SecondSlot,
    /// The place of a link.
    Place(Place),
    /// The place of a link, and why its deltas were refused.
    Fault(Place, DeltaFault),
    /// The gateway that put messages.
    Origin(u8),
}

/// How the type of a frame is written.
#[tactic(auto, unfolding(crate::specs::Labels::frame_word))]
pub fn frame_word(frame: MsgType) -> &'static str
    ensures { result.now ≡ spec.frame_word frame }
{
    match frame {
        MsgType::Advertise => "advertise",
        MsgType::SearchGw => "searchgw",
        MsgType::GwInfo => "gwinfo",
        MsgType::Connect => "connect",
        MsgType::ConnAck => "connack",
        MsgType::WillTopicReq => "willtopicreq",
        MsgType::WillTopic => "willtopic",
        MsgType::WillMsgReq => "willmsgreq",
        MsgType::WillMsg => "willmsg",
        MsgType::Register => "register",
        MsgType::RegAck => "regack",
        MsgType::Publish => "publish",
        MsgType::PubAck => "puback",
        MsgType::PubComp => "pubcomp",
        MsgType::PubRec => "pubrec",
        MsgType::PubRel => "pubrel",
        MsgType::Subscribe => "subscribe",
        MsgType::SubAck => "suback",
        MsgType::Unsubscribe => "unsubscribe",
        MsgType::UnsubAck => "unsuback",
        MsgType::PingReq => "pingreq",
        MsgType::PingResp => "pingresp",
        MsgType::Disconnect => "disconnect",
        MsgType::WillTopicUpd => "willtopicupd",
        MsgType::WillTopicResp => "willtopicresp",
        MsgType::WillMsgUpd => "willmsgupd",
        MsgType::WillMsgResp => "willmsgresp",
    }
}

/// How a presence is written.
pub fn presence_word(presence: Presence) -> &'static str
    ensures { result.now ≡ spec.presence_word presence }
{
    match presence {
        Presence::Active => "active",
        Presence::Asleep => "asleep",
        Presence::Awake => "awake",
        Presence::Disconnected => "disconnected",
        Presence::Lost => "lost",
    }
}

impl CallKind {
    /// How it is written.
    pub fn word(self) -> &'static str
        ensures { result.now ≡ call_word self }
    {
        match self {
            CallKind::Frame => "frame",
            CallKind::Take => "take",
            CallKind::Tick => "tick",
            CallKind::View => "view",
            CallKind::Digest => "digest",
            CallKind::Answer => "answer",
            CallKind::Compact => "compact",
            CallKind::Reopen => "reopen",
        }
    }

    /// Its number, which no other kind has.
    pub fn number(self) -> u8
        ensures { result ≡ call_number self }
    {
        match self {
            CallKind::Frame => 1,
            CallKind::Take => 2,
            CallKind::Tick => 3,
            CallKind::View => 4,
            CallKind::Digest => 5,
            CallKind::Answer => 6,
            CallKind::Compact => 7,
            CallKind::Reopen => 8,
        }
    }
}

impl CallAnswer {
    /// How it is written: `ok`, or the number by which programs print a refusal.
    pub fn word(self) -> &'static str
        ensures { result.now ≡ answer_word self }
    {
        match self {
            CallAnswer::Done => "ok",
            CallAnswer::Frame => "N1",
            CallAnswer::Halted => "N2",
            CallAnswer::Disk => "N3",
            CallAnswer::Conflict => "N4",
            CallAnswer::Full => "N5",
            CallAnswer::Exhausted => "N6",
            CallAnswer::Memory => "N7",
            CallAnswer::Journal => "N8",
        }
    }

    /// The number by which programs print a refusal; 0 if the call was done.
    pub fn number(self) -> u8
        ensures { result ≡ answer_number self }
    {
        match self {
            CallAnswer::Done => 0,
            CallAnswer::Frame => 1,
            CallAnswer::Halted => 2,
            CallAnswer::Disk => 3,
            CallAnswer::Conflict => 4,
            CallAnswer::Full => 5,
            CallAnswer::Exhausted => 6,
            CallAnswer::Memory => 7,
            CallAnswer::Journal => 8,
        }
    }
}

impl DeltaFault {
    /// How it is written: the number by which programs print a refusal, or `other`.
    pub fn word(self) -> &'static str
        ensures { result.now ≡ fault_word self }
    {
        match self {
            DeltaFault::Conflict => "N4",
            DeltaFault::Full => "N5",
            DeltaFault::Other => "other",
        }
    }
}
