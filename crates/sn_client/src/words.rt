//! From the words of a command line to what is asked for.

mod grammar;
mod reader;

use clap::{ArgMatches, Error};
use grammar::command_line;
use reader::Reader;
use sn_frame::Qos;
use std::alloc::{AllocError, Global};
use std::net::SocketAddr;

/// How a topic is named in a frame (MQTT-SN 1.2 sections 5.3.11 and 5.3.12).
#[derive(Clone, Copy)]
pub(crate) enum Topic<'a> {
    /// A name in full, or a filter.
    Full(&'a str),
    /// A name of two octets, as a number.
    Short(u16),
    /// An id that both sides know beforehand.
    Predefined(u16),
}

/// What a gateway publishes for a client that is lost.
#[derive(Clone, Copy)]
pub(crate) struct WillWords<'a> {
    /// The topic's name.
    pub topic: &'a str,
    /// The text.
    pub message: &'a str,
    /// How often it is to arrive.
    pub qos: Qos,
    /// Whether it is to be kept.
    pub retain: bool,
}

/// What a run is for.
#[derive(Clone, Copy)]
pub(crate) enum Command<'a> {
    /// Look whether a gateway is there.
    Search,
    /// Set up a connection.
    Connect {
        clean: bool,
        keep_alive: u16,
        will: Option<WillWords<'a>>,
    },
    /// Subscribe to a topic.
    Subscribe {
        topic: Topic<'a>,
        qos: Qos,
    },
    /// End a subscription.
    Unsubscribe {
        topic: Topic<'a>,
    },
    /// Publish a text.
    Publish {
        topic: Topic<'a>,
        text: &'a str,
        qos: Qos,
        retain: bool,
    },
    /// Fall asleep for so many seconds.
    Sleep {
        seconds: u16,
    },
    /// Wake up for what was kept meanwhile.
    Wake,
    /// Take what comes.
    Listen,
    /// End the connection.
    Disconnect,
}

/// What a command line says.
#[derive(Clone, Copy)]
pub(crate) struct Settings<'a> {
    /// Where the gateway is.
    pub gateway: SocketAddr,
    /// The client's id.
    pub client: &'a str,
    /// The port of this client; 0 for any that is free.
    pub port: u16,
    /// Whether octets are printed too.
    pub hex: bool,
    /// Whether a connection is set up first.
    pub connect: bool,
    /// How many seconds the answer to a connection is waited for; 0 for no end.
    pub wait: u16,
    /// How many seconds the command's own exchange takes at most; 0 for no end.
    pub seconds: u16,
    /// What the run is for.
    pub command: Command<'a>,
}

/// Why a command line says nothing.
#[derive(Drop)]
pub(crate) enum Unread {
    /// The words are not arranged as they should be, or help is asked for.
    Words(Error),
    /// What is wrong with one of them.
    Word(&'static str),
}

/// Why a word of a command line says nothing.
#[derive(Clone, Copy)]
enum Slip {
    /// What is wrong with it.
    Word(&'static str),
    /// Memory ran out.
    Memory,
}

impl From<Error> for Unread {
    fn from(error: Error) -> Unread {
        Unread::Words(error)
    }
}

impl From<Slip> for Unread {
    fn from(slip: Slip) -> Unread {
        match slip {
            Slip::Word(fault) => Unread::Word(fault),
            Slip::Memory => Unread::Words(Error::from(AllocError)),
        }
    }
}

/// What a command line says.
pub(crate) fn read<'a>(alloc: Global, words: &'a [String]) -> Result<Settings<'a>, Unread> {
    let matches = matched(alloc, words)?;
    let settings = settings_in(alloc, &matches);
    drop(matches);
    Ok(settings?)
}

/// What the matched words say.
fn settings_in<'a>(alloc: Global, matches: &ArgMatches<'a>) -> Result<Settings<'a>, Slip> {
    match matches.subcommand() {
        Some((name, inner)) => settings_of(alloc, name, inner),
        None => Err(Slip::Word("COMMAND is missing")),
    }
}

/// The words, matched with the command line.
fn matched<'a>(alloc: Global, words: &'a [String]) -> Result<ArgMatches<'a>, Error> {
    command_line(alloc)?.try_get_matches_from(words)
}

/// What the words of a command say.
fn settings_of<'a>(
    alloc: Global,
    name: &str,
    matches: &ArgMatches<'a>,
) -> Result<Settings<'a>, Slip> {
    let mut words = Reader::new(alloc, matches);
    let settings = said(&mut words, name);
    match words.slip() {
        None => Ok(settings),
        Some(slip) => Err(slip),
    }
}

/// The settings, as far as the words say something.
fn said<'a>(words: &mut Reader<'_, 'a>, name: &str) -> Settings<'a> {
    let client = words.client();
    let gateway = words.gateway();
    let wait = words.number("wait");
    Settings {
        gateway,
        client,
        port: words.port(client),
        hex: words.flag("hex"),
        connect: words.flag("connect"),
        wait,
        seconds: if name == "listen" {
            words.number("length")
        } else {
            wait
        },
        command: asked(words, name),
    }
}

/// The command and what stands after it.
fn asked<'a>(words: &mut Reader<'_, 'a>, name: &str) -> Command<'a> {
    match name {
        "connect" => connect(words),
        "subscribe" => subscribe(words),
        "unsubscribe" => unsubscribe(words),
        "publish" => publish(words),
        "sleep" => sleep(words),
        _ => plain(name),
    }
}

/// A command after which nothing stands.
fn plain<'a>(name: &str) -> Command<'a> {
    match name {
        "search" => Command::Search,
        "wake" => Command::Wake,
        "listen" => Command::Listen,
        _ => Command::Disconnect,
    }
}

/// The words of `connect`.
fn connect<'a>(words: &mut Reader<'_, 'a>) -> Command<'a> {
    Command::Connect {
        clean: words.flag("clean"),
        keep_alive: words.number("keep-alive"),
        will: will(words),
    }
}

/// The words of `subscribe`.
fn subscribe<'a>(words: &mut Reader<'_, 'a>) -> Command<'a> {
    Command::Subscribe {
        topic: words.filter(),
        qos: words.qos(),
    }
}

/// The words of `unsubscribe`.
fn unsubscribe<'a>(words: &mut Reader<'_, 'a>) -> Command<'a> {
    Command::Unsubscribe {
        topic: words.filter(),
    }
}

/// The words of `sleep`.
fn sleep<'a>(words: &mut Reader<'_, 'a>) -> Command<'a> {
    let seconds = words.number("seconds");
    if seconds == 0 {
        words.refuse("SECONDS is 0");
    }
    Command::Sleep { seconds }
}

/// The will of a CONNECT.
fn will<'a>(words: &mut Reader<'_, 'a>) -> Option<WillWords<'a>> {
    match (words.text("will-topic"), words.text("will-message")) {
        (None, None) => None,
        (Some(topic), Some(message)) => Some(will_of(words, topic, message)),
        _ => {
            words.refuse("--will-topic and --will-message go together");
            None
        }
    }
}

/// A will with this topic and text.
fn will_of<'a>(words: &mut Reader<'_, 'a>, topic: &'a str, message: &'a str) -> WillWords<'a> {
    words.check_name(topic);
    WillWords {
        topic,
        message,
        qos: words.qos(),
        retain: words.flag("retain"),
    }
}

/// The words of `publish`. At QoS -1 no id can be asked for (MQTT-SN 1.2 section 6.8).
fn publish<'a>(words: &mut Reader<'_, 'a>) -> Command<'a> {
    let name = words.word("topic");
    let qos = words.qos();
    let topic = words.topic(name);
    if needs_id(topic) && qos == Qos::MinusOne {
        words.refuse("at QoS -1 TOPIC has two octets, or is an id with --predefined");
    }
    Command::Publish {
        topic,
        text: words.word("text"),
        qos,
        retain: words.flag("retain"),
    }
}

/// Whether a topic has to be registered before it is published to.
fn needs_id(topic: Topic<'_>) -> bool {
    matches!(topic, Topic::Full(_))
}
