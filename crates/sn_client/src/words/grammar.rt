//! The options and commands of the program, and what help says of them.

use clap::builder::ValueParser;
use clap::{Arg, ArgAction, Command};
use std::alloc::{AllocError, Global};

/// A command: its name, what help says of it, and its words.
#[derive(Clone, Copy)]
struct Offer(&'static str, &'static str, &'static [Word]);

/// A word of a command: its name, what it is, what help calls its value, and what help says of it.
#[derive(Clone, Copy)]
struct Word(&'static str, Form, &'static str, &'static str);

/// What a word of a command is.
#[derive(Clone, Copy)]
enum Form {
    /// An option without a value.
    Flag,
    /// An option with a text.
    Text,
    /// An option with a text, which has a letter too.
    Lettered(char),
    /// An option with a number.
    Number,
    /// An option with a number, which is this where it is left out.
    NumberOr(&'static [&'static str]),
    /// An option with a quality of service.
    Level,
    /// An option with a quality of service, -1 among them.
    AnyLevel,
    /// A text that must be there.
    Needed,
    /// A text that must be there, and may be a negative number.
    NeededText,
    /// A number that must be there.
    NeededNumber,
    /// A number that is this where it is left out.
    LastNumber(&'static [&'static str]),
}

/// The qualities of service that a publication may have.
static OF_PUBLISH: [&str; 4] = ["0", "1", "2", "-1"];

/// The qualities of service that a subscription or a will may have.
static OF_OTHERS: [&str; 3] = ["0", "1", "2"];

/// What help says of `--qos`.
const QOS: &str = "The quality of service";

/// What help says of `--predefined`.
const PREDEFINED: &str = "What stands in the place of a name is a predefined topic id";

/// What help says after the options.
const AFTER: &str =
    "The session is at the gateway and belongs to the client's address: so all runs of one client have one port.
A client that sleeps may wake at another gateway of the field.

Status: 0 accepted, 1 refused, 2 no answer, 3 the socket or the output failed, 4 no such arguments

An example, with the gateways of examples/field:
  sn_client --gateway 127.0.0.1:18841 --id s1 connect --clean
  sn_client --gateway 127.0.0.1:18841 --id s1 subscribe field/door --qos 1
  sn_client --gateway 127.0.0.1:18841 --id s1 sleep 600
  sn_client --gateway 127.0.0.1:18842 --id p1 --connect publish field/door open --qos 1
  sn_client --gateway 127.0.0.1:18843 --id s1 wake";

/// The options of every command: who speaks, with whom, and how.
static OF_ALL: [Word; 6] = [
    Word(
        "gateway",
        Form::Lettered('g'),
        "ADDRESS",
        "Where the gateway listens, as 127.0.0.1:18841",
    ),
    Word(
        "id",
        Form::Lettered('i'),
        "ID",
        "The client's id: 1 to 23 octets",
    ),
    Word(
        "port",
        Form::Number,
        "PORT",
        "The client's own port; 0 for any. Left out, one that is made of the id",
    ),
    Word(
        "connect",
        Form::Flag,
        "",
        "Connect first, with the session that is there",
    ),
    Word(
        "wait",
        Form::NumberOr(&["3"]),
        "SECONDS",
        "How long to wait for an answer; 0 for no end",
    ),
    Word("hex", Form::Flag, "", "Also print the octets of each frame"),
];

/// All commands.
static OFFERS: [Offer; 9] = [
    Offer("search", "Ask whether a gateway is there", &[]),
    Offer(
        "connect",
        "Set up a connection",
        &[
            Word("clean", Form::Flag, "", "Begin with an empty session"),
            Word(
                "keep-alive",
                Form::NumberOr(&["0"]),
                "SECONDS",
                "After half as much silence again the client is lost; 0 for never",
            ),
            Word(
                "will-topic",
                Form::Text,
                "TOPIC",
                "Where to publish the will if the client is lost",
            ),
            Word("will-message", Form::Text, "TEXT", "What the will says"),
            Word("qos", Form::Level, "QOS", "The will's quality of service"),
            Word("retain", Form::Flag, "", "Set the will's retain flag"),
        ],
    ),
    Offer(
        "subscribe",
        "Subscribe to topics",
        &[
            Word(
                "filter",
                Form::Needed,
                "FILTER",
                "Which topics, as tele/+ or tele/#",
            ),
            Word("qos", Form::Level, "QOS", QOS),
            Word("predefined", Form::Flag, "", PREDEFINED),
        ],
    ),
    Offer(
        "unsubscribe",
        "End a subscription",
        &[
            Word(
                "filter",
                Form::Needed,
                "FILTER",
                "The filter as it was subscribed to",
            ),
            Word("predefined", Form::Flag, "", PREDEFINED),
        ],
    ),
    Offer(
        "publish",
        "Publish a text",
        &[
            Word(
                "topic",
                Form::Needed,
                "TOPIC",
                "The topic's name; one of two octets needs no id",
            ),
            Word("text", Form::NeededText, "TEXT", "What is published"),
            Word("qos", Form::AnyLevel, "QOS", QOS),
            Word("retain", Form::Flag, "", "Set the retain flag"),
            Word("predefined", Form::Flag, "", PREDEFINED),
        ],
    ),
    Offer(
        "sleep",
        "Fall asleep: messages are kept meanwhile",
        &[Word(
            "seconds",
            Form::NeededNumber,
            "SECONDS",
            "For how long at most",
        )],
    ),
    Offer(
        "wake",
        "Wake up for the messages that were kept, and sleep on",
        &[],
    ),
    Offer(
        "listen",
        "Take what comes",
        &[Word(
            "length",
            Form::LastNumber(&["0"]),
            "SECONDS",
            "For how long; 0 until it is stopped",
        )],
    ),
    Offer("disconnect", "End the connection", &[]),
];

/// The whole command line.
pub(super) fn command_line<'a>(alloc: Global) -> Result<Command<'a>, AllocError> {
    let commands = commands(alloc)?;
    let command = with_options(alloc)?;
    command.subcommands(commands)
}

/// The program with the options of every command.
fn with_options<'a>(alloc: Global) -> Result<Command<'a>, AllocError> {
    let options = args_of(alloc, OF_ALL.as_slice(), true)?;
    with(program(alloc), options)
}

/// The program, without its options and commands.
fn program<'a>(alloc: Global) -> Command<'a> {
    Command::new(alloc, "sn_client")
        .about(
            "A client of MQTT-SN 1.2: each run sends one thing to a gateway, and tells in words what goes and comes",
        )
        .after_help(AFTER)
        .subcommand_required(true)
        .arg_required_else_help(true)
        .disable_help_subcommand(true)
}

/// All commands.
fn commands<'a>(alloc: Global) -> Result<Vec<Command<'a>>, AllocError> {
    let mut commands = Vec::new(alloc);
    add_commands(alloc, &mut commands)?;
    Ok(commands)
}

/// Adds all commands.
fn add_commands<'a>(alloc: Global, commands: &mut Vec<Command<'a>>) -> Result<(), AllocError> {
    for offer in OFFERS.as_slice() {
        add_command(commands, command(alloc, *offer)?)?;
    }
    Ok(())
}

/// Adds a command.
fn add_command<'a>(
    commands: &mut Vec<Command<'a>>,
    command: Command<'a>,
) -> Result<(), AllocError> {
    commands.push(command)?;
    Ok(())
}

/// A command with its words.
fn command<'a>(alloc: Global, offer: Offer) -> Result<Command<'a>, AllocError> {
    let Offer(name, about, words) = offer;
    let args = args_of(alloc, words, false)?;
    with(Command::new(alloc, name).about(about), args)
}

/// A command with these arguments. It says nothing of them, so that who calls it carries on no more
/// than a command.
fn with<'a>(command: Command<'a>, args: Vec<Arg<'a>>) -> Result<Command<'a>, AllocError> {
    command.args(args)
}

/// These words as arguments of one command, or of all below it too.
fn args_of<'a>(alloc: Global, words: &[Word], is_global: bool) -> Result<Vec<Arg<'a>>, AllocError> {
    let mut args = Vec::new(alloc);
    add_args(alloc, &mut args, words, is_global)?;
    Ok(args)
}

/// Adds these words.
fn add_args<'a>(
    alloc: Global,
    args: &mut Vec<Arg<'a>>,
    words: &[Word],
    is_global: bool,
) -> Result<(), AllocError> {
    for word in words {
        args.push(arg(alloc, *word, is_global))?;
    }
    Ok(())
}

/// A word as an argument of one command, or of all below it too.
fn arg<'a>(alloc: Global, word: Word, is_global: bool) -> Arg<'a> {
    let Word(name, form, value, help) = word;
    valued(named(alloc, name, form), form)
        .help(help)
        .value_name(value)
        .global(is_global)
}

/// A word that is known by its place, or as an option by its name, and by its letter if it has one.
fn named<'a>(alloc: Global, name: &'a str, form: Form) -> Arg<'a> {
    match form {
        Form::Lettered(letter) => option_of(alloc, name).short(letter),
        _ if is_option(form) => option_of(alloc, name),
        _ => Arg::new(alloc, name),
    }
}

/// A word with two hyphens in front.
fn option_of<'a>(alloc: Global, name: &'a str) -> Arg<'a> {
    Arg::new(alloc, name).long(name)
}

/// A word with what it takes. It says nothing of the word, so that who calls it carries nothing on.
fn valued<'a>(arg: Arg<'a>, form: Form) -> Arg<'a> {
    arg.action(action_of(form))
        .value_parser(parser_of(form))
        .default_values(defaults_of(form))
        .required(is_needed(form))
        .allow_negative_numbers(is_negative(form))
}

/// What a use of a word does: an option without a value is there or not.
fn action_of(form: Form) -> ArgAction {
    match form {
        Form::Flag => ArgAction::SetTrue,
        _ => ArgAction::Set,
    }
}

/// Whether a word has two hyphens in front.
fn is_option(form: Form) -> bool {
    !matches!(
        form,
        Form::Needed | Form::NeededText | Form::NeededNumber | Form::LastNumber(_)
    )
}

/// Whether a word must be there.
fn is_needed(form: Form) -> bool {
    matches!(form, Form::Needed | Form::NeededText | Form::NeededNumber)
}

/// Whether a word may begin with a hyphen and a digit.
fn is_negative(form: Form) -> bool {
    matches!(form, Form::NeededText | Form::Level | Form::AnyLevel)
}

/// Whether a word is a number.
fn is_number(form: Form) -> bool {
    matches!(
        form,
        Form::Number | Form::NumberOr(_) | Form::NeededNumber | Form::LastNumber(_)
    )
}

/// How a value is read: as a number, as one of some words, or as it stands.
fn parser_of<'a>(form: Form) -> ValueParser<'a> {
    match form {
        Form::Flag => ValueParser::Bool,
        Form::Level => ValueParser::Names(OF_OTHERS.as_slice()),
        Form::AnyLevel => ValueParser::Names(OF_PUBLISH.as_slice()),
        _ if is_number(form) => ValueParser::Unsigned(0, 65_535),
        _ => ValueParser::String,
    }
}

/// What a word is if it is left out; none if nothing stands for it.
fn defaults_of(form: Form) -> &'static [&'static str] {
    match form {
        Form::NumberOr(seconds) => seconds,
        Form::LastNumber(seconds) => seconds,
        Form::Level | Form::AnyLevel => &["0"],
        _ => &[],
    }
}
