//! The words of the command line.

use clap::builder::ValueParser;
use clap::{Arg, ArgAction, ArgMatches, Command};
use std::alloc::Global;

/// What was asked for.
#[derive(Drop)]
pub struct Options {
    /// The path of the journal, without the endings of its two files.
    pub path: String,
    /// The number of the gateway that is to open it; none for the number that the journal tells.
    pub gateway: Option<u8>,
    /// A JSON object in place of words.
    pub is_json: bool,
}

/// Reads the words, the program's name first. Nothing where they do not parse, `--help` among them,
/// or where memory ran out.
pub(crate) fn read_words(alloc: Global, words: &[String]) -> Option<Options> {
    match matched(alloc, words) {
        None => None,
        Some(matches) => {
            let options = found(alloc, &matches);
            drop(matches);
            options
        }
    }
}

/// The words, matched with the command line.
fn matched<'a>(alloc: Global, words: &'a [String]) -> Option<ArgMatches<'a>> {
    command(alloc)?.try_get_matches_from(words).ok()
}

/// The command line that the program reads.
fn command<'a>(alloc: Global) -> Option<Command<'a>> {
    let args = Vec::from_array(alloc, [path(alloc), gateway(alloc), json(alloc)]).ok()?;
    Command::new(alloc, "jr_look").args(args).ok()
}

/// The path of the journal.
fn path<'a>(alloc: Global) -> Arg<'a> {
    Arg::new(alloc, "path")
        .required(true)
        .action(ArgAction::Set)
}

/// The number of the gateway.
fn gateway<'a>(alloc: Global) -> Arg<'a> {
    Arg::new(alloc, "gateway")
        .long("gateway")
        .action(ArgAction::Set)
        .value_parser(ValueParser::Unsigned(0, 255))
}

/// Whether a JSON object is asked for.
fn json<'a>(alloc: Global) -> Arg<'a> {
    Arg::new(alloc, "json")
        .long("json")
        .action(ArgAction::SetTrue)
}

/// What was found on the command line.
fn found(alloc: Global, matches: &ArgMatches<'_>) -> Option<Options> {
    match path_in(alloc, matches) {
        None => None,
        Some(path) => Some(Options {
            path,
            gateway: matches.get_one::<u8>("gateway"),
            is_json: matches.get_flag("json"),
        }),
    }
}

/// The path that was found.
fn path_in(alloc: Global, matches: &ArgMatches<'_>) -> Option<String> {
    match matches.get_str("path") {
        None => None,
        Some(path) => String::from_str(alloc, path).ok(),
    }
}
