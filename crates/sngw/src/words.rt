//! The words of the command line.

use clap::{Arg, ArgAction, ArgMatches, Command};
use std::alloc::Global;

/// The version of the program: the newest one in CHANGELOG, or 0 if none is released.
pub(crate) const VERSION: &str = "0";

/// What was asked for.
#[derive(Drop)]
pub struct Asked {
    /// The path of the settings file.
    pub config: String,
    /// How many shifts there are to be.
    pub shifts: u64,
}

/// Whether nothing but the version is asked for.
pub(crate) fn asks_version(words: &[String]) -> bool {
    match words {
        [_, word] => word.as_str() == "--version",
        _ => false,
    }
}

/// Reads the words, the program's name first. Nothing where they do not parse, `--help` among them,
/// or where memory ran out.
pub(crate) fn asked_by(alloc: Global, words: &[String]) -> Option<Asked> {
    match parsed(alloc, words) {
        None => None,
        Some(matches) => {
            let asked = asked_in(alloc, &matches);
            drop(matches);
            asked
        }
    }
}

/// The words by what they are for.
fn parsed<'a>(alloc: Global, words: &'a [String]) -> Option<ArgMatches<'a>> {
    match command_line(alloc) {
        Some(command) => matched(command, words),
        None => None,
    }
}

/// The words, matched with the command line.
fn matched<'a>(command: Command<'a>, words: &'a [String]) -> Option<ArgMatches<'a>> {
    command.try_get_matches_from(words).ok()
}

/// The command line that the program reads.
fn command_line<'a>(alloc: Global) -> Option<Command<'a>> {
    match with(program(alloc), config(alloc)) {
        Some(command) => with(command, shifts(alloc)),
        None => None,
    }
}

/// The option `--config`.
fn config<'a>(alloc: Global) -> Arg<'a> {
    needed(option_of(alloc, "config"))
}

/// The option `--shifts`.
fn shifts<'a>(alloc: Global) -> Arg<'a> {
    number(option_of(alloc, "shifts"))
}

/// An option with a value.
fn option_of<'a>(alloc: Global, name: &'a str) -> Arg<'a> {
    valued(long(named(alloc, name), name))
}

// The calls of clap that the command line is made of, each by itself. They say nothing of what they
// make, so that who calls them carries nothing on.

/// The program, without its options.
fn program<'a>(alloc: Global) -> Command<'a> {
    Command::new(alloc, "sngw")
}

/// A command with one argument more. `None` if memory ran out.
fn with<'a>(command: Command<'a>, arg: Arg<'a>) -> Option<Command<'a>> {
    command.arg(arg).ok()
}

/// A word of this name.
fn named<'a>(alloc: Global, name: &'a str) -> Arg<'a> {
    Arg::new(alloc, name)
}

/// A word with two hyphens in front.
fn long<'a>(arg: Arg<'a>, name: &'a str) -> Arg<'a> {
    arg.long(name)
}

/// A word that must be there.
fn needed<'a>(arg: Arg<'a>) -> Arg<'a> {
    arg.required(true)
}

/// A word with a value.
fn valued<'a>(arg: Arg<'a>) -> Arg<'a> {
    arg.action(ArgAction::Set)
}

/// A number of shifts.
fn number<'a>(arg: Arg<'a>) -> Arg<'a> {
    arg.value_parser(clap::value_parser!(u64).range(0..=1_000_000))
}

/// What the words say.
fn asked_in(alloc: Global, matches: &ArgMatches<'_>) -> Option<Asked> {
    match config_in(alloc, matches) {
        None => None,
        Some(config) => Some(Asked {
            config,
            shifts: shifts_in(matches),
        }),
    }
}

/// The path of the settings file. `None` if memory ran out.
fn config_in(alloc: Global, matches: &ArgMatches<'_>) -> Option<String> {
    match matches.get_str("config") {
        None => None,
        Some(path) => String::from_str(alloc, path).ok(),
    }
}

/// How many shifts there are to be: one, unless the words say another number.
fn shifts_in(matches: &ArgMatches<'_>) -> u64 {
    match matches.get_one::<u64>("shifts") {
        Some(number) => number,
        None => 1,
    }
}
