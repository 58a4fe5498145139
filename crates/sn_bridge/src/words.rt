//! The words of the command line.

use clap::{Arg, ArgAction, ArgMatches, Command};
use std::alloc::Global;

/// The path of the settings file, by the words, the program's name first. Nothing where they do not
/// parse, `--help` among them, or where memory ran out.
pub(crate) fn asked_by(alloc: Global, words: &[String]) -> Option<String> {
    let matches = parsed(alloc, words)?;
    let path = path_in(alloc, &matches);
    drop(matches);
    path
}

/// The words by what they are for.
fn parsed<'a>(alloc: Global, words: &'a [String]) -> Option<ArgMatches<'a>> {
    command_line(alloc)?.try_get_matches_from(words).ok()
}

/// The whole command line.
fn command_line<'a>(alloc: Global) -> Option<Command<'a>> {
    Command::new(alloc, "sn_bridge").arg(config(alloc)).ok()
}

/// The option of the settings file.
fn config<'a>(alloc: Global) -> Arg<'a> {
    needed(Arg::new(alloc, "config").long("config"))
}

/// An option with a value that must be there.
fn needed<'a>(arg: Arg<'a>) -> Arg<'a> {
    arg.required(true).action(ArgAction::Set)
}

/// The path that the words say.
fn path_in(alloc: Global, matches: &ArgMatches<'_>) -> Option<String> {
    String::from_str(alloc, matches.get_str("config")?).ok()
}
