//! The words of the command line.

use crate::stop::Stop;
use clap::builder::ValueParser;
use clap::error::ErrorKind;
use clap::{Arg, ArgAction, ArgMatches, Command, Error};
use std::alloc::Global;

/// The largest seed: what a signed number can hold.
const LARGEST_SEED: u64 = 9_223_372_036_854_775_807;

/// The most events that can be asked for.
const MOST_EVENTS: u64 = 1_000_000_000;

/// The most gateways that can be asked for.
const MOST_GATEWAYS: u64 = 8;

/// What was asked for.
#[derive(Clone, Copy)]
pub enum Asked {
    /// What standard input says is to be played.
    Read(Form),
    /// Scripts are to be made from a seed, and played.
    Random { plain: bool, options: Options },
}

/// What standard input says.
#[derive(Clone, Copy)]
pub enum Form {
    /// A script.
    Script { plain: bool },
    /// Many scripts, each of which is to be played by itself.
    Rows,
}

/// What scripts from a seed are made of.
#[derive(Clone, Copy)]
pub struct Options {
    /// What the scripts are made from.
    pub seed: u64,
    /// How many events there are to be in all.
    pub events: u64,
    /// How many gateways there are.
    pub gateways: u8,
}

/// Reads the words, the program's name first.
pub(crate) fn read_words(alloc: Global, words: &[String]) -> Result<Asked, Stop> {
    match matched(alloc, words) {
        Ok(matches) => {
            let asked = ask_for(&matches);
            drop(matches);
            Ok(asked)
        }
        Err(stop) => Err(stop),
    }
}

/// The words, matched with the command line.
fn matched<'a>(alloc: Global, words: &'a [String]) -> Result<ArgMatches<'a>, Stop> {
    match command_line(alloc) {
        Some(command) => matched_with(command, words),
        None => Err(Stop::Memory),
    }
}

/// The words, matched with this command line.
fn matched_with<'a>(command: Command<'a>, words: &'a [String]) -> Result<ArgMatches<'a>, Stop> {
    match command.try_get_matches_from(words) {
        Ok(matches) => Ok(matches),
        Err(error) => Err(reason(error)),
    }
}

/// Why words are not matched.
fn reason(error: Error) -> Stop {
    let is_short = matches!(error.kind(), ErrorKind::OutOfMemory);
    drop(error);
    if is_short { Stop::Memory } else { Stop::Words }
}

/// The command line that the program reads. `None` if memory ran out.
fn command_line<'a>(alloc: Global) -> Option<Command<'a>> {
    match all_options(alloc) {
        Some(options) => with(program(alloc), options),
        None => None,
    }
}

/// All options. `None` if memory ran out.
fn all_options<'a>(alloc: Global) -> Option<Vec<Arg<'a>>> {
    let mut options = Vec::new(alloc);
    if add_options(alloc, &mut options) {
        Some(options)
    } else {
        drop(options);
        None
    }
}

/// Adds all options. False if memory ran out.
fn add_options<'a>(alloc: Global, options: &mut Vec<Arg<'a>>) -> bool {
    add_plain(alloc, options)
        && add_rows(alloc, options)
        && add_random(alloc, options)
        && add_events(alloc, options)
        && add_gateways(alloc, options)
}

/// Adds the option `--plain`.
fn add_plain<'a>(alloc: Global, options: &mut Vec<Arg<'a>>) -> bool {
    add(options, flag(word(alloc, "plain")))
}

/// Adds the option `--rows`.
fn add_rows<'a>(alloc: Global, options: &mut Vec<Arg<'a>>) -> bool {
    add(options, alone(flag(word(alloc, "rows"))))
}

/// Adds the option `--random`.
fn add_random<'a>(alloc: Global, options: &mut Vec<Arg<'a>>) -> bool {
    add(options, number(alloc, "random", 0, LARGEST_SEED))
}

/// Adds the option `--events`.
fn add_events<'a>(alloc: Global, options: &mut Vec<Arg<'a>>) -> bool {
    add_bound(options, number(alloc, "events", 1, MOST_EVENTS))
}

/// Adds the option `--gateways`.
fn add_gateways<'a>(alloc: Global, options: &mut Vec<Arg<'a>>) -> bool {
    add_bound(options, number(alloc, "gateways", 1, MOST_GATEWAYS))
}

/// Adds an option that says how much there is to be of scripts from a seed.
fn add_bound<'a>(options: &mut Vec<Arg<'a>>, option: Arg<'a>) -> bool {
    match beside_random(option) {
        Some(option) => add(options, option),
        None => false,
    }
}

/// Adds an option. False if memory ran out.
fn add<'a>(options: &mut Vec<Arg<'a>>, option: Arg<'a>) -> bool {
    let pushed = options.push(option);
    let is_added = pushed.is_ok();
    drop(pushed);
    is_added
}

/// An option whose value is a number from this to that one.
fn number<'a>(alloc: Global, name: &'a str, least: u64, most: u64) -> Arg<'a> {
    between(valued(word(alloc, name)), least, most)
}

/// A word with two hyphens in front.
fn word<'a>(alloc: Global, name: &'a str) -> Arg<'a> {
    long(named(alloc, name), name)
}

// The calls of clap that the command line is made of, each by itself. They say nothing of what they
// make, so that who calls them carries nothing on.

/// The program, without its options.
fn program<'a>(alloc: Global) -> Command<'a> {
    Command::new(alloc, "gw_sim")
}

/// A command with these options. `None` if memory ran out.
fn with<'a>(command: Command<'a>, options: Vec<Arg<'a>>) -> Option<Command<'a>> {
    command.args(options).ok()
}

/// A word of this name.
fn named<'a>(alloc: Global, name: &'a str) -> Arg<'a> {
    Arg::new(alloc, name)
}

/// A word that stands there by this name.
fn long<'a>(arg: Arg<'a>, name: &'a str) -> Arg<'a> {
    arg.long(name)
}

/// A word that is there or not.
fn flag<'a>(arg: Arg<'a>) -> Arg<'a> {
    arg.action(ArgAction::SetTrue)
}

/// A word with a value.
fn valued<'a>(arg: Arg<'a>) -> Arg<'a> {
    arg.action(ArgAction::Set)
}

/// A word that nothing may stand beside.
fn alone<'a>(arg: Arg<'a>) -> Arg<'a> {
    arg.exclusive(true)
}

/// A word that may stand only beside `--random`. `None` if memory ran out.
fn beside_random<'a>(arg: Arg<'a>) -> Option<Arg<'a>> {
    arg.requires_arg("random").ok()
}

/// A word whose value is a number from this to that one.
fn between<'a>(arg: Arg<'a>, least: u64, most: u64) -> Arg<'a> {
    arg.value_parser(ValueParser::Unsigned(least, most))
}

/// What the words ask for.
fn ask_for(matches: &ArgMatches) -> Asked {
    if matches.get_flag("rows") {
        return Asked::Read(Form::Rows);
    }
    let plain = matches.get_flag("plain");
    let Some(seed) = matches.get_one::<u64>("random") else {
        return Asked::Read(Form::Script { plain });
    };
    Asked::Random {
        plain,
        options: Options {
            seed,
            events: matches.get_one::<u64>("events").unwrap_or(20_000),
            gateways: matches.get_one::<u8>("gateways").unwrap_or(3),
        },
    }
}
