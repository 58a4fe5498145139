//! What a line says.

ghost use Rattle.std.specs.Prelude.{◌≡◌, ◌≢◌, ◌==◌, ◌⊎◌, ℕ, Bool, Err, IfOk, MatchOption, map};
ghost use Rattle.std.specs.List.{slice_split};
ghost use Rattle.gw_script.specs.declared.command.Word.TheVariants as words;
ghost use Rattle.gw_script.specs.Commands.{IsFailure, IsSpared, Says, SpellsCommand};
ghost use Rattle.gw_script.specs.inner.Commands.{ReadsCommand};
ghost use Rattle.sn_topic.specs.Topics.{IsName};

use super::bytes::bytes;
use super::fault::LineFault;
use super::number::{number, number_u8, number_u16, number_u32};
use gw_world::Event;
use sn_local::Addr;
use sn_topic::{TopicFault, TopicName};
use std::alloc::{AllocError, Global};

/// What a line says.
#[derive(Drop)]
pub enum Command {
    /// There is a gateway of this number.
    Gateway {
        number: u8,
    },
    /// The gateway of this number has a predefined topic id.
    Predefine {
        number: u8,
        id: u16,
        name: TopicName,
    },
    /// Messages of the gateway of this number wait for so many seconds at most; 0 for no such time.
    Lifetime {
        number: u8,
        seconds: u32,
    },
    /// Something happens.
    Happens(Event),
}

/// The first word of a line.
#[derive(Clone, Copy, PartialEq, Eq)]
pub enum Word {
    /// A gateway of the field.
    Gateway,
    /// A predefined topic id.
    Predefine,
    /// For how long messages wait.
    Lifetime,
    /// A datagram comes.
    Frame,
    /// Time goes by.
    Tick,
    /// A delta is taken.
    Take,
    /// A digest goes to another gateway.
    Answer,
    /// The next write of a journal is to fail.
    Fail,
    /// A journal is written anew.
    Compact,
    /// A gateway stops, and is opened again.
    Restart,
    /// What a gateway knows is shown.
    Show,
}

impl Word {
    ghost use Rattle.gw_script.specs.declared.command.Word.{Word};
    ghost use Rattle.gw_script.specs.Commands.{word_text};

    /// The word that is written so.
    pub fn of(text: &[u8]) -> Option<Word>
        ensures { MatchOption result ((word : Word) → word_text word ≢ text.now)
            (λ word. word_text word ≡ text.now) }
    {
        if text == b"gateway".as_slice() {
            Some(Word::Gateway)
        } else if text == b"predefine".as_slice() {
            Some(Word::Predefine)
        } else if text == b"lifetime".as_slice() {
            Some(Word::Lifetime)
        } else if text == b"frame".as_slice() {
            Some(Word::Frame)
        } else if text == b"tick".as_slice() {
            Some(Word::Tick)
        } else if text == b"take".as_slice() {
            Some(Word::Take)
        } else if text == b"answer".as_slice() {
            Some(Word::Answer)
        } else if text == b"fail".as_slice() {
            Some(Word::Fail)
        } else if text == b"compact".as_slice() {
            Some(Word::Compact)
        } else if text == b"restart".as_slice() {
            Some(Word::Restart)
        } else if text == b"show".as_slice() {
            Some(Word::Show)
        } else {
            None
        }
    }
}

/// What stands before, between and after the places of an octet.
pub fn cut(alloc: Global, text: &[u8], at: u8) -> Result<Vec<&[u8]>, AllocError>
    ensures { IfOk result (λ parts. map (λ part. part.now) parts.items ≡ slice_split
        (λ b. b == at) text.now) }
{
    text.split(|b| *b == at).collect(alloc)
}

/// The command that a line spells.
pub fn read_command(alloc: Global, line: &[u8]) -> Result<Command, LineFault>
    ensures reads { ReadsCommand (SpellsCommand line.now) result }
    // What a line spells is read, unless memory runs out.
    ensures only { (command : Command) → SpellsCommand line.now command → (result ≡ Ok command)
        ⊎ (result ≡ Err LineFault.Memory) }
{
    let fields = cut(alloc, line, b' ')?;
    let Some((first, rest)) = fields.as_slice().split_first() else {
        return Err(LineFault::NotACommand);
    };
    let Some(word) = Word::of(first) else {
        return Err(LineFault::NotACommand);
    };
    say(alloc, word, rest)
}

/// The command that fields say after a word.
fn say(alloc: Global, word: Word, fields: &[&[u8]]) -> Result<Command, LineFault>
    ensures { ReadsCommand (Says word (map (λ field. field.now) fields.now)) result }
{
    match word {
        Word::Gateway => gateway(fields),
        Word::Predefine => predefine(alloc, fields),
        Word::Lifetime => lifetime(fields),
        Word::Frame => frame(alloc, fields),
        Word::Tick => tick(fields),
        Word::Take => take(fields),
        Word::Answer => answer(fields),
        Word::Fail => fail(fields),
        Word::Compact => compact(fields),
        Word::Restart => restart(fields),
        Word::Show => show(fields),
    }
}

/// What the fields after `gateway` say.
fn gateway(fields: &[&[u8]]) -> Result<Command, LineFault>
    ensures { ReadsCommand (Says words.Gateway (map (λ field. field.now) fields.now)) result }
{
    let [number] = fields else {
        return Err(LineFault::NotACommand);
    };
    match number_u8(number) {
        Some(number) => Ok(Command::Gateway { number }),
        None => Err(LineFault::NotACommand),
    }
}

/// The topic name of these octets, if they are one.
fn topic_name(alloc: Global, octets: &[u8]) -> Result<TopicName, LineFault>
    ensures ok { IfOk result (λ name. (name ≡ octets.now) × IsName octets.now) }
    ensures refused { result ≡ Err LineFault.NotACommand → IsName octets.now → ⊥ }
{
    match TopicName::new(alloc, octets) {
        Ok(name) => Ok(name),
        Err(TopicFault::Memory) => Err(LineFault::Memory),
        Err(_) => Err(LineFault::NotACommand),
    }
}

/// What the fields after `predefine` say.
fn predefine(alloc: Global, fields: &[&[u8]]) -> Result<Command, LineFault>
    ensures { ReadsCommand (Says words.Predefine (map (λ field. field.now) fields.now)) result }
{
    let [number, id, name] = fields else {
        return Err(LineFault::NotACommand);
    };
    let (Some(number), Some(id)) = (number_u8(number), number_u16(id)) else {
        return Err(LineFault::NotACommand);
    };
    match bytes(alloc, name)? {
        Some(octets) => {
            let name = topic_name(alloc, octets.as_slice())?;
            Ok(Command::Predefine { number, id, name })
        }
        None => Err(LineFault::NotACommand),
    }
}

/// What the fields after `lifetime` say.
fn lifetime(fields: &[&[u8]]) -> Result<Command, LineFault>
    ensures { ReadsCommand (Says words.Lifetime (map (λ field. field.now) fields.now)) result }
{
    let [number, seconds] = fields else {
        return Err(LineFault::NotACommand);
    };
    match (number_u8(number), number_u32(seconds)) {
        (Some(number), Some(seconds)) => Ok(Command::Lifetime { number, seconds }),
        _ => Err(LineFault::NotACommand),
    }
}

/// What the fields after `frame` say.
fn frame(alloc: Global, fields: &[&[u8]]) -> Result<Command, LineFault>
    ensures { ReadsCommand (Says words.Frame (map (λ field. field.now) fields.now)) result }
{
    let [gateway, address, moment, octets] = fields else {
        return Err(LineFault::NotACommand);
    };
    let (Some(gateway), Some(port), Some(now)) = (
        number_u8(gateway),
        number_u16(address),
        number(moment),
    ) else {
        return Err(LineFault::NotACommand);
    };
    match bytes(alloc, octets)? {
        Some(bytes) => {
            let from = Addr { host: 0, port };
            Ok(Command::Happens(Event::Frame {
                gateway,
                from,
                bytes,
                now,
            }))
        }
        None => Err(LineFault::NotACommand),
    }
}

/// What the fields after `tick` say.
fn tick(fields: &[&[u8]]) -> Result<Command, LineFault>
    ensures { ReadsCommand (Says words.Tick (map (λ field. field.now) fields.now)) result }
{
    let [gateway, moment] = fields else {
        return Err(LineFault::NotACommand);
    };
    match (number_u8(gateway), number(moment)) {
        (Some(gateway), Some(now)) => Ok(Command::Happens(Event::Tick { gateway, now })),
        _ => Err(LineFault::NotACommand),
    }
}

/// What the fields after `take` say.
fn take(fields: &[&[u8]]) -> Result<Command, LineFault>
    ensures { ReadsCommand (Says words.Take (map (λ field. field.now) fields.now)) result }
{
    let [gateway, delta] = fields else {
        return Err(LineFault::NotACommand);
    };
    match (number_u8(gateway), number(delta)) {
        (Some(gateway), Some(delta)) => Ok(Command::Happens(Event::Take { gateway, delta })),
        _ => Err(LineFault::NotACommand),
    }
}

/// What the fields after `answer` say.
fn answer(fields: &[&[u8]]) -> Result<Command, LineFault>
    ensures { ReadsCommand (Says words.Answer (map (λ field. field.now) fields.now)) result }
{
    let [gateway, peer] = fields else {
        return Err(LineFault::NotACommand);
    };
    match (number_u8(gateway), number_u8(peer)) {
        (Some(gateway), Some(peer)) => Ok(Command::Happens(Event::Answer { gateway, peer })),
        _ => Err(LineFault::NotACommand),
    }
}

/// How the next write fails: after so many bytes, or in its sync.
fn failure(text: &[u8]) -> Option<(u64, bool)>
    ensures { MatchOption result ((bytes : ℕ) (sync : Bool) → ¬ (IsFailure text.now bytes sync))
        (λ said. IsFailure text.now said.0 said.1) }
{
    if text == b"sync".as_slice() {
        return Some((0, true));
    }
    match number(text) {
        Some(bytes) => Some((bytes, false)),
        None => None,
    }
}

/// What the fields after `fail` say.
fn fail(fields: &[&[u8]]) -> Result<Command, LineFault>
    ensures { ReadsCommand (Says words.Fail (map (λ field. field.now) fields.now)) result }
{
    let [gateway, how] = fields else {
        return Err(LineFault::NotACommand);
    };
    let Some(gateway) = number_u8(gateway) else {
        return Err(LineFault::NotACommand);
    };
    match failure(how) {
        Some((bytes, sync)) => Ok(Command::Happens(Event::WriteFails {
            gateway,
            bytes,
            sync,
        })),
        None => Err(LineFault::NotACommand),
    }
}

/// What the fields after `compact` say.
fn compact(fields: &[&[u8]]) -> Result<Command, LineFault>
    ensures { ReadsCommand (Says words.Compact (map (λ field. field.now) fields.now)) result }
{
    let [gateway] = fields else {
        return Err(LineFault::NotACommand);
    };
    match number_u8(gateway) {
        Some(gateway) => Ok(Command::Happens(Event::Compact { gateway })),
        None => Err(LineFault::NotACommand),
    }
}

/// How many unsynced bytes of each slot survive: so many, or all of them.
fn spared(text: &[u8]) -> Option<u64>
    ensures { MatchOption result ((n : ℕ) → ¬ (IsSpared text.now n)) (IsSpared text.now) }
{
    if text == b"all".as_slice() {
        Some(u64::MAX)
    } else {
        number(text)
    }
}

/// What the fields after `restart` say.
fn restart(fields: &[&[u8]]) -> Result<Command, LineFault>
    ensures { ReadsCommand (Says words.Restart (map (λ field. field.now) fields.now)) result }
{
    let [gateway, bytes] = fields else {
        return Err(LineFault::NotACommand);
    };
    let Some(gateway) = number_u8(gateway) else {
        return Err(LineFault::NotACommand);
    };
    match spared(bytes) {
        Some(keep) => Ok(Command::Happens(Event::Restart { gateway, keep })),
        None => Err(LineFault::NotACommand),
    }
}

/// What the fields after `show` say.
fn show(fields: &[&[u8]]) -> Result<Command, LineFault>
    ensures { ReadsCommand (Says words.Show (map (λ field. field.now) fields.now)) result }
{
    let [gateway] = fields else {
        return Err(LineFault::NotACommand);
    };
    match number_u8(gateway) {
        Some(gateway) => Ok(Command::Happens(Event::Show { gateway })),
        None => Err(LineFault::NotACommand),
    }
}
