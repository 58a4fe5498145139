//! What the lines of a script say together.

ghost use Rattle.std.specs.Prelude.{◌≡◌, ◌∷◌, ◌++◌, ◌==◌, [], ℕ, Err, IfOk, IsTrue, IsFalse, IfSome, length, ◌<◌, position};
ghost use Rattle.sn_topic.specs.Table.{is_table};
ghost use Rattle.gw_script.specs.Commands.{lines_of};
ghost use Rattle.gw_script.specs.Scripts.{IsScriptOf, AreGateways, IsBadLine, IsBadCall};

use super::command::{Command, cut, read_command};
use super::fault::{LineFault, ScriptFault};
use super::rows::{calls_of, row_of};
use gw_world::{Call, Event};
use octets::{NoMemory, Sequence};
use sn_local::Config;
use sn_topic::{Predefined, TopicFault, TopicName};
use std::alloc::Global;

/// What a script says: which gateways there are, and then what happens.
pub struct Script {
    /// The gateways, in the order of their lines.
    pub configs: Sequence<Config>,
    /// The events, in the order of their lines.
    pub events: Sequence<Event>,
}

impl Drop for Script {
    fn drop(self) {
        let Script { configs, events } = self;
        drop(configs);
        drop(events);
    }
}

impl Script {
    ghost use Rattle.std.specs.Prelude.{◌≡◌, ◌+◌, ◌<◌, ℕ, [], Err, IfOk, OnOk, OnErr, get_or, length, map};
    ghost use Rattle.gw_script.specs.declared.script.Script.{Script};
    ghost use Rattle.gw_script.specs.declared.command.Command.TheVariants.{Gateway, Lifetime, Predefine};
    ghost use Rattle.gw_script.specs.Rows.{IsRowLine};
    ghost use Rattle.gw_script.specs.Scripts.{empty_script, with_row, AddsCommand, Extends};
    ghost use Rattle.gw_script.specs.inner.Rows.{RowRead, LineRead, NoLineAt, NoCallBehind};
    ghost use Rattle.gw_script.specs.Scripts as spec;

    /// The script that says nothing.
    pub fn empty(alloc: Global) -> Script
        ensures { result ≡ empty_script }
    {
        Script {
            configs: Sequence::empty(alloc),
            events: Sequence::empty(alloc),
        }
    }

    /// Adds what a line says. On an error the script is as it was.
    pub fn extend(&mut self, alloc: Global, line: &[u8]) -> Result<(), LineFault>
        ensures ok { OnOk result (Extends self.old line.now self.new) }
        ensures refused { result ≡ Err LineFault.NotACommand → (after : Script)
            → Extends self.old line.now after → ⊥ }
        ensures err { OnErr result (self.new ≡ self.old) }
    {
        if line.is_empty() {
            return Ok(());
        }
        let command = read_command(alloc, line)?;
        self.add(alloc, command)
    }

    /// Adds a command. On an error the script is as it was.
    pub fn add(&mut self, alloc: Global, command: Command) -> Result<(), LineFault>
        ensures ok { OnOk result (AddsCommand self.old command self.new) }
        ensures refused { result ≡ Err LineFault.NotACommand → (after : Script)
            → AddsCommand self.old command after → ⊥ }
        ensures err { OnErr result (self.new ≡ self.old) }
    {
        match command {
            Command::Gateway { number } => self.add_gateway(alloc, number),
            Command::Predefine { number, id, name } => {
                self.add_predefined(alloc, number, id, name)
            }
            Command::Lifetime { number, seconds } => self.add_lifetime(alloc, number, seconds),
            Command::Happens(event) => {
                self.events.push(event)?;
                Ok(())
            }
        }
    }

    /// Adds a gateway.
    fn add_gateway(&mut self, alloc: Global, number: u8) -> Result<(), LineFault>
        ensures ok { OnOk result (AddsCommand self.old (Gateway number) self.new) }
        ensures refused { result ≡ Err LineFault.NotACommand → (after : Script)
            → AddsCommand self.old (Gateway number) after → ⊥ }
        ensures err { OnErr result (self.new ≡ self.old) }
    {
        if number == 0 || !self.events.is_empty() || self.has_gateway(number) {
            return Err(LineFault::NotACommand);
        }
        let predefined = no_entries(alloc);
        self.configs.push(Config {
            gateway: number,
            advertise: 0,
            lifetime: 0,
            field: Sequence::empty(alloc),
            predefined,
        })?;
        Ok(())
    }

    /// Adds a predefined topic id.
    fn add_predefined(
        &mut self,
        alloc: Global,
        number: u8,
        id: u16,
        name: TopicName,
    ) -> Result<(), LineFault>
        ensures ok { OnOk result (AddsCommand self.old (Predefine number id name) self.new) }
        ensures refused { result ≡ Err LineFault.NotACommand → (after : Script)
            → AddsCommand self.old (Predefine number id name) after → ⊥ }
        ensures err { OnErr result (self.new ≡ self.old) }
    {
        if !self.events.is_empty() {
            return Err(LineFault::NotACommand);
        }
        let Some(place) = place_of(self.configs.as_slice(), number) else {
            return Err(LineFault::NotACommand);
        };
        let config = with_entry(alloc, &self.configs.as_slice()[place], id, name)?;
        self.configs.replace(place, config);
        Ok(())
    }

    /// Gives a gateway a lifetime, in seconds.
    fn add_lifetime(&mut self, alloc: Global, number: u8, seconds: u32) -> Result<(), LineFault>
        ensures ok { OnOk result (AddsCommand self.old (Lifetime number seconds) self.new) }
        ensures refused { result ≡ Err LineFault.NotACommand → (after : Script)
            → AddsCommand self.old (Lifetime number seconds) after → ⊥ }
        ensures err { OnErr result (self.new ≡ self.old) }
    {
        if !self.events.is_empty() {
            return Err(LineFault::NotACommand);
        }
        let Some(place) = place_of(self.configs.as_slice(), number) else {
            return Err(LineFault::NotACommand);
        };
        let config = with_lifetime(alloc, &self.configs.as_slice()[place], seconds)?;
        self.configs.replace(place, config);
        Ok(())
    }

    /// Adds that calls come to a gateway together. On an error the script is as it was.
    fn add_row(&mut self, gateway: u8, calls: Vec<Call>) -> Result<(), NoMemory>
        ensures ok { OnOk result (self.new ≡ with_row self.old gateway calls.items) }
        ensures err { OnErr result (self.new ≡ self.old) }
    {
        self.events.push(Event::Together {
            gateway,
            calls: Sequence::new(calls),
        })?;
        Ok(())
    }

    /// Adds the calls of the lines behind that at this place, if this one says that calls come
    /// together. The place behind them.
    fn read_row(&mut self, alloc: Global, lines: &[&[u8]], at: usize) -> Result<usize, ScriptFault>
        requires { at < length lines.now }
        ensures ok { IfOk result (λ next. RowRead self.old
            (map (λ line. line.now) lines.now) at self.new next) }
        ensures bad { (k : ℕ) → result ≡ Err (ScriptFault.Line k) → (k ≡ at + 1)
            × ((gateway count : ℕ)
            → ¬ (IsRowLine (get_or (map (λ line. line.now) lines.now) at []) gateway count)) }
        ensures call { (k : ℕ) → result ≡ Err (ScriptFault.Call k)
            → NoCallBehind (map (λ line. line.now) lines.now) at k }
    {
        let Some((gateway, count)) = row_of(alloc, lines[at])? else {
            return Err(ScriptFault::Line { number: at + 1 });
        };
        let calls = match calls_of(alloc, &lines[at + 1..], gateway, count, at + 1) {
            Ok(calls) => calls,
            Err(fault) => return Err(fault),
        };
        let next = at + 1 + calls.len();
        self.add_row(gateway, calls)?;
        Ok(next)
    }

    /// Adds what the line at this place says, with the lines behind it that belong to it. The place
    /// behind them.
    fn read_at(&mut self, alloc: Global, lines: &[&[u8]], at: usize) -> Result<usize, ScriptFault>
        requires { at < length lines.now }
        ensures ok { IfOk result (λ next. LineRead self.old
            (map (λ line. line.now) lines.now) at self.new next) }
        ensures bad { (k : ℕ) → result ≡ Err (ScriptFault.Line k) → (k ≡ at + 1)
            × NoLineAt self.old (map (λ line. line.now) lines.now) at }
        ensures call { (k : ℕ) → result ≡ Err (ScriptFault.Call k)
            → NoCallBehind (map (λ line. line.now) lines.now) at k }
    {
        match self.extend(alloc, lines[at]) {
            Ok(()) => Ok(at + 1),
            Err(LineFault::NotACommand) => self.read_row(alloc, lines, at),
            Err(LineFault::Memory) => Err(ScriptFault::Memory),
        }
    }

    /// Whether there is a gateway of this number.
    fn has_gateway(&self, number: u8) -> bool
        ensures { result ≡ spec.has_gateway self.now.configs number }
    {
        self.configs
            .as_slice()
            .iter()
            .any(|config| config.gateway == number)
    }
}

/// The place of the gateway of this number.
fn place_of(configs: &[Config], number: u8) -> Option<usize>
    ensures place { result ≡ position (λ config. config.gateway == number) configs.now }
    ensures within { IfSome result (λ place. place < length configs.now) }
{
    configs.iter().position(|config| config.gateway == number)
}

/// The config with one more predefined topic id.
fn with_entry(alloc: Global, config: &Config, id: u16, name: TopicName) -> Result<Config, LineFault>
    ensures ok { IfOk result (λ made. IsTrue (is_table (config.now.predefined ++ (id, name) ∷ []))
        × (made ≡ record config.now { predefined = config.now.predefined ++ (id, name) ∷ [] })) }
    ensures refused { result ≡ Err LineFault.NotACommand
        → IsFalse (is_table (config.now.predefined ++ (id, name) ∷ [])) }
{
    let mut entries = copy_entries(alloc, config.predefined.entries())?;
    entries.push((id, name))?;
    match Predefined::new(alloc, entries) {
        Ok(predefined) => Ok(Config {
            gateway: config.gateway,
            advertise: config.advertise,
            lifetime: config.lifetime,
            field: Sequence::new(Vec::from_slice(alloc, config.field.as_slice())?),
            predefined,
        }),
        Err(TopicFault::Memory) => Err(LineFault::Memory),
        Err(_) => Err(LineFault::NotACommand),
    }
}

/// The config with this lifetime, in seconds.
fn with_lifetime(alloc: Global, config: &Config, seconds: u32) -> Result<Config, NoMemory>
    ensures { IfOk result (λ made. made ≡ record config.now { lifetime = seconds }) }
{
    let mut made = config.copied(alloc)?;
    made.lifetime = seconds;
    Ok(made)
}

/// Equal entries.
fn copy_entries(
    alloc: Global,
    entries: &[(u16, TopicName)],
) -> Result<Vec<(u16, TopicName)>, NoMemory>
    ensures { IfOk result (λ made. made.items ≡ entries.now) }
{
    let mut made = Vec::with_capacity(alloc, entries.len() + 1)?;
    for (id, name) in entries {
        let Ok(name) = name.copied(alloc) else {
            return Err(NoMemory);
        };
        made.push((*id, name))?;
    }
    Ok(made)
}

/// The table without an entry.
fn no_entries(alloc: Global) -> Predefined
    ensures { result ≡ [] }
{
    match Predefined::new(alloc, Vec::new(alloc)) {
        Ok(table) => table,
        Err(_) => unreachable!(),
    }
}

/// The script that a text says.
pub fn parse(alloc: Global, text: &[u8]) -> Result<Script, ScriptFault>
    ensures ok { IfOk result (IsScriptOf (lines_of text.now)) }
    ensures gateways { IfOk result (λ script. AreGateways script.configs) }
    // The first bad line is told.
    ensures bad { (k : ℕ) → result ≡ Err (ScriptFault.Line k) → IsBadLine (lines_of text.now) k }
    ensures call { (k : ℕ) → result ≡ Err (ScriptFault.Call k) → IsBadCall (lines_of text.now) k }
{
    let lines = cut(alloc, text, b'\n')?;
    let mut script = Script::empty(alloc);
    let mut at = 0;
    'reading: while at < lines.len() {
        match script.read_at(alloc, lines.as_slice(), at) {
            Ok(next) => at = next,
            Err(fault) => return Err(fault),
        }
    }
    Ok(script)
}
