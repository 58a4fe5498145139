//! Scripts from a seed, as many as asked for.

ghost use Rattle.std.specs.Prelude.{◌≡◌, ◌≤◌, ◌<◌, ◌⊎◌, ◌↔◌, IfOk, None, Err};

use super::copying::{append_copies, append_show};
use super::draw::Draw;
use super::fault::RandomFault;
use super::field::Field;
use super::invent::invented;
use super::judge::{Difference, What};
use super::shorten::{Short, Verdict, examined, shortened};
use super::writing::script;
use gw_world::Event;
use octets::NoMemory;
use rep_model::Replica;
use std::alloc::{AllocError, Global};

/// A script that shows something else than the definitions say.
#[derive(Drop)]
pub struct Found {
    /// The script, as lines that the simulator reads.
    pub script: String,
    /// What differs, in a line.
    pub told: String,
}

/// What came of the scripts of a seed.
pub struct Report {
    /// How many events the scripts had.
    pub events: u64,
    /// How many scripts were played.
    pub scripts: u64,
    /// The first that differs, if one does.
    pub found: Option<Found>,
}

impl Drop for Report {
    fn drop(self) {
        let Report {
            events: _,
            scripts: _,
            found,
        } = self;
        drop(found);
    }
}

/// Plays random scripts over so many gateways, of so many events in all, and says where one differs
/// from the definitions. The contract is about the number of events alone: that they were played,
/// and what was found, is in no clause.
pub fn random_run<R: Replica>(
    alloc: Global,
    seed: u64,
    events: u64,
    gateways: u8,
) -> Result<Report, RandomFault>
    // Where nothing is found, so many events are counted.
    ensures whole { IfOk result (λ report. report.found ≡ None → events ≤ report.events) }
    ensures gateways { (result ≡ Err RandomFault.Gateways) ↔ ((gateways ≡ 0) ⊎ (8 < gateways)) }
{
    if gateways == 0 || gateways > 8 {
        return Err(RandomFault::Gateways);
    }
    let field = Field::new(alloc, gateways)?;
    let mut draw = Draw::new(seed);
    let mut played = 0u64;
    let mut scripts = 0u64;
    while played < events {
        let own = draw.number();
        let invented = invented::<R>(alloc, &field, own)?;
        played = played.saturating_add((invented.len() as u64).max(1));
        scripts = scripts.saturating_add(1);
        if let Some(found) = look::<R>(alloc, &field, own, invented)? {
            return Ok(Report {
                events: played,
                scripts,
                found: Some(found),
            });
        }
    }
    Ok(Report {
        events: played,
        scripts,
        found: None,
    })
}

/// What differs in a script, if something does.
fn look<R: Replica>(
    alloc: Global,
    field: &Field,
    seed: u64,
    events: Vec<Event>,
) -> Result<Option<Found>, NoMemory> {
    match examined::<R>(alloc, field, events.as_slice())? {
        Verdict::Same => Ok(None),
        Verdict::Stuck => Ok(Some(stuck(alloc, field, seed, events.as_slice())?)),
        Verdict::Differs {
            events: all,
            difference,
        } => {
            let found = shortest::<R>(alloc, field, seed, events, all, difference)?;
            Ok(Some(found))
        }
    }
}

/// A script that differs, made short and told.
fn shortest<R: Replica>(
    alloc: Global,
    field: &Field,
    seed: u64,
    events: Vec<Event>,
    all: Vec<Event>,
    difference: Difference,
) -> Result<Found, NoMemory> {
    let short = shortened::<R>(alloc, field, events, all, difference)?;
    describe(alloc, field, seed, &short)
}

/// A script that cannot be played.
fn stuck(alloc: Global, field: &Field, seed: u64, events: &[Event]) -> Result<Found, NoMemory> {
    let words = What::Stopped.words();
    let told = format!(in alloc; "script {seed}: {words}")?;
    as_found(alloc, field, events, told)
}

/// A short script that differs, and what differs.
fn describe(alloc: Global, field: &Field, seed: u64, short: &Short) -> Result<Found, NoMemory> {
    let front = front_of(alloc, field, short)?;
    let told = told_of(alloc, seed, short.difference)?;
    as_found(alloc, field, front.as_slice(), told)
}

/// These events as a script, with what differs.
fn as_found(
    alloc: Global,
    field: &Field,
    events: &[Event],
    told: String,
) -> Result<Found, NoMemory> {
    Ok(Found {
        script: script(alloc, field.gateways, events)?,
        told,
    })
}

/// What differs, in a line.
fn told_of(alloc: Global, seed: u64, difference: Difference) -> Result<String, AllocError> {
    let Difference { at, gateway, what } = difference;
    let number = at.saturating_add(1);
    let words = what.words();
    format!(in alloc; "script {seed}: event {number}, gateway {gateway}: {words}")
}

/// The events up to the one that differs, and what the gateways show then that matter there.
fn front_of(alloc: Global, field: &Field, short: &Short) -> Result<Vec<Event>, NoMemory> {
    let mut front = Vec::new(alloc);
    let until = short.difference.at.saturating_add(1).min(short.all.len());
    append_copies(alloc, &mut front, &short.all[..until])?;
    append_shows(&mut front, field.gateways, short.difference)?;
    Ok(front)
}

/// Appends what the gateway shows that differs, or what all show where two differ.
fn append_shows(
    front: &mut Vec<Event>,
    gateways: u8,
    difference: Difference,
) -> Result<(), NoMemory> {
    let Difference { gateway, what, .. } = difference;
    for number in 1..=gateways {
        if number == gateway || what == What::Apart || what == What::Sets {
            append_show(front, number)?;
        }
    }
    Ok(())
}
