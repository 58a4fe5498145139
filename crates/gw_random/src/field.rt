//! The gateways of a script, and what they answer.

use super::writing::{PREDEFINED, PREDEFINED_ID, lifetime_of};
use gw_world::{Answer, Event, NodeFault, Out, World, WorldFault, run};
use octets::{NoMemory, Sequence};
use rep_model::Replica;
use rep_ops::Delta;
use sn_local::Config;
use sn_topic::{Predefined, TopicName};
use std::alloc::Global;
use std::sync::Arc;

/// The gateways of a script, which are numbered from 1.
#[derive(Drop)]
pub(crate) struct Field {
    /// How many there are, 1 to 8.
    pub(crate) gateways: u8,
    configs: Vec<Config>,
}

/// What a run answered.
pub(crate) struct Played {
    /// An answer for each event.
    pub(crate) answers: Sequence<Answer>,
    /// The deltas that were made or answered.
    pub(crate) deltas: Sequence<Delta>,
}

impl Drop for Played {
    fn drop(self) {
        let Played { answers, deltas } = self;
        drop(answers);
        drop(deltas);
    }
}

impl Field {
    /// So many gateways.
    pub(crate) fn new(alloc: Global, gateways: u8) -> Result<Field, NoMemory> {
        let mut configs = Vec::new(alloc);
        for gateway in 1..=gateways {
            configs.push(config(alloc, gateway)?)?;
        }
        Ok(Field { gateways, configs })
    }

    /// Plays events. Nothing where one names a delta that is not there.
    pub(crate) fn play<R: Replica>(
        &self,
        alloc: Global,
        events: &[Event],
    ) -> Result<Option<Played>, NoMemory> {
        match run::<R>(alloc, self.configs.as_slice(), events) {
            Ok(
                World {
                    answers,
                    deltas,
                    ..
                },
            ) => Ok(Some(Played { answers, deltas })),
            Err(WorldFault::Memory) => Err(NoMemory),
            Err(_) => Ok(None),
        }
    }
}

/// What a gateway is told.
fn config(alloc: Global, gateway: u8) -> Result<Config, NoMemory> {
    let Ok(name) = TopicName::new(alloc, PREDEFINED) else {
        return Err(NoMemory);
    };
    let mut entries = Vec::new(alloc);
    entries.push((PREDEFINED_ID, name))?;
    let Ok(predefined) = Predefined::new(alloc, entries) else {
        return Err(NoMemory);
    };
    Ok(Config {
        gateway,
        advertise: 0,
        lifetime: lifetime_of(gateway),
        field: Sequence::empty(alloc),
        predefined,
    })
}

/// How many deltas the answer of this index adds to the list.
pub(crate) fn added_at(answers: &[Answer], index: usize) -> u64 {
    match answers.get(index) {
        Some(answer) => added(answer),
        None => 0,
    }
}

/// How many deltas an answer adds to the list.
pub(crate) fn added(answer: &Answer) -> u64 {
    match answer {
        Answer::Node(Ok(out)) => {
            let made = if out.made.is_some() { 1 } else { 0 };
            (out.answer.len() as u64).saturating_add(made)
        }
        Answer::Row(answers) => made_by_row(answers.as_slice()),
        Answer::Node(Err(_)) | Answer::Views(_, _) | Answer::Records(_) | Answer::Nothing => 0,
    }
}

/// How many deltas the answers to calls that came together add to the list.
pub(crate) fn made_by_row(answers: &[Result<Arc<Out>, NodeFault>]) -> u64 {
    let mut count = 0u64;
    for answer in answers {
        if has_made(answer) {
            count = count.saturating_add(1);
        }
    }
    count
}

/// Whether an answer tells of a delta that was made.
pub(crate) fn has_made(answer: &Result<Arc<Out>, NodeFault>) -> bool {
    match answer {
        Ok(out) => out.made.is_some(),
        Err(_) => false,
    }
}
