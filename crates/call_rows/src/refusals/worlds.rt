//! Fields of gateways, and scripts.

use crate::refusals::calls::{Calls, Made, beside, is_same, is_word};
use crate::refusals::gateways::{Gateway, show_kept};
use crate::refusals::page::Page;
use crate::refusals::said::Said;
use gw_play::{Counted, play};
use gw_script::{Script, parse};
use gw_world::{World, WorldFault, run};
use rep_model::Replica;
use rep_plain::Plain;
use rep_state::Folded;
use std::alloc::Global;

/// A script about two gateways.
const FIELD: &[u8] =
    b"gateway 1\ngateway 2\nframe 1 7 0 08040401003c7331\nframe 1 7 0 0812200002742f23\nanswer 2 1\ntake 2 3\ncompact 1\nrestart 1 9\ntick 1 1000\nshow 1\n";

/// A script about one gateway.
const SCRIPT: &[u8] =
    b"gateway 1\nframe 1 7 0 08040401003c7331\nframe 1 7 1 0812200002742f23\nshow 1\n";

/// What happens to two gateways. The second run is that of `Folded`.
#[derive(Drop)]
pub(crate) struct Worlds {
    script: Script,
    is_folded: bool,
}

impl Made for Worlds {
    fn make(said: &mut Said, _call: &str, is_second: bool) -> Option<Worlds> {
        let parsed = parse(said.alloc, FIELD);
        match beside(said, parsed) {
            Some(script) => Some(Worlds {
                script,
                is_folded: is_second,
            }),
            None => None,
        }
    }
}

impl Calls for Worlds {
    fn call_once(&mut self, said: &mut Said, call: &str) {
        if is_word(call, "play") {
            play_once(said);
        } else if self.is_folded {
            run_once::<Folded>(said, &self.script);
        } else {
            run_once::<Plain>(said, &self.script);
        }
    }
}

/// Runs what a script says.
fn run_once<R: Replica>(said: &mut Said, script: &Script) {
    match ran::<R>(said.alloc, script) {
        Ok(world) => {
            show_world(said, &world);
            drop(world);
            said.answer();
        }
        Err(fault) => said.refuse(matches!(&fault, WorldFault::Memory)),
    }
}

/// What comes of a script.
fn ran<R: Replica>(alloc: Global, script: &Script) -> Result<World<Gateway<R>>, WorldFault> {
    run::<R>(alloc, script.configs.as_slice(), script.events.as_slice())
}

/// Prints how much there is in a world, and what each of its gateways keeps.
fn show_world<R: Replica>(said: &mut Said, world: &World<Gateway<R>>) {
    said.number("answers", world.answers.len());
    said.number("deltas", world.deltas.len());
    show_all(said, world.gateways.as_slice());
}

/// Prints what each of these gateways keeps.
fn show_all<R: Replica>(said: &mut Said, gateways: &[Gateway<R>]) {
    for node in gateways {
        show_kept(said, node);
    }
}

/// Plays the script about one gateway. If memory is refused, that is all it prints.
fn play_once(said: &mut Said) {
    let mut page = Page::new();
    let status = played(said.alloc, &mut page);
    if status == 0 {
        said.page.append(page.as_slice());
        said.answer();
    } else {
        said.keep(is_same(page.as_slice(), b"E3\n"));
        said.refuse(status == 1);
    }
    drop(page);
}

/// The status of the script about one gateway, which prints to a page.
fn played(alloc: Global, page: &mut Page) -> u8 {
    let mut script = Counted::new(SCRIPT);
    let status = play(alloc, &mut script, page);
    drop(script);
    status
}
