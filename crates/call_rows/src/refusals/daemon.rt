//! Settings, the start of a daemon, and its files.

use crate::refusals::calls::{Calls, Made, Shown, given, is_same, is_word, play_call};
use crate::refusals::page::Page;
use crate::refusals::said::{Said, Stop};
use file_disk::{FileDisk, FileDiskFault};
use gw_main::options::Settings;
use gw_main::{SettingsFault, begin, settings};
use jr_journal::MemoryDisk;
use rep_state::Folded;

/// The shortest settings.
const SHORT: &str =
    "gateway = 1\nlisten = \"127.0.0.1:1884\"\nlink = \"127.0.0.1:1885\"\njournal = \"j\"\n";

/// All settings.
const LONG: &str =
    "gateway = 1\nlisten = \"127.0.0.1:1884\"\nlink = \"127.0.0.1:1885\"\njournal = \"j\"\nworkers = 3\nsteps = 9\nadvertise = 900\nlifetime = 86400\nfield = [\"10.0.0.1:1884\"]\npeers = [\"10.0.0.2:1885\"]\npredefined = [{ id = 5, topic = \"t/a\" }]\n";

/// Settings.
#[derive(Drop)]
pub(crate) struct Starts {
    text: &'static str,
}

impl Made for Starts {
    fn make(_said: &mut Said, _call: &str, is_second: bool) -> Option<Starts> {
        let text = if is_second { LONG } else { SHORT };
        Some(Starts { text })
    }
}

impl Calls for Starts {
    fn call_once(&mut self, said: &mut Said, call: &str) {
        if is_word(call, "settings") {
            let read = settings(said.alloc, self.text);
            given(said, read, SettingsFault::Memory);
        } else {
            begin_read(said);
        }
    }
}

/// Starts a gateway of all settings, which are read beside the call.
fn begin_read(said: &mut Said) {
    let read = settings(said.alloc, LONG);
    match &read {
        Ok(read) => begin_once(said, read),
        Err(_) => said.stop(Stop::Memory),
    }
    drop(read);
}

impl Shown for Settings {
    fn show(&self, said: &mut Said) {
        said.number("workers", self.workers as usize);
        said.number("steps", self.steps as usize);
        said.number("advertise", self.advertise as usize);
        said.number("lifetime", self.lifetime as usize);
        said.number("field", self.field.len());
        said.number("peers", self.peers.len());
        said.number("predefined", self.predefined.entries().len());
    }
}

/// Starts a gateway on an empty disk, and prints what that prints.
fn begin_once(said: &mut Said, read: &Settings) {
    let mut out = Page::new();
    let mut err = Page::new();
    match begun(said, read, &mut out, &mut err) {
        None => {
            said.keep(err.as_slice().is_empty());
            said.page.append(out.as_slice());
            said.answer();
        }
        Some(status) => {
            said.keep(status == 2 && out.as_slice().is_empty());
            look(said, err.as_slice());
        }
    }
}

/// The status of a start that is refused.
fn begun(said: &mut Said, read: &Settings, out: &mut Page, err: &mut Page) -> Option<u8> {
    let disk = MemoryDisk::new(said.alloc);
    begin::<Folded, _, Page, Page>(said.alloc, read, disk, out, err).err()
}

/// Looks at what a refused start prints. The disk, which begins empty, is gone then.
fn look(said: &mut Said, line: &[u8]) {
    if is_same(line, b"sngw: journal J4\n") {
        said.refuse(true);
    } else {
        said.keep(is_same(line, b"sngw: journal J1\n"));
        said.starve();
    }
}

/// The system whose files are opened.
#[derive(Drop)]
struct Opens<'a> {
    rt: &'a HostRuntime,
}

/// Plays a row of files.
pub(crate) fn play_files(rt: &HostRuntime, said: &mut Said, call: &str) {
    play_call(said, &mut Opens { rt }, call);
}

impl<'a> Calls for Opens<'a> {
    fn call_once(&mut self, said: &mut Said, _call: &str) {
        match &FileDisk::at(self.rt, said.alloc, "j") {
            Ok(_disk) => {
                said.page.append(b"two files\n");
                said.answer();
            }
            Err(fault) => said.refuse(*fault == FileDiskFault::Memory),
        }
    }
}
