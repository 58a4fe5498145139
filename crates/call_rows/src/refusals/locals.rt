//! What a gateway is told, and what it knows that is in no set of operations.

use crate::refusals::calls::{Calls, Made, Shown, given, is_word};
use crate::refusals::deltas::client;
use crate::refusals::said::Said;
use crate::refusals::topics::predefined;
use octets::{NoMemory, Sequence};
use rep_ops::ClientId;
use sn_local::{Addr, Config, Dialogs, LocalChange, StepFault};
use std::alloc::AllocError;

/// Where client s1 speaks from.
pub(crate) const HERE: Addr = Addr { host: 0, port: 7 };

/// What a gateway is told, and what it knows.
pub(crate) struct Locals {
    config: Config,
    dialogs: Dialogs,
}

impl Drop for Locals {
    fn drop(self) {
        let Locals { config, dialogs } = self;
        drop(config);
        drop(dialogs);
    }
}

impl Made for Locals {
    fn make(said: &mut Said, call: &str, _is_second: bool) -> Option<Locals> {
        let config = config(said)?;
        let mut dialogs = Dialogs::empty(said.alloc);
        if is_word(call, "Dialogs::copied") {
            let changes = changes(said);
            let is_short = change(&mut dialogs, changes).is_err();
            said.stop_if_short(is_short);
        }
        Some(Locals { config, dialogs })
    }
}

impl Calls for Locals {
    fn call_once(&mut self, said: &mut Said, call: &str) {
        if is_word(call, "Config::copy") {
            let copy = self.config.copy(said.alloc);
            given(said, copy, StepFault::Memory);
        } else if is_word(call, "Dialogs::copied") {
            let copy = self.dialogs.copied(said.alloc);
            given(said, copy, NoMemory);
        } else {
            let changes = changes(said);
            let done = change(&mut self.dialogs, changes);
            show(said, self.dialogs.client_at(HERE), done.is_err());
        }
    }
}

/// Prints who speaks from the address.
impl Shown for Dialogs {
    fn show(&self, said: &mut Said) {
        if let Some(client) = self.client_at(HERE) {
            said.octets(client.bytes());
        }
    }
}

impl Shown for Config {
    fn show(&self, said: &mut Said) {
        said.number("field", self.field.len());
        said.number("predefined", self.predefined.entries().len());
    }
}

/// What gateway 1 is told.
pub(crate) fn config(said: &mut Said) -> Option<Config> {
    let predefined = predefined(said)?;
    let mut field = Sequence::empty(said.alloc);
    let is_short = field.push(Addr { host: 1, port: 2 }).is_err();
    said.stop_if_short(is_short);
    Some(Config {
        gateway: 1,
        advertise: 0,
        lifetime: 0,
        field,
        predefined,
    })
}

/// The client speaks from its address, and was heard of.
fn changes(said: &mut Said) -> Sequence<LocalChange> {
    let mut changes = Sequence::empty(said.alloc);
    if let Some(client) = client(said) {
        let bound = LocalChange::Bind {
            address: HERE,
            client,
        };
        add(said, &mut changes, bound);
    }
    if let Some(client) = client(said) {
        let heard = LocalChange::Heard { client, moment: 0 };
        add(said, &mut changes, heard);
    }
    changes
}

/// A change comes after the others.
fn add(said: &mut Said, changes: &mut Sequence<LocalChange>, change: LocalChange) {
    let is_short = changes.push(change).is_err();
    said.stop_if_short(is_short);
}

/// Changes what a gateway knows.
pub(crate) fn change(
    dialogs: &mut Dialogs,
    changes: Sequence<LocalChange>,
) -> Result<(), AllocError> {
    match dialogs.prepare(changes.as_slice()) {
        Ok(()) => {
            dialogs.commit(changes);
            Ok(())
        }
        Err(fault) => Err(fault),
    }
}

/// Prints who speaks from the address: nobody, if the change was refused.
fn show(said: &mut Said, found: Option<&ClientId>, is_refused: bool) {
    if is_refused {
        said.keep(found.is_none());
        said.refuse(true);
    } else if let Some(client) = found {
        said.octets(client.bytes());
        said.answer();
    }
}
