//! Topic names, filters and predefined topic ids.

use crate::refusals::calls::{Calls, Made, Shown, beside, given, is_word};
use crate::refusals::said::{Said, Stop};
use sn_topic::{Filter, Predefined, TopicFault, TopicName};

/// What is copied.
pub(crate) struct Topics {
    name: TopicName,
    filter: Filter,
    table: Predefined,
}

impl Drop for Topics {
    fn drop(self) {
        let Topics {
            name,
            filter,
            table,
        } = self;
        drop(name);
        drop(filter);
        drop(table);
    }
}

impl Made for Topics {
    fn make(said: &mut Said, _call: &str, _is_second: bool) -> Option<Topics> {
        match topic(said) {
            Some(name) => with_name(said, name),
            None => None,
        }
    }
}

/// What is copied, with this name.
fn with_name(said: &mut Said, name: TopicName) -> Option<Topics> {
    match filter(said, b"t/#") {
        Some(filter) => with_filter(said, name, filter),
        None => {
            drop(name);
            None
        }
    }
}

/// What is copied, with this name and this filter.
fn with_filter(said: &mut Said, name: TopicName, filter: Filter) -> Option<Topics> {
    match predefined(said) {
        Some(table) => Some(Topics {
            name,
            filter,
            table,
        }),
        None => {
            drop(name);
            drop(filter);
            None
        }
    }
}

impl Calls for Topics {
    fn call_once(&mut self, said: &mut Said, call: &str) {
        match call {
            "TopicName::new" | "TopicName::copy" => self.name_once(said, call),
            "Filter::new" | "Filter::copy" => self.filter_once(said, call),
            _ => self.table_once(said, call),
        }
    }
}

impl Topics {
    /// Makes or copies a topic name.
    fn name_once(&self, said: &mut Said, call: &str) {
        let made = if is_word(call, "TopicName::new") {
            TopicName::new(said.alloc, b"t/a")
        } else {
            self.name.copy(said.alloc)
        };
        given(said, made, TopicFault::Memory);
    }

    /// Makes or copies a filter.
    fn filter_once(&self, said: &mut Said, call: &str) {
        let made = if is_word(call, "Filter::new") {
            Filter::new(said.alloc, b"t/#")
        } else {
            self.filter.copy(said.alloc)
        };
        given(said, made, TopicFault::Memory);
    }

    /// Makes or copies a table of predefined topic ids.
    fn table_once(&self, said: &mut Said, call: &str) {
        let made = if is_word(call, "Predefined::new") {
            let entries = entries(said);
            Predefined::new(said.alloc, entries)
        } else {
            self.table.copy(said.alloc)
        };
        given(said, made, TopicFault::Memory);
    }
}

impl Shown for TopicName {
    fn show(&self, said: &mut Said) {
        said.octets(self.bytes());
    }
}

impl Shown for Filter {
    fn show(&self, said: &mut Said) {
        said.octets(self.bytes());
    }
}

/// Prints what id 5 stands for.
impl Shown for Predefined {
    fn show(&self, said: &mut Said) {
        match self.name(5) {
            Some(name) => said.octets(name.bytes()),
            None => said.stop(Stop::Other),
        }
    }
}

/// A topic name.
pub(crate) fn topic(said: &mut Said) -> Option<TopicName> {
    let made = TopicName::new(said.alloc, b"t/a");
    beside(said, made)
}

/// A filter.
pub(crate) fn filter(said: &mut Said, octets: &[u8]) -> Option<Filter> {
    let made = Filter::new(said.alloc, octets);
    beside(said, made)
}

/// What a gateway knows beforehand: id 5.
fn entries(said: &mut Said) -> Vec<(u16, TopicName)> {
    let mut entries = Vec::new(said.alloc);
    if let Some(topic) = topic(said) {
        let is_short = entries.push((5u16, topic)).is_err();
        said.stop_if_short(is_short);
    }
    entries
}

/// The same as a table.
pub(crate) fn predefined(said: &mut Said) -> Option<Predefined> {
    let entries = entries(said);
    let made = Predefined::new(said.alloc, entries);
    beside(said, made)
}
