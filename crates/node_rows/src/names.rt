//! Names for octets that many rows use.

use crate::page::Page;
use crate::stop::Stop;
use crate::words::Words;
use std::alloc::Global;

/// Octets that have a name.
struct Named {
    name: String,
    octets: Vec<u8>,
}

impl Drop for Named {
    fn drop(self) {
        let Named { name, octets } = self;
        drop(name);
        drop(octets);
    }
}

/// All octets that have a name.
#[derive(Drop)]
pub(crate) struct Names {
    all: Vec<Named>,
}

impl Names {
    /// No name.
    pub(crate) fn new(alloc: Global) -> Names {
        Names {
            all: Vec::new(alloc),
        }
    }

    /// The octets of a name.
    pub(crate) fn found(&self, name: &str) -> Option<&[u8]> {
        for named in &self.all {
            if named.name.as_str() == name {
                return Some(named.octets.as_slice());
            }
        }
        None
    }
}

/// `name NAME OCTETS ..`: from here on the name is these octets.
pub(crate) fn add(page: &mut Page, names: &mut Names, fields: &[&str]) {
    let mut words = Words::new(page.alloc(), names, fields);
    let name = words.word();
    let octets = words.octets();
    if words.end(page) {
        keep(page, names, name, octets);
    } else {
        drop(octets);
    }
}

/// From here on the name is these octets.
fn keep(page: &mut Page, names: &mut Names, name: &str, octets: Vec<u8>) {
    match String::from_str(page.alloc(), name) {
        Ok(name) => push(page, names, Named { name, octets }),
        Err(_) => {
            drop(octets);
            page.stop(Stop::Memory);
        }
    }
}

/// One more name.
fn push(page: &mut Page, names: &mut Names, named: Named) {
    let pushed = names.all.push(named);
    let is_short = pushed.is_err();
    drop(pushed);
    page.stop_if_short(is_short);
}

/// `repeat COUNT OCTETS ..`: these stand after the octets of the latest name so many times.
pub(crate) fn repeat(page: &mut Page, names: &mut Names, fields: &[&str]) {
    let mut words = Words::new(page.alloc(), names, fields);
    let times = words.number();
    let octets = words.repeated(times);
    if words.end(page) {
        extend_latest(page, names, &octets);
    }
    drop(octets);
}

/// Puts octets after those of the latest name.
fn extend_latest(page: &mut Page, names: &mut Names, octets: &[u8]) {
    match names.all.last_mut() {
        Some(named) => page.add(&mut named.octets, octets),
        None => page.stop(Stop::Line),
    }
}
