//! A stream in memory between two gateways.

use gw_link::{Phase, Stage};
use std::alloc::Global;
use std::collections::VecDeque;
use std::io::{self, ErrorKind, Read, Write};
use std::mem;
use std::sync::atomic::{AtomicBool, AtomicU64, Ordering};
use std::sync::{Mutex, Wait};

/// One end of a link: how far its shifts are, what has come to it, and what it has said.
pub(crate) struct Place {
    /// How far each of its shifts is: of the first, the second, the third, and of one after that.
    first: Stage,
    second: Stage,
    third: Stage,
    later: Stage,
    /// How many shifts are over.
    turns: AtomicU64,
    /// What came and was not read yet, a write each.
    coming: Mutex<VecDeque<Vec<u8>>>,
    /// What it has said, and nobody was told.
    said: Mutex<Vec<u8>>,
    /// How many reads that find nothing come before the one that ends the shift.
    idle: AtomicU64,
    /// How many octets its stream takes at once. At 0 it takes no more.
    takes: AtomicU64,
    /// Memory ran out when something was said.
    is_short: AtomicBool,
}

impl Drop for Place {
    fn drop(self) {
        let Place {
            first,
            second,
            third,
            later,
            turns,
            coming,
            said,
            idle,
            takes,
            is_short,
        } = self;
        drop(first);
        drop(second);
        drop(third);
        drop(later);
        drop(turns);
        drop(coming);
        drop(said);
        drop(idle);
        drop(takes);
        drop(is_short);
    }
}

impl Place {
    /// An end of which nothing has come and nothing was said, in shifts of 4,096 calls.
    pub(crate) fn new(alloc: Global) -> Place {
        Place {
            first: Stage::new(4_096, 0),
            second: Stage::new(4_096, 0),
            third: Stage::new(4_096, 0),
            later: Stage::new(4_096, 0),
            turns: AtomicU64::new(0),
            coming: Mutex::new(VecDeque::new(alloc)),
            said: Mutex::new(Vec::new(alloc)),
            idle: AtomicU64::new(0),
            takes: AtomicU64::new(65_536),
            is_short: AtomicBool::new(false),
        }
    }

    /// How far the shift is.
    pub(crate) fn stage(&self) -> &Stage {
        match self.turns.load(Ordering::SeqCst) {
            0 => &self.first,
            1 => &self.second,
            2 => &self.third,
            _ => &self.later,
        }
    }

    /// The next shift begins.
    pub(crate) fn turn(&self) {
        let _ = self.turns.fetch_add(1, Ordering::SeqCst);
    }

    /// So many reads that find nothing come before the one that ends the next shift.
    pub(crate) fn set_idle(&self, count: u64) {
        self.idle.store(count, Ordering::SeqCst);
    }

    /// The stream takes so many octets at once.
    pub(crate) fn set_takes(&self, count: u64) {
        self.takes.store(count, Ordering::SeqCst);
    }

    /// Whether memory ran out when something was said.
    pub(crate) fn is_short(&self) -> bool {
        self.is_short.load(Ordering::SeqCst)
    }

    /// What it has said and nobody was told, in whose place is this.
    pub(crate) fn take_said<T: Wait>(&self, rt: &T, left: Vec<u8>) -> Vec<u8> {
        mem::replace(&mut self.said.lock(rt), left)
    }

    /// Octets come to it, unless memory runs out, which it says.
    pub(crate) fn come<T: Wait>(&self, rt: &T, alloc: Global, octets: &[u8]) -> bool {
        match Vec::from_slice(alloc, octets) {
            Ok(octets) => self.coming.lock(rt).push_back(octets).is_ok(),
            Err(_) => false,
        }
    }

    /// What came first and was not read yet.
    fn next<T: Wait>(&self, rt: &T) -> Option<Vec<u8>> {
        self.coming.lock(rt).pop_front()
    }

    /// A read found nothing. The last one ends the shift.
    fn rest<T: Wait>(&self, rt: &T) {
        let idle = self.idle.load(Ordering::SeqCst);
        if idle == 0 {
            self.stage().go_to(rt, Phase::Quiet);
        }
        self.idle.store(idle.saturating_sub(1), Ordering::SeqCst);
    }
}

/// The stream of an end.
#[derive(Drop)]
pub(crate) struct Pipe<'a, T: Wait> {
    rt: &'a T,
    alloc: Global,
    here: &'a Place,
    there: &'a Place,
}

impl<'a, T: Wait> Pipe<'a, T> {
    /// The stream of one end to the other.
    pub(crate) fn new(rt: &'a T, alloc: Global, here: &'a Place, there: &'a Place) -> Pipe<'a, T> {
        Pipe {
            rt,
            alloc,
            here,
            there,
        }
    }

    /// Octets go out, unless memory runs out, which it says.
    fn say(&self, octets: &[u8]) -> bool {
        let said = self.here.said.lock(self.rt).extend_from_slice(octets);
        said.is_ok() && self.there.come(self.rt, self.alloc, octets)
    }
}

impl<'a, T: Wait> Read for Pipe<'a, T> {
    fn read(&mut self, buf: &mut [u8]) -> io::Result<usize> {
        let come = self.here.next(self.rt);
        match come {
            Some(octets) if octets.len() <= buf.len() => {
                let size = octets.len();
                buf[..size].copy_from_slice(octets.as_slice());
                drop(octets);
                Ok(size)
            }
            _ => {
                self.here.rest(self.rt);
                Err(io::Error::from(ErrorKind::WouldBlock))
            }
        }
    }
}

impl<'a, T: Wait> Write for Pipe<'a, T> {
    fn write(&mut self, buf: &[u8]) -> io::Result<usize> {
        let most = self.here.takes.load(Ordering::SeqCst) as usize;
        let size = buf.len().min(most);
        if self.say(&buf[..size]) {
            return Ok(size);
        }
        self.here.is_short.store(true, Ordering::SeqCst);
        Err(io::Error::from(ErrorKind::Other))
    }

    fn flush(&mut self) -> io::Result<()> {
        Ok(())
    }
}
