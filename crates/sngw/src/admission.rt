//! Which datagrams become calls: those that are frames, but for a CONNECT of a client that is not
//! let in.

ghost use Rattle.std.specs.Prelude.{◌≡◌, ◌≢◌};
ghost use Rattle.sn_frame.specs.declared.fault.FrameFault.{FrameFault};
ghost use Rattle.sn_frame.specs.declared.fault.FrameFault.TheVariants as frame_faults;
ghost use Rattle.sn_frame.specs.Faults.{IsFirstFault};
ghost use Rattle.sngw.specs.declared.admission.Verdict.TheVariants as verdicts;

use gw_main::options::Settings;
use gw_main::{counted_in, lets_in, may_come};
use octets::Octets;
use rep_ops::ClientId;
use sn_frame::{Frame, FrameFault, decode};
use std::alloc::Global;

/// The return code of CONNACK for a client that never comes in (MQTT-SN 1.2 section 5.3.10).
const NOT_SUPPORTED: u8 = 3;

/// The same for one that may come later.
pub(crate) const CONGESTION: u8 = 1;

/// After how many seconds the list of those that are known is old: over links others may have
/// become known.
const KNOWN_SECONDS: u64 = 10;

/// What becomes of a datagram.
#[derive(Clone, Copy, PartialEq, Eq)]
pub enum Verdict {
    /// It becomes a call.
    Comes,
    /// It is no frame, and is dropped.
    Dropped,
    /// It is a CONNECT of a client that is not let in, and is answered by this return code.
    TurnedAway(u8),
}

/// Which client ids have come in. The ids are kept for the life of a field, so neither a sensor
/// that has another id each day nor a stranger is to use them up. Only the reader's thread asks it.
pub struct Admission {
    /// The patterns of the ids that come in: all, where there is none.
    patterns: Vec<Octets>,
    /// How many newcomers come in within a minute; 0 for any number.
    newcomers: u16,
    /// Those that are known, while newcomers are counted.
    known: Vec<ClientId>,
    /// The second in which they were looked up.
    looked: u64,
    /// Since which second newcomers are counted, and how many came in since then.
    counted: (u64, u16),
}

impl Drop for Admission {
    fn drop(self) {
        let Admission {
            patterns,
            newcomers: _,
            known,
            looked: _,
            counted: _,
        } = self;
        drop(patterns);
        drop(known);
    }
}

impl Admission {
    /// By these settings; none has come in. `None` if memory ran out.
    pub(crate) fn of(alloc: Global, settings: &Settings) -> Option<Admission> {
        let mut patterns = Vec::new(alloc);
        for pattern in settings.clients.as_slice() {
            patterns.push(pattern.copied(alloc).ok()?).ok()?;
        }
        Some(Admission {
            patterns,
            newcomers: settings.newcomers,
            known: Vec::new(alloc),
            looked: 0,
            counted: (0, 0),
        })
    }

    /// In this second these are known.
    pub(crate) fn know(&mut self, second: u64, clients: Vec<ClientId>) {
        self.known = clients;
        self.looked = second;
    }

    /// Whether others may have become known since they were looked up.
    pub(crate) fn is_old(&self, second: u64) -> bool {
        second.saturating_sub(self.looked) >= KNOWN_SECONDS
    }

    /// What becomes of a datagram that came in this second. What may be a frame is never dropped.
    pub(crate) fn verdict(&mut self, alloc: Global, second: u64, datagram: &[u8]) -> Verdict
        ensures { result ≡ verdicts.Dropped → (fault : FrameFault)
            × ((fault ≢ frame_faults.Memory) × IsFirstFault datagram.now fault) }
    {
        match decode(alloc, datagram) {
            Err(FrameFault::Memory) => Verdict::Comes,
            Err(_) => Verdict::Dropped,
            Ok(frame) => {
                let refusal = self.refusal(alloc, second, &frame);
                drop(frame);
                match refusal {
                    None => Verdict::Comes,
                    Some(code) => Verdict::TurnedAway(code),
                }
            }
        }
    }

    /// The return code by which a frame is answered that is a CONNECT of a client which is not let
    /// in.
    fn refusal(&mut self, alloc: Global, second: u64, frame: &Frame) -> Option<u8> {
        let Frame::Connect { client, .. } = frame else {
            return None;
        };
        let id = client.as_slice();
        if !lets_in(self.patterns.as_slice(), id) {
            return Some(NOT_SUPPORTED);
        }
        if self.newcomers == 0 || self.is_known(id) || self.has_come(alloc, second, id) {
            return None;
        }
        Some(CONGESTION)
    }

    /// Whether a client has come in before.
    fn is_known(&self, id: &[u8]) -> bool {
        self.known.iter().any(|known| known.bytes() == id)
    }

    /// Whether a newcomer comes in, in this second. If so, it is known.
    fn has_come(&mut self, alloc: Global, second: u64, id: &[u8]) -> bool {
        let (since, count) = counted_in(self.counted, second);
        if !may_come(count, self.newcomers) {
            return false;
        }
        self.counted = (since, count.saturating_add(1));
        if let Ok(id) = ClientId::new(alloc, id) {
            let _ = self.known.push(id);
        }
        true
    }
}
