//! A link that is open.

ghost use Rattle.std.specs.Prelude.{◌≡◌, true};
ghost use Rattle.std.specs.Arc.{arc_value};
ghost use Rattle.gw_link.specs.Adding.{is_of_link};

use crate::counts::{LinkCounts, no_counts};
use gw_net::LinkIn;
use gw_shift::gw_node::Step;
use std::alloc::Global;
use std::collections::VecDeque;
use std::sync::Arc;

/// Which end made the connection.
#[derive(Clone, Copy, PartialEq, Eq)]
pub enum Origin {
    /// This one dialled the peer of this place in the settings.
    Dialled(usize),
    /// The other one.
    Accepted,
}

/// What came over a link, as the call that it asks for.
#[derive(Drop)]
pub(crate) struct Heard {
    pub(crate) step: Arc<Step>,
    pub ghost of_link: { is_of_link (arc_value step) ≡ true },
}

/// A link that is open.
pub struct Link<S: Drop> {
    pub(crate) stream: S,
    /// Which end made the connection.
    pub origin: Origin,
    /// The octets of a message that is not whole.
    pub(crate) incoming: LinkIn,
    /// The deltas that came and were not heard yet, in their order.
    pub(crate) waiting: VecDeque<Heard>,
    /// The last digest that came and was not answered yet.
    pub(crate) asked: Option<Heard>,
    /// The number of the other end, where it has said it.
    pub(crate) other: Option<u8>,
    /// The gateways that the other end has said that it is linked with.
    pub(crate) linked: Vec<u8>,
    /// The same, with those that it was linked with before.
    pub(crate) ever: Vec<u8>,
    /// The gateways that this end has said that it is linked with.
    pub(crate) said: Vec<u8>,
    /// How often a link had come or gone when it said so.
    pub(crate) changes: u64,
    /// The place among the links of a `Relay`, once the other end has said its number.
    pub place: Option<u64>,
    /// This end has said its number.
    pub(crate) named: bool,
    /// The second in which it last did.
    pub(crate) spoke: u64,
    /// The second in which octets last came, or it was first listened.
    pub(crate) heard: Option<u64>,
    /// How often a read found nothing: before that, and since this end has last said its number.
    pub(crate) silence: u32,
    /// How often this end has said its number again since it last said its digest.
    pub(crate) repeats: u32,
    /// What came after it is no message.
    pub(crate) failed: bool,
    /// What is to go out, a message each.
    pub(crate) outgoing: VecDeque<Vec<u8>>,
    /// How many of them, from the first on, are the answer to a digest.
    pub(crate) answering: usize,
    /// How many octets the others have.
    pub(crate) behind: usize,
    /// How many octets of the first of them went out.
    pub(crate) written: usize,
    /// How often in turn the stream took none.
    pub(crate) stalls: u32,
    /// The stream takes no more. What has come is still heard, and then the link is at an end.
    pub(crate) mute: bool,
    /// This end has said its number and its digest.
    pub(crate) greeted: bool,
    /// The number of a call of the shift: the delta of each call up to it was told.
    pub told: u64,
    /// What was counted since the link was made.
    pub(crate) counts: LinkCounts,
}

impl<S: Drop> Drop for Link<S> {
    fn drop(self) {
        let Link {
            stream,
            origin: _,
            incoming,
            waiting,
            asked,
            other: _,
            linked,
            ever,
            said,
            changes: _,
            place: _,
            named: _,
            spoke: _,
            heard: _,
            silence: _,
            repeats: _,
            failed: _,
            outgoing,
            answering: _,
            behind: _,
            written: _,
            stalls: _,
            mute: _,
            greeted: _,
            told: _,
            counts: _,
        } = self;
        drop(stream);
        drop(incoming);
        drop(waiting);
        drop(asked);
        drop(linked);
        drop(ever);
        drop(said);
        drop(outgoing);
    }
}

impl<S: Drop> Link<S> {
    /// A link over which nothing was said.
    pub fn new(alloc: Global, stream: S, origin: Origin) -> Link<S> {
        Link {
            stream,
            origin,
            counts: no_counts(),
            incoming: LinkIn::new(),
            waiting: VecDeque::new(alloc),
            asked: None,
            other: None,
            linked: Vec::new(alloc),
            ever: Vec::new(alloc),
            said: Vec::new(alloc),
            changes: 0,
            place: None,
            named: false,
            spoke: 0,
            heard: None,
            silence: 0,
            repeats: 0,
            failed: false,
            outgoing: VecDeque::new(alloc),
            answering: 0,
            behind: 0,
            written: 0,
            stalls: 0,
            mute: false,
            greeted: false,
            told: 0,
        }
    }

    /// Whether all that was said went out.
    pub(crate) fn is_told(&self) -> bool {
        self.outgoing.is_empty()
    }

    /// A new shift numbers its calls from 1; what the last one made was told.
    pub fn begin_shift(&mut self)
        ensures origin { self.new.origin ≡ self.old.origin }
        ensures told { self.new.told ≡ 0 }
    {
        self.told = 0;
    }
}
