//! What a node answers.

ghost use Rattle.std.specs.Prelude.{◌≡◌, Some, []};
ghost use Rattle.gw_answer.specs.Answers.{only_sends};

use octets::Sequence;
use rep_digest::Digest;
use rep_ops::Delta;
use rep_same::rep_model::ClientView;
use sn_local::Send;
use std::alloc::Global;
use std::fmt;

/// What a node answers to a call.
pub struct Out {
    /// The datagrams to be sent, in their order.
    pub sends: Sequence<Send>,
    /// The delta that was made, if operations were made.
    pub made: Option<Delta>,
    /// The deltas that answer the digest of another gateway.
    pub answer: Sequence<Delta>,
    /// The digest that was asked for.
    pub digest: Option<Digest>,
    /// The view that was asked for, where the client is known.
    pub view: Option<ClientView>,
}

impl Drop for Out {
    fn drop(self) {
        let Out {
            sends,
            made,
            answer,
            digest,
            view,
        } = self;
        drop(sends);
        drop(made);
        drop(answer);
        drop(digest);
        drop(view);
    }
}

impl fmt::Debug for Out {
    /// A fault may hold an answer, and so must be able to show it; it shows the name alone.
    fn fmt<W: fmt::Write>(&self, f: &mut fmt::Formatter<W>) -> fmt::Result {
        f.write_str("Out { .. }")
    }
}

impl Out {
    /// An answer that sends these datagrams and says nothing else.
    pub fn of_sends(alloc: Global, sends: Sequence<Send>) -> Out
        ensures { result ≡ only_sends sends }
    {
        Out {
            sends,
            made: None,
            answer: Sequence::empty(alloc),
            digest: None,
            view: None,
        }
    }

    /// An answer that sends these datagrams and tells of the delta that was made.
    pub fn of_plan(alloc: Global, sends: Sequence<Send>, delta: Delta) -> Out
        ensures { result ≡ record (only_sends sends) { made = Some delta } }
    {
        Out {
            sends,
            made: Some(delta),
            answer: Sequence::empty(alloc),
            digest: None,
            view: None,
        }
    }

    /// An answer that shows a view.
    pub fn of_view(alloc: Global, view: Option<ClientView>) -> Out
        ensures { result ≡ record (only_sends []) { view = view } }
    {
        Out {
            sends: Sequence::empty(alloc),
            made: None,
            answer: Sequence::empty(alloc),
            digest: None,
            view,
        }
    }

    /// An answer that gives a digest.
    pub fn of_digest(alloc: Global, digest: Digest) -> Out
        ensures { result ≡ record (only_sends []) { digest = Some digest } }
    {
        Out {
            sends: Sequence::empty(alloc),
            made: None,
            answer: Sequence::empty(alloc),
            digest: Some(digest),
            view: None,
        }
    }

    /// An answer that gives deltas.
    pub fn of_answer(alloc: Global, deltas: Vec<Delta>) -> Out
        ensures { result ≡ record (only_sends []) { answer = deltas.items } }
    {
        Out {
            sends: Sequence::empty(alloc),
            made: None,
            answer: Sequence::new(deltas),
            digest: None,
            view: None,
        }
    }
}
