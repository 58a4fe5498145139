//! Digests, and answers to them.

use crate::refusals::calls::{Calls, Made, Shown, beside, front, given, is_word, written};
use crate::refusals::replicas::{new, replica_with};
use crate::refusals::said::Said;
use rep_answer::answer;
use rep_digest::{Digest, digest_of};
use rep_model::Replica;
use rep_ops::OpsFault;

/// A replica, a digest that is answered, read and written, and its octets.
pub(crate) struct Digests<R: Replica> {
    replica: R,
    digest: Digest,
    octets: Vec<u8>,
    out: Vec<u8>,
}

impl<R: Replica> Drop for Digests<R> {
    fn drop(self) {
        let Digests {
            replica,
            digest,
            octets,
            out,
        } = self;
        drop(replica);
        drop(digest);
        drop(octets);
        drop(out);
    }
}

impl<R: Replica> Made for Digests<R> {
    fn make(said: &mut Said, call: &str, is_second: bool) -> Option<Digests<R>> {
        let is_answer = is_word(call, "answer");
        let is_small = is_answer || (is_word(call, "digest_of") && !is_second);
        match replica_with::<R>(said, !is_small) {
            Some(replica) => digests_of(said, replica, is_answer && !is_second),
            None => None,
        }
    }
}

/// A replica with its digest, or with that of one that has taken nothing.
fn digests_of<R: Replica>(said: &mut Said, replica: R, is_of_none: bool) -> Option<Digests<R>> {
    match some_digest(said, &replica, is_of_none) {
        Some(digest) => Some(Digests {
            replica,
            octets: octets_of(said, &digest),
            digest,
            out: front(said),
        }),
        None => {
            drop(replica);
            None
        }
    }
}

/// The digest of a replica, or of one that has taken nothing.
fn some_digest<R: Replica>(said: &mut Said, replica: &R, is_of_none: bool) -> Option<Digest> {
    if is_of_none {
        digest_of_none::<R>(said)
    } else {
        digest(said, replica)
    }
}

impl<R: Replica> Calls for Digests<R> {
    fn call_once(&mut self, said: &mut Said, call: &str) {
        match call {
            "answer" => {
                let deltas = answer(said.alloc, &self.replica, &self.digest);
                given(said, deltas, OpsFault::Memory);
            }
            "Digest::encode" => self.write(said),
            call => {
                let digest = self.made(said, call);
                given(said, digest, OpsFault::Memory);
            }
        }
    }
}

impl<R: Replica> Digests<R> {
    /// The digest of the replica, or the digest that is read.
    fn made(&self, said: &mut Said, call: &str) -> Result<Digest, OpsFault> {
        if is_word(call, "digest_of") {
            digest_of(said.alloc, &self.replica)
        } else {
            Digest::decode(said.alloc, self.octets.as_slice())
        }
    }

    /// Writes the digest.
    fn write(&mut self, said: &mut Said) {
        let done = self.digest.encode(said.alloc, &mut self.out);
        if written(said, done, OpsFault::Memory, self.out.as_slice()) {
            said.octets(self.out.as_slice());
        }
    }
}

/// The digest of a replica that has taken nothing.
fn digest_of_none<R: Replica>(said: &mut Said) -> Option<Digest> {
    match new::<R>(said) {
        Some(replica) => {
            let made = digest(said, &replica);
            drop(replica);
            made
        }
        None => None,
    }
}

/// The digest of a replica.
fn digest<R: Replica>(said: &mut Said, replica: &R) -> Option<Digest> {
    let made = digest_of(said.alloc, replica);
    beside(said, made)
}

/// The octets of a digest.
fn octets_of(said: &mut Said, digest: &Digest) -> Vec<u8> {
    let mut octets = Vec::new(said.alloc);
    let is_short = digest.append_to(&mut octets).is_err();
    said.stop_if_short(is_short);
    octets
}

impl Shown for Digest {
    fn show(&self, said: &mut Said) {
        let octets = octets_of(said, self);
        said.octets(octets.as_slice());
        drop(octets);
    }
}
