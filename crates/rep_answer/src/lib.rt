//! The answer that completes a digest.
//!
//! A gateway that was away sends its digest to a peer; the peer answers with the operations that it
//! must keep and that the digest does not cover. Whatever the gateway takes besides, before or
//! after, with the answer it keeps what it would keep had it taken all that the peer has
//! (`answer_completes`).
//!
//! - `cover`, `topic`: what a digest covers of clients, and of topics.
//! - `answering`: what it leaves of what a replica must keep, as deltas (`answer`).
//! - `laws`: that an answer completes; that what counts as a set has its digest, and gives its
//!   answers.
//!
//! The definitions are in `specs/`: `Answers` (what a digest covers, and what is left).
#![tactic(auto)]

mod answering;
mod cover;
mod laws;
mod topic;

pub use answering::answer;
pub use laws::{answer_completes, digest_laws};
