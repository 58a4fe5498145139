//! Links to other gateways, over streams; and what all threads of a shift share that make calls
//! beside the serving of datagrams.
//!
//! A link is a stream of octets, as of a TCP connection. Each end says its number, and once the
//! other has said its own, with whom it is linked and what it has; all again from time to time. It
//! answers a digest of the other end with what that end lacks. From then on it tells of each delta
//! that its gateway makes, and hands on what another link brought and what was new here. A link
//! outlives a shift: what came over it and was not heard yet waits for the next one.
//!
//! - `stage`: how far a shift is, and how its threads wait (`Stage`, `Phase`).
//! - `work`: what a thread of a shift works with (`Work`).
//! - `calling`: a call with a pass that comes back (`call`, `End`), and what a refusal of it means
//!   (`only_memory`, `is_halted`).
//! - `link`: a link that is open (`Link`, `Origin`).
//! - `saying`: what is said over a link.
//! - `relay`: what all links share: what is handed on, and who is linked (`Relay`).
//! - `counts`: what is counted of a link (`LinkNumbers`).
//! - `trouble`: what an operator should hear of (`Trouble`, `Report`).
//! - `outgoing`: how that goes out, while what comes is read.
//! - `hearing`: what has come over it.
//! - `talking`: a link during a shift (`talk`).
//!
//! The definitions are in `specs/`: `Adding` (what a thread adds to its pass: calls of its own kind
//! and nothing else), `Calling` (why a call may not reach the gateway, and which refusal says that
//! the gateway is halted), `Weights` (as how many octets an operation counts).
#![tactic(auto)]

mod calling;
mod counts;
mod hearing;
mod link;
mod outgoing;
mod relay;
mod saying;
mod stage;
mod talking;
mod trouble;
mod work;

pub use calling::{End, call, is_halted, only_memory};
pub use counts::{LinkCounts, LinkNumbers};
pub use link::{Link, Origin};
pub use relay::Relay;
pub use stage::{Phase, Stage};
pub use talking::talk;
pub use trouble::{Report, Trouble};
pub use work::Work;
