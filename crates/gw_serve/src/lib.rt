//! Datagrams become calls of a shift: one reader, and a worker for each pass.
//!
//! The reader numbers what comes and puts it into a queue of 64, and reads nothing while that is
//! full. A datagram that finds it full all the same is dropped without a number. One worker at a
//! time takes numbers and makes their calls under the shift's lock, so that the calls come in the
//! order of the numbers; it sends the replies after that, while another worker's calls go on. It
//! takes all that waits, and one sync serves them; of no more numbers than there are workers it
//! takes one, so that each worker has one. At the end each number is accounted for: it became a
//! call, or it was left. How many there are the counts of the wire say.
//!
//! - `serving`: the whole (`serve`), and what it hands back (`Served`, `ServeFault`).
//! - `reader`: datagrams are numbered and put into the queue.
//! - `worker`: numbers are taken, and become calls or are left (`Taken`, `Cause`).
//! - `row`: the calls of the numbers that were taken at once, and their replies.
//! - `queue`: the queue and the rule over it.
//! - `bell`: how workers are woken that found the queue empty.
//! - `crowd`: how a worker waits a moment for those who were just answered.
//!
//! The definitions are in `specs/`: `Count` (lists of numbers, counted), `Queue` (the rule: what
//! was sent was taken, or is in the queue), `Serving` (what passes gain), `Intakes` (what the
//! reader took in), `Handling` (what becomes of a datagram), `Work` (a worker's place before and
//! after its work).
#![tactic(auto)]

mod bell;
mod crowd;
mod queue;
mod reader;
mod row;
mod serving;
mod worker;

pub use serving::{ServeFault, Served, serve};
pub use worker::{Cause, Taken};
