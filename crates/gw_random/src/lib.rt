//! A simulator that invents its failures.
//!
//! `random_run` makes scripts from a seed, plays each through the real thing (`gw_world::run`), and
//! checks at each step what the definitions say: a gateway shows the views of the set that it made
//! and took, and what that retains, and a message that waits goes away only by its acknowledgement.
//! Some calls come to a gateway together, with one write, which may fail as any other may.
//! Two gateways of three have a lifetime, so that messages expire: never early, and never late.
//! A script that shows something else is made short and is part of the report.
//!
//! - `draw`: numbers that look random.
//! - `drive`: what a gateway's journal must hold (`Drive`).
//! - `frames`: what clients send.
//! - `field`: the gateways of a script, and what they answer (`Field`).
//! - `invent`: a script from a seed (`Invention`).
//! - `listed`: which deltas there are, and who has them.
//! - `writing`: events as lines that the simulator reads.
//! - `copying`: equal events, and events with what each leaves shown.
//! - `seat`: what a gateway must show by the definitions (`Seat`).
//! - `row`: calls that come to a gateway together.
//! - `disk`: events at a gateway whose disk may fail.
//! - `moments`: when messages expire.
//! - `judge`: a run compared with the definitions (`Difference`).
//! - `exchange`: at the end gateways exchange what they have.
//! - `shorten`: a script that differs, made short.
//! - `report`: all of it (`random_run`, `Report`).
//! - `fault`: why there is no report.
#![tactic(auto)]

mod copying;
mod disk;
mod draw;
mod drive;
mod exchange;
mod fault;
mod field;
mod frames;
mod invent;
mod judge;
mod listed;
mod moments;
mod report;
mod row;
mod seat;
mod shorten;
mod writing;

pub use fault::RandomFault;
pub use report::{Found, Report, random_run};
