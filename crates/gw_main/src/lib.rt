//! What the daemon is told when it starts.
//!
//! - `parsing`: the settings of a text in TOML (`settings`).
//! - `options`: what they hold (`Settings`).
//! - `fault`: why they are refused (`SettingsFault`), and at which key (`Key`).
//! - `keys`: what a document says of each key.
//! - `lists`: lists of addresses and of predefined topic ids.
//! - `addresses`: addresses as `a.b.c.d:port` (`address`).
//! - `patterns`: patterns of client ids, and who is let in (`lets_in`).
//! - `newcomers`: how many come in for the first time within a minute (`counted_in`, `may_come`).
//! - `levels`: levels of events.
//! - `number`: numbers in decimal digits.
//! - `beginning`: a gateway as its settings say, opened (`begin`).
//! - `tending`: what is done with it between two shifts (`tend`).
//! - `growing`: when that is due (`is_grown`), and how long a gateway waits that cannot write
//!   (`next_wait`).
//!
//! The definitions are in `specs/`: `Numbers`, `Addresses`, `Keys` (how keys are written),
//! `Patterns` (which client ids are let in), `Newcomers` (how many of them within a minute),
//! `Levels`, `Reading` (what a document says of each key, and which key is the first that it says
//! nothing good of), `Beginning` (what the gateway is told, and how a refused opening is),
//! `Tending` (what becomes of a gateway that is tended), `Growing` (when a journal is written
//! anew).
#![tactic(auto)]

mod addresses;
mod beginning;
mod fault;
mod growing;
mod keys;
mod levels;
mod lists;
mod newcomers;
mod number;
pub mod options;
mod parsing;
mod patterns;
mod tending;

pub use addresses::address;
pub use beginning::{NO_JOURNAL, begin, begin_fault_number};
pub use fault::{Key, SettingsFault};
pub use growing::{LEAST_GROWTH, LONGEST_TRY, changed_length, is_grown, next_try, next_wait};
pub use newcomers::{NEWCOMERS_SECONDS, counted_in, may_come};
pub use parsing::settings;
pub use patterns::{is_like, lets_in};
pub use tending::{Tended, tend};
