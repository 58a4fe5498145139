//! What a script says: gateways, and then what happens to them.
//!
//! A script is a text of lines. Each line is empty, spells one command, or says that calls come to a
//! gateway together; each of these calls has one of the next lines. `parse` reads all lines, or
//! tells the first that cannot stand where it stands.
//!
//! - `number`, `bytes`: fields of a line.
//! - `command`: what a line says (`Command`).
//! - `rows`: lines of calls that come together.
//! - `script`: what the lines say together (`Script`, `parse`).
//! - `fault`: why a line (`LineFault`), or a script (`ScriptFault`), is refused.
//!
//! The definitions are in `specs/`: `Commands`, `Octets`, `Rows` (lines), `Scripts` (all lines, and
//! the first bad one); what digits write is `Decimal` of `octets`. Lemmas are in `proofs/`: `Lines`
//! (a line is read in one way), `Together` (lines of calls that come together), `Growth` (how a
//! script grows line by line).
#![tactic(auto)]

mod bytes;
mod command;
mod fault;
mod number;
mod rows;
mod script;

pub use command::Command;
pub use fault::{LineFault, ScriptFault};
pub use script::{Script, parse};
