//! A field of gateways, run from a script.
//!
//! `play` reads a script, runs it and writes what each gateway answered. Nothing is written before
//! the whole script was read and run: a bad line is written alone, and so is a refused run. What a
//! script says is in `gw_script`.
//!
//! - `reading`: where a script comes from, and how often it is read (`Source`, `read_all`).
//! - `printing`, `session_lines`, `text`: answers as text.
//! - `playing`: all of it, up to the exit status.
//! - `replica`: what the gateways keep their operations in.
//!
//! The definitions are in `specs/`: `Printing`, `Sessions`, `Texts` (what is written), `Playing`
//! (what is written for a script).
#![tactic(auto)]

mod playing;
mod printing;
mod reading;
mod replica;
mod session_lines;
mod text;

pub use playing::{play, play_with};
pub use reading::{Counted, MAX_READS, ReadFault, Source, read_all};
pub use replica::Held;
