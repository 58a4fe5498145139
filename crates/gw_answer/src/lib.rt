//! A call of a gateway as a value, and what it answers.
//!
//! What a call answers (`Answer`) is shared and not copied: the caller, a history and a printer may
//! each hold a share of one answer. Shares are taken before the journal is written, so that nothing
//! after the write can want memory. Contracts see an answer's value, whoever has a share of it
//! (`said`, `refusal_of_fault`).
//!
//! - `step`: a call, with its arguments (`Step`).
//! - `out`: what is answered (`Out`).
//! - `fault`: why a gateway refuses (`NodeFault`), with the number of each fault.
//! - `shares`: three shares of an answer, and three copies of what a refusal is about (`Shares`,
//!   `Subjects`).
//! - `refusal`: a refusal with such shares (`Refusal`), and an answer out of them, once or three
//!   times.
//! - `same`, `same_out`: whether two calls, or two answers, are equal (`same_step`, `same_answer`).
//!
//! The definitions are in `specs/Answers`.
#![tactic(auto)]

mod fault;
mod out;
mod refusal;
mod same;
mod same_out;
mod shares;
mod step;

pub use fault::NodeFault;
pub use out::Out;
pub use refusal::{Answer, Refusal, one_share, three_shares};
pub use same::{same_answer, same_step};
pub use shares::{Shares, Subjects};
pub use step::Step;
