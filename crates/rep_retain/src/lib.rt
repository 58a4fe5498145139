//! What is retained of topics: of each the last.
//!
//! A table keeps of the operations that retain something one a topic: the one with the greatest
//! clock, and of gateways with one clock the greatest. It stands beside a replica of clients; both
//! together are a replica (`Whole`): a delta is in the order of names, and what is retained stands
//! last, so it is its clients' part, then its topics' part, and each goes to its own.
//!
//! - `table`: the table (`Topics`).
//! - `staged`: what is staged of it (`TopicsStaged`).
//! - `whole`: both together, and what is staged of them (`Whole`, `WholeStaged`).
//! - `holding`: what must be kept of both.
//! - `asides`: what lies aside of the topics, while several deltas wait for one write.
//!
//! The definitions are in `specs/`: `Tables` (a table), `Staging` (what is staged of it), `Refusals`
//! (why it takes no more), and `inner` (what a table becomes with operations). `proofs/Rows` has
//! small tables. That each reader of a set reads one of the two is proved in `rep_model`
//! (`proofs/Beside`); what follows for refusals is in `Refusing`, for what must be kept in `Held`,
//! for what is answered in `Telling`.
#![tactic(auto)]

mod asides;
mod holding;
mod staged;
mod table;
mod whole;

pub use staged::TopicsStaged;
pub use table::Topics;
pub use whole::{Whole, WholeStaged};
