//! What both replicas stand on: the one that keeps every operation, and the one that forgets.
//!
//! Both hold the operations of many clients, and say of each what its own operations say. What
//! that means is here, as clients with their operations in *rows*: all rows as one set, the rows
//! once fresh ones are in their places, and that nothing is read of a client but its own row. Three
//! steps are code that both run: a range among others, numbers above a gap, and a session after one
//! more operation.
//!
//! - `client_set`: what a replica of the operations of clients promises (`ClientSet`).
//! - `ranges`: numbers as ranges (`with_range`, `above_gap`).
//! - `replay`: session operations in order, those that wait, and what one of them makes of a
//!   session (`operations_in_order`, `count_parked`, `changed`).
//!
//! The definitions are in `specs/`: `Rows` (clients with their operations, and what a move makes of
//! them) and `Steps` (which session operations wait, and how far is counted). Lemmas are in
//! `proofs/`: of lists in order `Places`, `Maps`, `Found`, `Counting`; of rows as one set `Single`,
//! `Flat`, `Kept`, `Walks`; of session operations `Entering`, `Workings`; `Numbers`.
#![tactic(auto)]

mod client_set;
mod ranges;
mod replay;

pub use client_set::ClientSet;
pub use ranges::{above_gap, with_range};
pub use replay::{changed, count_parked, operations_in_order};
