//! Laws of sets of operations that stand beside the chain: nothing is built on them.
//!
//! - `laws`: sets that must keep the same are one, and those are ordered as parts and wholes are;
//!   what stands above a gap is counted by ranges as it would be one by one.
//!
//! The definitions are in `specs/`: `Joins` (the least set above two), `Exceptions`
//! (acknowledgements above a gap, counted one by one). `proofs/Examples.antt` has worked rows.
#![tactic(auto)]

mod laws;

pub use laws::{gap_laws, one_element, set_joins, set_order};
