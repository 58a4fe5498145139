//! Laws of plans that stand beside the chain: nothing is built on them but the laws of a field's
//! own operations (`field_laws`).
//!
//! - `laws`: the operations of a plan are always well made, and no two stand under one name, at a
//!   gateway that keeps well; a gateway keeps well whatever it does and takes; and a client that is
//!   bound at it is its own, and up.
//!
//! The definitions are in `specs/KeepsWell.antt` and `specs/BoundUp.antt`. A draft's operations are
//! well made where it is sound (`proofs/Sound.antt`): that every row and everything that follows a
//! row is sound is proved there, row by row; and so is that each leaves a bound client up, or bound
//! no more (`proofs/BoundDrafts.antt`, `proofs/BoundRows.antt`).
#![tactic(auto)]

mod laws;

pub use laws::{bound_up, every_plan, keeps_well};
