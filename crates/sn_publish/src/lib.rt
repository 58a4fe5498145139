//! A publication comes in, and who gets it (MQTT-SN 1.2 section 6.6).
//!
//! - `meaning`: which topic it has.
//! - `recipients`: for whom it is put.
//! - `retaining`: what is retained of it, for those who subscribe later.
//! - `publishing`: its row, as a draft.
#![tactic(auto)]

mod meaning;
mod publishing;
mod recipients;
mod retaining;

pub use meaning::{Meant, topic_meant};
pub use publishing::{Publication, publish, publish_unconnected, pubrel};
pub use recipients::{puts_for, puts_of_will};
pub use retaining::{retained_of, retained_of_will};
