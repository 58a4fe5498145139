//! A client is told the id of a topic, subscribes, and ends a subscription (MQTT-SN 1.2 sections
//! 6.5, 6.9 and 6.10).
//!
//! Rows of the step table, as those of `sn_flow` are.
//!
//! - `topic_rows`: REGISTER, SUBSCRIBE and UNSUBSCRIBE of a bound client, as rows.
//! - `registration`, `subscription`: as drafts.
//! - `handing`: what a subscriber is handed of what is retained.
//! - `drafting`: drafts that are written in one go.
#![tactic(auto)]

mod drafting;
mod handing;
mod registration;
mod subscription;
mod topic_rows;

pub use registration::NamedId;
pub use subscription::Asking;
pub use topic_rows::{register, subscribe, unsubscribe};
