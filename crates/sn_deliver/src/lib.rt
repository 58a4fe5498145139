//! The step table: what a gateway does when a frame comes in (MQTT-SN 1.2 section 6).
//!
//! The rows of connections are those of `sn_flow`, of topics those of `sn_subscribe`, of
//! publications those of `sn_publish`; what goes out to a client, and again, and what follows a
//! row, is in `sn_exchange`. Here are the others, and the table as a whole. What a gateway does as
//! time goes by is in `sn_tick`.
//!
//! - `waking`: a client comes back from sleep, here or from another gateway.
//! - `acknowledging`: a client answers a message; `serve`: publications and answers as rows.
//! - `table`: the row of each frame (`step`).
#![tactic(auto)]

mod acknowledging;
mod serve;
mod table;
mod waking;

pub use acknowledging::acknowledge;
pub use serve::{ack_in, publish_in, pubrel_in};
pub use table::step;
pub use waking::wake;
