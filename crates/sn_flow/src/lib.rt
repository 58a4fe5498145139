//! A client connects, says its will and leaves (MQTT-SN 1.2 sections 6.2, 6.3, 6.4 and 6.12).
//!
//! A step reads the view of a set of operations and the gateway's local state (`sn_local`), and
//! works out what to do in three moves: a *row* of the step table says what changes, as a draft;
//! *numbering* turns the draft into operations; the *plan* is the result (`sn_plan`). Here are the
//! rows of connections and wills; those of topics are in `sn_subscribe`. What follows a row is in
//! `sn_exchange`, and the table as a whole in `sn_deliver`.
//!
//! - `connection`: CONNECT and DISCONNECT; `accept`: what an accepted connection makes of the
//!   session.
//! - `wills`: WILLTOPIC and WILLMSG, which a CONNECT asked for.
//! - `will_update`: WILLTOPICUPD and WILLMSGUPD of a bound client, as drafts.
#![tactic(auto)]

mod accept;
mod connection;
mod will_update;
mod wills;

pub use accept::{GivenWill, MAX_CLIENTS};
pub use connection::{connect, disconnect};
pub use wills::{will_msg, will_msg_update, will_topic, will_topic_update};
