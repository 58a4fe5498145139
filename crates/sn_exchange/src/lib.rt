//! A message goes out to a client, and again where it is not answered (MQTT-SN 1.2 sections 6.6 and
//! 6.13).
//!
//! - `form`: how a message's topic is written to a client.
//! - `exchange`: the exchange by which it is handed over, and what is left to hand over.
//! - `delivery`, `resend`: what is sent, and sent again; `peer`: to whom.
//! - `follow`: which of these follows a row of the step table, and the plan of both.
#![tactic(auto)]

mod delivery;
mod exchange;
mod follow;
mod form;
mod peer;
mod resend;

pub use delivery::{ToldId, deliver_if, deliver_left, send, then_deliver};
pub use exchange::{
    is_awake, is_done, is_left, is_served, message_of, open_exchange, put_left, put_named,
    session_after,
};
pub use follow::{deliver_next, peer_at, visited};
pub use form::{Form, form_again, form_of, publication};
pub use peer::{Peer, Visit};
pub use resend::then_resend;
