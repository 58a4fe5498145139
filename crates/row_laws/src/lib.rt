//! Laws of plans and of the rows that need no other message: no gateway and no client is built on
//! them. A field (`gw_world`) is, and so the simulator.
//!
//! - `laws`: what holds of every plan, proved for every draft and so for every row.
//! - `request_laws`: what a client may rely on that registers a topic, subscribes or ends a
//!   subscription.
//!
//! Each function does nothing; its contract is a law. The definitions are those of `sn_plan`
//! (`Own`, `Flush`) and `specs/RequestLaws.antt`. A field's laws (`field_laws`) and those of steps
//! (`step_laws`) are proved from these.
#![tactic(auto)]

mod laws;
mod request_laws;

pub use laws::{
    adds_none, every_row, fresh_names, messages_wait, one_binding, only_acknowledged, own_names,
    reads_back, rows_make_no_message, stays_flush,
};
pub use request_laws::{
    given_id_stands, requests_keep_messages, subscribe_lasts, unsubscribe_ends,
};
