//! Whether two values of the field are equal: operations, deltas and views.
//!
//! No memory is taken. Each function answers true exactly where contracts see one value: whoever
//! owns it, and wherever it lies. Lists are compared by loops, since a delta may have some hundred
//! thousand operations.
//!
//! - `change`: changes of a session, and sessions.
//! - `delta`: operations and deltas.
//! - `view`: messages that wait, and views.
//!
//! `rep_model` is passed on, since types of it stand in ours.
#![tactic(auto)]

mod change;
mod delta;
mod view;

pub use change::{same_change, same_session};
pub use delta::{same_client, same_delta, same_deltas, same_retained, same_subject, same_topic};
pub use rep_model;
pub use view::{same_put, same_view};
