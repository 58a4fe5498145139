//! What a row of the step table may say, and the plan that it becomes.
//!
//! A *row* says what changes, as a draft: session changes of one client, acknowledgements, what the
//! client is handed of what is retained, what is retained from now on, puts, frames, local changes;
//! and what follows it. *Numbering* turns the draft into operations under names of the gateway's
//! own. The *plan* is the result: operations, frames to send, local changes. Nothing of it is done
//! here: who carries it out keeps the operations before a frame is sent.
//!
//! - `scene`: what a row reads beside its frame (`Scene`), and of the client that is bound (`Bound`).
//! - `draft`, `row`: what a row says (`Draft`, `Row`); `bound`: of a client that is bound.
//! - `numbering`, `plan`: from a draft to a plan (`Plan`).
//! - `asking`, `codes`: what requests ask for, and how they are answered; `limits`: how much is let
//!   in.
//! - `others`: frames that no other row is for, and which clients are there.
#![tactic(auto)]

mod asking;
mod bound;
mod codes;
mod draft;
mod limits;
mod numbering;
mod others;
mod plan;
mod row;
mod scene;

pub use asking::{Asked, id_in, name_asked, qos_asked, retain_asked, topics_asked};
pub use bound::{bind_to, hear_of, session_in, session_or, unseen, view_or};
pub use codes::{ACCEPTED, CONGESTION, INVALID_ID, NOT_SUPPORTED};
pub use draft::{Draft, NewPut, Posted, finished};
pub use limits::{MAX_PENDING, MAX_TOPICS};
pub use numbering::apply;
pub use others::{can_wake, is_up, other};
pub use plan::{Plan, plan_of, plan_of_puts, plan_without};
pub use row::{
    Follow, Row, bound_row, empty_row, lasting_row, plan_of_row, row_with_timer, turn_away,
    unexpected_row,
};
pub use scene::{Bound, Scene};
