//! What a gateway hands on over its links, and to whom: rules without a thread, and their law.
//!
//! A gateway tells each link of what it made itself. What another gateway told it, it hands on
//! where that was new here, so that a field works which is connected and not linked in every pair.
//!
//! - `name`: the name of an operation, without what it says (`Name`).
//! - `news`: whether a delta has an operation that is not known yet (`brings_news`), or one that
//!   its own gateway has lost (`is_lost`).
//! - `going`: to which link it goes on (`goes_on`), and who may be linked (`may_link`).
//! - `pausing`: how long is waited: for an answer to a digest (`may_answer`), for a word
//!   (`is_quiet`, `is_gone`), for a dial (`next_pause`), for a line (`is_to_tell`), before a start
//!   serves (`may_serve`), for what clients have sent (`is_behind`); and which link ends another
//!   (`replaces`).
//! - `sizes`: how an answer is cut (`fits`), and how much a shift keeps (`is_much`).
//! - `laws`: in a connected field whose links stay up a delta reaches every gateway.
//!
//! The definitions are in `specs/`: `News` (what is known of operations), `Going` (to whom a delta
//! goes on, and who may be linked), `Pausing` (how long is waited), `Sizes` (how much is said at
//! once, and kept), `Fields` (links, and how a delta comes from one gateway to another).
#![tactic(auto)]

mod going;
mod laws;
mod name;
mod news;
mod pausing;
mod sizes;

pub use going::{goes_on, may_link};
pub use laws::reaches_all;
pub use name::{Name, name_of};
pub use news::{brings_news, brings_unnoted, is_covered, is_lost, is_noted, is_op_known};
pub use pausing::{
    ANSWER_PAUSE, GONE_TIME, LINE_PAUSE, LONGEST_BACKLOG, LONGEST_LISTENING, LONGEST_PAUSE,
    QUIET_MOMENT, QUIET_TIME, is_behind, is_gone, is_quiet, is_to_tell, may_answer, may_serve,
    next_pause, replaces,
};
pub use sizes::{MOST_KEPT, PIECE, fits, is_much};
