//! The session of a client: what a gateway knows of it, and the operations that change it.
//!
//! A session is never sent about as it stands. Gateways exchange *operations* (`SessionOp`), and
//! each gateway reads the session off the operations that it has: a Take holds a whole session, and
//! the others change it one by one (`Session::apply`).
//!
//! - `session`: the session, and what is asked of it (`Session`). Its tables are in `sn_tables`.
//! - `change`: the operations, and what each makes of a session (`SessionOp`, `Session::apply`).
//! - `presence`: where the client is.
//! - `message`: what is published.
//! - `will`: the will and what is said of it.
//! - `outbound`: the exchange by which a message is handed to the client.
//!
//! `octets` and `sn_tables` are passed on, since types of them stand in ours.
#![tactic(auto)]

mod change;
mod message;
mod outbound;
mod presence;
mod session;
mod will;

pub use change::SessionOp;
pub use message::{MAX_MESSAGE, Message};
pub use octets;
pub use outbound::{Outbound, Phase};
pub use presence::Presence;
pub use session::Session;
pub use sn_tables;
pub use will::{Will, WillTopic};
