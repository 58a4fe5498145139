//! What a gateway does as time goes by: it advertises itself, ends will dialogs, gives clients up
//! that are silent, and sends again what is not answered (MQTT-SN 1.2 sections 6.1, 6.3, 6.11 and
//! 6.13). Messages whose moment is there need not wait any more: it acknowledges them.
//!
//! - `expiry`: which messages expire.
//! - `due`: what time asks for with a client.
//! - `ticking`: what a tick does (`tick`).
//! - `rest`: whether that is anything (`is_idle`).
#![tactic(auto)]

mod due;
mod expiry;
mod rest;
mod ticking;

pub use due::{Due, MAX_TRIES, RETRY_AFTER};
pub use expiry::FAR;
pub use rest::is_idle;
pub use ticking::{DIALOG_SECONDS, tick};
