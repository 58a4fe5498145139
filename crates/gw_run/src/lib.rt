//! What runs beside the serving of datagrams: the clock's ticks, and the seats at which links to
//! other gateways talk.
//!
//! - `ticking`: the ticks of a shift, and the opening anew of a gateway that is halted
//!   (`tick_all`).
//! - `pool`: what outlives a shift, the links that wait for a seat and the second of the last tick
//!   (`Pool`).
//! - `listening`: whether a gateway that was started listens, and does not serve yet (`Listening`).
//! - `seat`: a seat for links, with its pass (`Seat`, `sit`).
//!
//! What is said over a link, and how a call is made, stands in `gw_link`.
//!
//! The definitions are in `specs/`: `Clock` (what the clock's thread adds to its pass, and why it
//! ended).
#![tactic(auto)]

mod listening;
mod pool;
mod seat;
mod ticking;

pub use listening::Listening;
pub use pool::{MOST_ACCEPTED, Pool};
pub use seat::{Seat, sit};
pub use ticking::tick_all;
