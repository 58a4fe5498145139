//! Laws of deliveries, of publications and of time: no gateway and no client is built on them. A
//! field (`gw_world`) is, and so the simulator.
//!
//! Each function of `laws` does nothing; its contract is a law, proved for all sessions and
//! messages. The definitions are in `specs/`: `Laws`, and `Ticks` (ticks of one moment, one after
//! the other).
#![tactic(auto)]

mod laws;

pub use laws::{
    delivery_keeps, every_step, expiry_settles, idle_lasts, one_exchange, puts_once,
    resent_with_dup, tick_is_quiet, tick_settles, ticks_end,
};
