//! What a gateway puts, for whom, and until when, what its yes to a publisher means, what it
//! retains, what it hands to a client that subscribes, and why it acknowledges a message: no gateway
//! is built on these laws.
//!
//! The functions of `laws` and `causes` do nothing; their contracts are laws, proved for every row
//! of the step table, for what follows a row, and for every tick. The definitions are in
//! `specs/Puts.antt`, `specs/Retained.antt` and `specs/Causes.antt`; who is a recipient, and at
//! which quality of service, is defined in the crate `sn_publish` (`Recipients`), what a subscriber
//! is handed in `sn_subscribe` (`Handing`), and the moment of a message in `sn_local` (`Lifetimes`).
#![tactic(auto)]

mod causes;
mod laws;

pub use causes::acknowledged_for_cause;
pub use laws::{accepted_is_put, moments, retained_is_handed};
