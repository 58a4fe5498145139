//! Octet strings and numbers as octets: what every format of the gateway is made of.
//!
//! `Octets` is an owned octet string that contracts see as a list of numbers. `number` reads and
//! appends numbers with the most significant octet first, as MQTT-SN 1.2 section 5 writes them.
//! `NoMemory` is want of memory. `MAX_CLIENT_ID` is how long a client's id may be: frames carry it,
//! and operations are kept under it.
//!
//! What decimal digits write is defined in `specs/` (`Decimal`); what `parse` makes of them is a
//! lemma in `proofs/` (`Digits`). Settings and scripts are read by both.
#![tactic(auto)]

mod client_id;
mod memory;
mod number;
mod octets_type;
mod sequence;

pub use client_id::MAX_CLIENT_ID;
pub use memory::NoMemory;
pub use number::{append_u16, append_u32, append_u64, read_u16, read_u32, read_u64};
pub use octets_type::Octets;
pub use sequence::Sequence;
