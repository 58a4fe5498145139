//! Where datagrams come from and where replies go.
//!
//! - `traits`: what a gateway asks of the outside (`Wire`, `Post`, `Gate`), and what a receive
//!   brings (`Came`).
//! - `udp`: a wire and a post over one UDP socket (`Socket`, with `UdpReceiver` and `UdpSender`).
//! - `clock`: the clock of a field, which stands still while its gateway does, with its moments
//!   (`FieldClock`), and the date of the machine.
//! - `outage`: while nothing can be sent, no time passes either (`Outage`).
//!
//! The definitions are in `specs/`: `Addresses` (addresses as the system has them), `Arrivals`
//! (how many datagrams a receive brought), `Clock` (what a look at the clock finds) and `Outages`
//! (how long nothing is sent).
//!
//! What comes over a socket and whether a datagram arrives is not said by any contract; what is
//! proved is that a receive that fails raises the wire's count of failures by one, that no other
//! changes it, that each datagram that is handed out is counted, and each that is dropped, and that
//! a datagram lies within the buffer.
#![tactic(auto)]

mod clock;
mod outage;
mod traits;
mod udp;

pub use clock::{
    FIRST_DATE, FieldClock, LARGEST_DRIFT, LONGEST_BREATH, Look, date, is_astray, is_date,
    look_after, millisecond, second, stood_still,
};
pub use outage::{LONGEST_OUTAGE, OUTAGE_LINE_PAUSE, Outage, is_long, is_outage};
pub use traits::{Arrival, Came, Gate, OpenGate, Post, Tally, Unsent, Wire, WireFault};
pub use udp::{Socket, UdpReceiver, UdpSender, address};
