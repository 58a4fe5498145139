//! The packets of an MQTT connection, whose octets come in pieces.
//!
//! `PacketIn` takes each piece and gives the packets that are whole then. What a stream says does
//! not depend on how it is cut (`one_stream`). A packet that says more octets than `MAX_HELD` after
//! Remaining Length is read as if it ended there, and what follows is passed over as it comes: so a
//! packet of 268,435,455 octets takes no more room than one of `MAX_HELD`. A publication that is
//! cut so still has more octets than a message in the field may have.
//!
//! specs/ has the definitions: `Pieces` says what is read of a stream.
#![tactic(auto)]

mod front;
mod laws;
mod stream;

pub use front::MAX_HELD;
pub use laws::one_stream;
pub use stream::{Fed, PacketIn};
