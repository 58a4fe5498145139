//! The topics of a field and of a broker: which topic of one is which of the other, and which
//! filters have no topic in common.
//!
//! A bridge puts a `Prefix` in front of a field's topic and publishes it at the broker, and takes a
//! `Prefix` away from a broker's topic. A field's topic is octets (MQTT-SN 1.2 section 5.3.11), a
//! broker's is UTF-8 (MQTT 3.1.1 section 4.7). So a topic that a broker would not take is written
//! in hexadecimal digits after `~`, and so is one that begins with `~`: no two topics become one.
//!
//! `apart` says whether two filters have no topic in common. A bridge that carries topics both ways
//! asks it, so that nothing comes back the way that it went. `apart_below` asks it of filters that
//! are put below a prefix. `asks_for` says whether a filter asks for a topic of any length.
#![tactic(auto)]

mod asking;
mod fault;
mod filters;
mod laws;
mod level;
mod prefix;

pub use asking::asks_for;
pub use fault::PrefixFault;
pub use filters::{apart, apart_below};
pub use laws::{mapped_apart, mapped_topic};
pub use prefix::{MAX_PREFIX, Prefix};
