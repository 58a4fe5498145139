//! What gateways say to one another over a link.

use rep_digest::Digest;
use rep_ops::Delta;

/// What gateways say to one another over a link. A message is spelled as one octet of kind, four
/// octets with the length of its body, and the body.
#[derive(Drop)]
pub enum LinkMessage {
    /// Kind 1: the number of the gateway at this end. Its body is one octet.
    Hello(u8),
    /// Kind 2: what the gateway has taken.
    Digest(Digest),
    /// Kind 3: operations.
    Delta(Delta),
}
