//! What the gateways keep their operations in.

/// The replica that a field is run with.
pub type Held = rep_state::Folded;
