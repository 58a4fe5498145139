//! How much a step lets in.

/// How many messages may wait for a client before it is given no more.
pub const MAX_PENDING: usize = 1024;

/// How many topics may have something retained before no other topic is let in.
pub const MAX_TOPICS: usize = 1024;
