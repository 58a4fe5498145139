//! What a step reads beside the frame, and of the client that is bound to where it comes from.

use rep_model::rep_ops::ClientId;
use rep_model::{ClientView, Replica};
use sn_local::{Addr, Config, Dialogs};
use sn_session::Session;

/// What a row of the step table reads beside its frame: the gateway's settings, what it has taken,
/// its local state, where the frame comes from, and when.
#[derive(Drop)]
pub struct Scene<'a, R: Replica> {
    /// What the gateway is told when it starts.
    pub config: &'a Config,
    /// What it has taken.
    pub replica: &'a R,
    /// What it knows beside that.
    pub dialogs: &'a Dialogs,
    /// Where the frame comes from, and its answers go to.
    pub from: Addr,
    /// The moment, in seconds.
    pub moment: u64,
}

/// The client that is bound to where the frame comes from.
#[derive(Clone, Copy)]
pub struct Bound<'a> {
    /// Its name.
    pub client: &'a ClientId,
    /// What the gateway sees of it.
    pub view: &'a ClientView,
    /// Its session; that of a client of which nothing is known, if it has none.
    pub session: &'a Session,
}
