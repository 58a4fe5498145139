//! What a bridge between a field and an MQTT broker does, as a machine without sockets, files and
//! threads: what comes from both sides goes in (`Event`), and what is to be sent comes out
//! (`Action`).
//!
//! What was taken from one side is acknowledged there only after the other side has acknowledged
//! it, or after a line of what no side will have is on the disk. If the settings say so, readings
//! also go into a spool, which the program keeps: then its sync is enough for an acknowledgement.
//!
//! `begun` makes a `Bridge` of `Settings`, and `step` takes an `Event` at a `Moment`: what is to be
//! done is in `out` then. A bridge that stops may begin anew at any time: nothing that was
//! acknowledged is lost, since both sides send again what was not, and `Found` brings what the
//! spool has.
//!
//! specs/ has the machine: `Sides` what is done towards the broker; `Lanes` what a lane does, which
//! brings readings from its gateway; `Commands` the way of a command into the field; `Steps` the
//! step of the whole, which `step` computes; `Runs` what must hold of every list of events. `laws`
//! says that it does.
#![tactic(auto)]

mod action;
mod commands;
mod event;
mod item;
mod lanes;
mod laws;
mod queue;
mod settings;
mod sides;
mod state;
mod steps;

pub use action::{Action, Why};
pub use event::Event;
pub use item::{Command, Flight, Item};
pub use laws::{acknowledges_behind, finds_again, keeps_order, nothing_drops, takes_in};
pub use queue::Queue;
pub use settings::{DownFilter, LaneSettings, Settings, UpName};
pub use state::{
    BROKER_KEEP_ALIVE, Bridge, Doing, Down, KEEP_ALIVE, LAST_NUMBER, Lane, MAX_BODY, MAX_COMMANDS,
    MAX_IDS, MAX_NAMES, MAX_WAITING, Moment, Named, NamedTopic, Open, PING, Phase, RETRY, SLEEP,
    Side, TRIES,
};
pub use steps::{begun, step};
