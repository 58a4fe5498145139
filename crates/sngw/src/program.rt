//! What the threads of the program have from its begin to its end.

use crate::board::Shared;
use crate::lines::Said;
use file_disk::FileDisk;
use gw_link::{Stage, Work};
use gw_main::options::Settings;
use gw_node::Node;
use gw_shift::Shift;
use rep_state::Folded;
use std::alloc::Global;

/// The gateway of this program. What no answer needs it forgets, and its journal is in two files.
pub(crate) type Gateway = Node<Folded, FileDisk>;

/// A shift of that gateway.
pub(crate) type GatewayShift = Shift<Folded, FileDisk>;

/// What the threads of a shift of that gateway work with.
pub(crate) type GatewayWork<'a, T> = Work<'a, T, Folded, FileDisk>;

/// What the program was begun with.
#[derive(Drop)]
pub(crate) struct Task<'a, T> {
    /// By which threads wait for each other.
    pub(crate) rt: &'a T,
    /// The machine.
    pub(crate) host: &'a HostRuntime,
    /// The memory.
    pub(crate) alloc: Global,
    /// The settings.
    pub(crate) settings: &'a Settings,
    /// How many shifts it is to work.
    pub(crate) shifts: u64,
    /// The date at which the gateway was opened.
    pub(crate) today: u64,
    /// Where lines are printed.
    pub(crate) said: Said<'a>,
}

/// What the threads of the program have from its begin to its end. All of them share it. None holds
/// a lock of it for longer than one of its calls.
#[derive(Drop)]
pub(crate) struct Program<'a, T> {
    /// By which threads wait for each other.
    pub(crate) rt: &'a T,
    /// The machine.
    pub(crate) host: &'a HostRuntime,
    /// The memory.
    pub(crate) alloc: Global,
    /// The settings.
    pub(crate) settings: &'a Settings,
    /// The links, the gateway's clock, and what is counted.
    pub(crate) shared: &'a Shared,
    /// Whether the program's work is over: then it is `Quiet`.
    pub(crate) over: &'a Stage,
    /// Where lines are printed.
    pub(crate) said: Said<'a>,
}
