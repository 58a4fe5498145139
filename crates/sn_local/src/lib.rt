//! What a gateway knows beside the set: which address is which client, from which addresses a will
//! is awaited, and when which client was heard of (MQTT-SN 1.2 section 6).
//!
//! - `config`: what a gateway is told (`Config`), addresses (`Addr`), what is sent (`Send`).
//! - `local`: the gateway's local state (`Dialogs`), and how it may change (`LocalChange`).
//!   `bindings`, `will_dialogs`, `timers` are its three lists, `changes` carries changes out, and
//!   `copies` makes equal lists.
//! - `lifetime`: how long messages wait (`expires_at`).
//! - `fault`: why a step has no plan.
//!
//! The definitions are in `specs/`: `Bindings`, `WillDialogs`, `Timers` (the lists), `Locals` (all
//! of it), `Advertising` (when a gateway advertised itself last), `Lifetimes` (how long messages
//! wait), `Seen` (what a step reads of a set of operations), `Faults`.
//!
//! `rep_model` is passed on, since types of it stand in ours.
#![tactic(auto)]

mod bindings;
mod changes;
mod config;
mod copies;
mod fault;
mod lifetime;
mod local;
mod timers;
mod will_dialogs;

pub use bindings::{is_owned, is_stamp_of};
pub use config::{Addr, Config, Send};
pub use fault::StepFault;
pub use lifetime::expires_at;
pub use local::{Awaited, Binding, Dialogs, LocalChange, Request, Timer, WillDialog};
pub use rep_model;
pub use will_dialogs::MAX_DIALOGS;
