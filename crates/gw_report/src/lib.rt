//! What is reported of a running gateway, as plain data.
//!
//! Whoever runs a gateway fills a `Report`; who shows it needs nothing else. A report has no text:
//! names, help and labels are words of this crate. The only octets of strangers are client ids.
//!
//! - `count`: the numbers that a gateway shows, with their words (`Single`, `Column`, `Count`).
//! - `label`: what tells numbers of one name apart.
//! - `numbers`: all numbers of a report.
//! - `glimpse`: a client at a glance.
//! - `event`: what an operator may want to hear of.
//! - `report`: all of it, and whether the gateway is well.
//!
//! The definitions are in `specs/`: `Words` (names and help), `Labels`, `Numbers` (which number has
//! which name), `Events` (levels).
#![tactic(auto)]

mod count;
mod event;
mod glimpse;
mod label;
mod numbers;
mod report;

pub use count::{Column, Count, Kind, Single};
pub use event::{Alarm, Detail, Event, Level, Note, Warning, What};
pub use glimpse::{First, Glimpse, LocalGlimpse, Seen, SessionGlimpse};
pub use label::{
    ANSWER_COUNT, ANSWERS, CallAnswer, CallKind, DeltaFault, KIND_COUNT, KINDS, Label, Place,
    frame_word, presence_word,
};
pub use numbers::{COLUMN_COUNT, COLUMNS, Link, Numbers, SINGLE_COUNT, SINGLES, Sample, Singles};
pub use report::{Health, Report};
