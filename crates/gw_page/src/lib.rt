//! The page on which an operator sees a running gateway: octets of a request in, octets of an
//! answer out.
//!
//! `page` answers any octets. There are five paths: `/metrics` for Prometheus, `/clients` and
//! `/log` for people, `/healthz` for machines, and `/`, a page that reads the four others. A report
//! goes in as plain data, and nothing is asked of a gateway.
//!
//! No octet of a stranger is on a page but in client ids. They are in hexadecimal digits, and
//! beside that as they are only if each octet is a letter, a digit or one of `_ . : -`.
//!
//! - `request`: what a request asks for.
//! - `answer`: the answer to it.
//! - `exposition`, `clients`, `logging`: the pages as text.
//! - `front`: the page at `/`.
//! - `laws`: of the numbers' text.
//!
//! The definitions are in `specs/`: `Requests`, `Answers` (`IsReply` is what `page` promises),
//! `Expositions`, `Clients`, `Logs` (the texts), `Lines` (what a line of the numbers may be),
//! `Texts` (words of texts).
#![tactic(auto)]

mod answer;
mod clients;
mod exposition;
mod front;
mod laws;
mod logging;
mod request;

pub use answer::{Status, page};
pub use front::FRONT;
pub use laws::{all_names, only_numbers};
pub use logging::entry;
pub use request::{Asked, MOST_FIELDS, MOST_OCTETS, Method, Target, may_grow, read_request};
