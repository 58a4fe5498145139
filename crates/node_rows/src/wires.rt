//! Rows of settings, of serving, of a socket, of files, of links and of pages: what no clause says.
//!
//! Octets are hexadecimal digits in one word, and numbers may be larger than in other rows. A row
//! begins without settings, without a gateway and with nothing to come.
//!
//! Settings, and a gateway that is opened as they say:
//!
//! - `toml TEXT`: the text is one more line of the settings.
//! - `gateway NUMBER`: the settings are those four that a gateway must be told.
//! - `settings`: what they are, or why they are refused.
//! - `begin`: a gateway is opened on the disk in memory of the one before it, or on an empty one:
//!   what is printed, and the status.
//! - `fail`: the next write of its journal stops after five octets.
//! - `files OCTETS`: a gateway is opened on the two files of the settings, is given a datagram, and
//!   is closed.
//! - `lose NAME`: a file is taken away.
//!
//! The next serving; without these, two workers, 4,096 calls, and a post and a wire that do not
//! fail:
//!
//! - `workers COUNT`, `steps COUNT`: how many passes the shift has, 1 to 8; how many calls, 1 to
//!   4,096.
//! - `turns COUNT`: how many turns the reader has beside one for each thing that comes.
//! - `post fails`: no reply is sent.
//! - `hold FIRST SECOND`: the replies to the datagram of the first number wait until those of the
//!   second are out, but not longer than ten million turns.
//! - `datagram HOST MOMENT OCTETS`: a datagram comes, from port 1 of a host.
//! - `failure`: a receive fails.
//! - `over`: the wire is over: no more is to be received.
//!
//! Serving, in a shift of the gateway that is open, which goes on after it:
//!
//! - `serve`: serves what comes.
//! - `loopback FIRST SECOND`: serves a socket of this machine, to which somebody sends the first
//!   datagram and, after its answer, the second.
//!
//! Of serving is printed how it ended, with how many passes; for each datagram what was asked of
//! the outside, in its order, and how many things in all; what became of it, as its call stands in
//! the history (where serving ended early, the history); how many calls the closed shift has; and
//! the clients that the gateway knows. None of that depends on which thread was first.
//!
//! What happens when two gateways, 1 and 2, meet on empty disks, with a link that 1 dialled. If a
//! line names gateway 3, that one is there too, with a link that 2 dialled:
//!
//! - `ask GATEWAY HOST OCTETS`: a datagram comes to a gateway, from port 1 of a host.
//! - `talk GATEWAY`: its links talk in turn, each until nothing comes, and to the end of the shift.
//! - `last GATEWAY`: its links talk at the end of the shift, and read nothing.
//! - `sit GATEWAY`: its first link talks so at a seat; and then it is closed.
//! - `turn GATEWAY`: its shift is closed, and the next one begins.
//! - `takes GATEWAY COUNT`: its first stream takes so many octets at once, and at 0 no more.
//! - `idle GATEWAY COUNT`: so many reads of its first link find nothing before the one that ends its
//!   next `talk`.
//! - `come GATEWAY OCTETS`: octets come over its first link that the other end has not said.
//! - `meet`: plays these, in their order, in one thread.
//!
//! Printed are answers, each message that has gone out whole, and of those to gateway 3 that they
//! are, why a link stopped before the shift's end, whether 1 may dial again, and of a closed shift
//! the number of calls and the clients.
//!
//! The page of a gateway. The report is made up: its numbers count up, and each event is there once
//! (`reports`). After a `page` its clients are gone:
//!
//! - `client OCTETS`, `stranger OCTETS`: it has a client of this id, of which all is known, or
//!   nothing.
//! - `ill`: its clock is late, it is halted, and a write failed.
//! - `page METHOD PATH`: what is answered to `METHOD PATH HTTP/1.0` and an empty line, with `\r`
//!   for a carriage return; before it `may grow`, if further octets may change the answer.
//! - `request OCTETS`: the same to these octets.
//! - `entries`: each event, for the journal of the system.
//!
//! The files:
//!
//! - `row`: what the lines of a row have brought about (`Row`), and the play of one more.
//! - `options`: settings, and gateways that are opened.
//! - `wire`, `outside`: a wire that brings what the row says; a post and a gate that note what they
//!   are asked.
//! - `serving`: a shift is opened, served and closed.
//! - `loopback`: the same over sockets.
//! - `printing`: what is printed of that.
//! - `meeting`: gateways that meet.
//! - `pipe`: the stream between two of them.
//! - `requests`, `reports`: requests for the page of a gateway, and its report.

mod loopback;
mod meeting;
mod options;
mod outside;
mod pipe;
mod printing;
mod reports;
mod requests;
pub(crate) mod row;
mod serving;
mod wire;

use crate::page::Page;

/// A line of the settings' text.
pub(crate) fn add(page: &mut Page, row: &mut row::Row, line: &str) {
    options::add(page, &mut row.toml, line);
}
