//! A link from which octets come in pieces.

ghost use Rattle.std.specs.Prelude.{◌≡◌, ◌⊎◌, ◌↔◌, ◌-◌, ◌≤◌, ◌++◌, true, length, drop, Err, IfOk, IfErr, OnErr};
ghost use Rattle.gw_net.specs.Streams.{IsRead};

use super::fault::LinkFault;
use super::framing::front;
use super::message::LinkMessage;
use octets::NoMemory;
use std::alloc::Global;
use std::marker::Model;

/// What a piece gave.
#[derive(Drop)]
pub struct Fed {
    /// The messages that are whole now, in their order.
    pub messages: Vec<LinkMessage>,
    /// What stands after them where it is none: the link has failed.
    pub fault: Option<LinkFault>,
}

/// The end of a link at which octets come in, in pieces. Contracts see the octets that wait for the
/// rest of their message, and whether the link has failed.
pub struct LinkIn {
    waiting: Option<Vec<u8>>,
    failed: bool,
}

impl Drop for LinkIn {
    fn drop(self) {
        let LinkIn { waiting, failed: _ } = self;
        drop(waiting);
    }
}

impl Model for LinkIn {
    ghost use Rattle.std.specs.Prelude.{ℕ, Bool, List};
    ghost use Rattle.gw_net.specs.Pieces.{Pending, octets_of};

    ghost Value = { Pending };

    ghost view = { λ l. record { waiting = octets_of l.waiting; failed = l.failed } };
}

impl LinkIn {
    ghost use Rattle.gw_net.specs.Pieces.{nothing_yet, IsPieceFed};

    /// The begin of a link.
    pub fn new() -> LinkIn
        ensures { result ≡ nothing_yet }
    {
        LinkIn {
            waiting: None,
            failed: false,
        }
    }

    /// Takes a piece, and gives the messages that are whole now, with the fault after them, if
    /// there is one.
    ///
    /// `Failed` after a fault; `Memory`, and the link is as it was.
    pub fn feed(&mut self, alloc: Global, piece: &[u8]) -> Result<Fed, LinkFault>
        ensures ok { IfOk result (λ fed. IsPieceFed self.old piece.now fed.messages.items
            fed.fault self.new) }
        ensures unchanged { OnErr result (self.new ≡ self.old) }
        ensures failed { result ≡ Err LinkFault.Failed ↔ (self.old.failed ≡ true) }
        ensures err { IfErr result (λ fault. (fault ≡ LinkFault.Failed)
            ⊎ (fault ≡ LinkFault.Memory)) }
    {
        if self.failed {
            return Err(LinkFault::Failed);
        }
        let mut waiting = match self.waiting.take() {
            None => Vec::new(alloc),
            Some(waiting) => waiting,
        };
        let result = take_piece(alloc, &mut waiting, piece);
        if let Ok(fed) = &result {
            self.failed = fed.fault.is_some();
        }
        self.waiting = Some(waiting);
        Ok(result?)
    }
}

/// Takes a piece after the octets that wait, and the whole messages out of them. On an error what
/// waits is as it was.
fn take_piece(alloc: Global, waiting: &mut Vec<u8>, piece: &[u8]) -> Result<Fed, NoMemory>
    ensures ok { IfOk result (λ fed. IsRead (waiting.old.items ++ piece.now) fed.messages.items
        fed.fault waiting.new.items) }
    ensures unchanged { OnErr result (waiting.new.items ≡ waiting.old.items) }
{
    let start = waiting.len();
    waiting.extend_from_slice(piece)?;
    match read_messages(alloc, waiting.as_slice()) {
        Err(fault) => {
            waiting.truncate(start);
            Err(fault)
        }
        Ok((fed, left)) => {
            keep_last(waiting, left);
            Ok(fed)
        }
    }
}

/// The messages in front of the octets, what stands after them, and how many octets are left.
fn read_messages(alloc: Global, bytes: &[u8]) -> Result<(Fed, usize), NoMemory>
    ensures { IfOk result (λ read. (read.1 ≤ length bytes.now)
        × IsRead bytes.now read.0.messages.items read.0.fault
        (drop (length bytes.now - read.1) bytes.now)) }
{
    let mut messages = Vec::new(alloc);
    let mut rest = bytes;
    'reading: loop {
        match front(alloc, rest) {
            Ok(None) => {
                let fault = None;
                return Ok((Fed { messages, fault }, rest.len()));
            }
            Ok(Some((message, after))) => {
                messages.push(message)?;
                rest = after;
            }
            Err(LinkFault::Memory) => return Err(NoMemory),
            Err(fault) => {
                let fault = Some(fault);
                return Ok((Fed { messages, fault }, rest.len()));
            }
        }
    }
}

/// Keeps the last octets.
fn keep_last(octets: &mut Vec<u8>, left: usize)
    requires { left ≤ length octets.old.items }
    ensures { octets.new.items ≡ drop (length octets.old.items - left) octets.old.items }
{
    let used = octets.len() - left;
    if used == 0 {
        return;
    }
    octets.as_mut_slice().copy_within(used.., 0);
    octets.truncate(left);
}
