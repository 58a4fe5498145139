//! A connection from which octets come in pieces.

ghost use Rattle.std.specs.Prelude.{◌≡◌, ◌≢◌, ◌≤◌, ◌-◌, ◌++◌, length, drop, IfOk, OnErr};
ghost use Rattle.mq_stream.specs.Pieces.{EndsPackets, ReadsPackets};

use crate::front::{front, passed};
use mq_packet::{Packet, PacketFault};
use octets::NoMemory;
use std::alloc::Global;

/// What a piece gave.
#[derive(Drop)]
pub struct Fed {
    /// The packets that are whole now, in their order.
    pub packets: Vec<Packet>,
    /// What stands after them where it is none: the connection has failed.
    pub fault: Option<PacketFault>,
}

/// The end of a connection at which octets come in, in pieces.
pub struct PacketIn {
    /// The octets that wait for the rest of their packet.
    pub waiting: Vec<u8>,
    /// How many octets are still to be passed over.
    pub over: u32,
}

impl Drop for PacketIn {
    fn drop(self) {
        let PacketIn { waiting, over: _ } = self;
        drop(waiting);
    }
}

impl PacketIn {
    /// The begin of a connection.
    pub fn new(alloc: Global) -> PacketIn
        ensures waiting { length result.waiting.items ≡ 0 }
        ensures over { result.over ≡ 0 }
    {
        PacketIn {
            waiting: Vec::new(alloc),
            over: 0,
        }
    }

    /// Takes a piece, and gives the packets that are whole now, with the fault after them, if there
    /// is one. After a fault the connection is to be given up.
    ///
    /// If memory runs out, the connection is as it was.
    pub fn feed(&mut self, alloc: Global, piece: &[u8]) -> Result<Fed, NoMemory>
        ensures ok { IfOk result
            (λ fed. ReadsPackets self.old.over (self.old.waiting.items ++ piece.now)
            fed.packets.items self.new.over self.new.waiting.items
            × EndsPackets fed.fault self.new.waiting.items) }
        ensures waiting { OnErr result (self.new.waiting.items ≡ self.old.waiting.items) }
        ensures over { OnErr result (self.new.over ≡ self.old.over) }
    {
        let start = self.waiting.len();
        self.waiting.extend_from_slice(piece)?;
        match read_packets(alloc, self.over, self.waiting.as_slice()) {
            Err(fault) => {
                self.waiting.truncate(start);
                Err(fault)
            }
            Ok((fed, over, left)) => {
                keep_last(&mut self.waiting, left);
                self.over = over;
                Ok(fed)
            }
        }
    }
}

/// A fault that the octets have; an `Err` if it says that memory ran out.
fn real(fault: PacketFault) -> Result<PacketFault, NoMemory>
    ensures ok { IfOk result (λ kept. (kept ≡ fault) × (kept ≢ PacketFault.Memory)) }
    ensures err { OnErr result (fault ≡ PacketFault.Memory) }
{
    match fault {
        PacketFault::Memory => Err(NoMemory),
        _ => Ok(fault),
    }
}

/// The packets in front of the octets and what stands after them; how many octets are still to be
/// passed over, and how many are left.
fn read_packets(alloc: Global, over: u32, octets: &[u8]) -> Result<(Fed, u32, usize), NoMemory>
    ensures { IfOk result (λ read. (read.2 ≤ length octets.now) × ReadsPackets over octets.now
        read.0.packets.items read.1 (drop (length octets.now - read.2) octets.now)
        × EndsPackets read.0.fault (drop (length octets.now - read.2) octets.now)) }
{
    let mut packets = Vec::new(alloc);
    let (mut left, mut rest) = passed(over, octets);
    'reading: loop {
        match front(alloc, rest) {
            Ok(None) => {
                let fault = None;
                return Ok((Fed { packets, fault }, left, rest.len()));
            }
            Ok(Some(found)) => {
                packets.push(found.packet)?;
                let (more, after) = passed(found.over, found.rest);
                left = more;
                rest = after;
            }
            Err(fault) => {
                let fault = Some(real(fault)?);
                return Ok((Fed { packets, fault }, left, rest.len()));
            }
        }
    }
}

/// Keeps the last octets.
fn keep_last(octets: &mut Vec<u8>, left: usize)
    requires { left ≤ length octets.old.items }
    ensures { octets.new.items ≡ drop (length octets.old.items - left) octets.old.items }
{
    let used = octets.len() - left;
    if used == 0 {
        return;
    }
    octets.as_mut_slice().copy_within(used.., 0);
    octets.truncate(left);
}
