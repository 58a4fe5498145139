//! A datagram that came when its shift had no call left for it.

ghost use Rattle.std.specs.Prelude.{◌≡◌, ◌≤◌, length, true, IfSome};

use crate::admission::Admission;
use crate::board::{Board, Number};
use crate::posting::Fence;
use gw_wire::{Arrival, FieldClock, Socket, UdpReceiver};
use std::alloc::Global;

/// How many octets a datagram has at most.
const LARGEST: usize = 65_536;

/// How many datagrams are dropped at once, at most.
const MOST_DROPPED: u32 = 65_536;

/// Where datagrams come from: the socket, and before it the one that came too late for its shift.
/// The thread of shifts has it, which is the reader's in a shift.
pub struct Inlet {
    /// The socket.
    pub socket: Socket,
    /// What came too late.
    pub late: Late,
    /// How often DISCONNECT was said.
    pub fence: Fence,
    /// Which clients are let in.
    pub admission: Admission,
}

impl Drop for Inlet {
    fn drop(self) {
        let Inlet {
            socket,
            late,
            fence,
            admission,
        } = self;
        drop(socket);
        drop(late);
        drop(fence);
        drop(admission);
    }
}

impl Inlet {
    /// Drops what has come so far, and counts it.
    pub(crate) fn drop_all(&mut self, clock: &FieldClock, board: &Board) {
        if let Some(arrival) = self.late.arrival.take() {
            count_dropped(board, self.late.bytes.as_slice(), arrival.size);
        }
        let (ears, _) = self.socket.sides(clock);
        for _ in 0..MOST_DROPPED {
            let Some(arrival) = ears.waiting(self.late.bytes.as_mut_slice()) else {
                return;
            };
            count_dropped(board, self.late.bytes.as_slice(), arrival.size);
        }
    }
}

/// A datagram of so many octets came, and is dropped.
fn count_dropped(board: &Board, bytes: &[u8], size: usize) {
    board.note_came(&bytes[..size.min(bytes.len())]);
    board.add(Number::Dropped);
}

/// A datagram that came when its shift had no call left for it: it is the first one of the next
/// shift.
#[derive(Drop)]
pub struct Late {
    arrival: Option<Arrival>,
    bytes: Vec<u8>,
    /// Whether a call of the shift is claimed for it.
    is_claimed: bool,
}

impl Late {
    /// Nothing came late. `None` where memory ran out.
    pub(crate) fn none(alloc: Global) -> Option<Late> {
        match Vec::from_elem(alloc, 0u8, LARGEST) {
            Ok(bytes) => Some(Late {
                arrival: None,
                bytes,
                is_claimed: false,
            }),
            Err(_) => None,
        }
    }

    /// Whether a datagram came late.
    pub(crate) fn is_there(&self) -> bool {
        self.arrival.is_some()
    }

    /// Notes whether a call of the shift is claimed for it.
    pub(crate) fn note_claim(&mut self, is_claimed: bool) {
        self.is_claimed = is_claimed;
    }

    /// Whether a call of the shift is claimed for it. From now on none is.
    pub(crate) fn take_claim(&mut self) -> bool {
        let is_claimed = self.is_claimed;
        self.is_claimed = false;
        is_claimed
    }

    /// If none came late, takes one that is there already: a shift begins with it.
    pub(crate) fn look(&mut self, ears: &UdpReceiver<'_>) {
        if self.arrival.is_none() {
            self.arrival = ears.waiting(self.bytes.as_mut_slice());
        }
    }

    /// The one that came late, if one did, comes at this moment: its own was by another date.
    pub(crate) fn come_at(&mut self, moment: u64) {
        if let Some(arrival) = self.arrival.take() {
            self.arrival = Some(Arrival {
                from: arrival.from,
                size: arrival.size,
                moment,
            });
        }
    }

    /// This one came late. It stands in the front of the buffer.
    pub(crate) fn keep(&mut self, arrival: Arrival, buffer: &[u8]) {
        if copy_front(self.bytes.as_mut_slice(), buffer, arrival.size) {
            self.arrival = Some(arrival);
        }
    }

    /// Gives the one that came late, in the front of the buffer. It is late no more.
    pub(crate) fn give(&mut self, buffer: &mut [u8]) -> Option<Arrival>
        ensures { IfSome result (λ arrival. arrival.size ≤ length buffer.new) }
    {
        let arrival = self.arrival.take()?;
        if copy_front(buffer, self.bytes.as_slice(), arrival.size) {
            return Some(arrival);
        }
        None
    }
}

/// Copies so many octets from front to front, where both have as many. Says whether they do.
fn copy_front(to: &mut [u8], from: &[u8], size: usize) -> bool
    ensures same { length to.new ≡ length to.old }
    ensures room { result ≡ true → size ≤ length to.new }
{
    if size > to.len() || size > from.len() {
        return false;
    }
    to[..size].copy_from_slice(&from[..size]);
    true
}
