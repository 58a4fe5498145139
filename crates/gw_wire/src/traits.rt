//! What a gateway asks of the outside: where datagrams come from, where replies go, and who is told
//! of them.

use jr_disk::Failures;
use sn_local::Addr;
use thiserror::Error;

/// A number of datagrams that contracts alone see, counted as failures are.
pub type Tally = Failures;

/// A datagram that came.
#[derive(Clone, Copy, PartialEq, Eq)]
pub struct Arrival {
    /// Its sender.
    pub from: Addr,
    /// How many octets it has; they are in the front of the buffer.
    pub size: usize,
    /// When it came, in seconds.
    pub moment: u64,
}

/// What a receive brought.
#[derive(Clone, Copy)]
pub enum Came {
    /// A datagram.
    Datagram(Arrival),
    /// Nothing came for a while.
    Nothing,
    /// No more is to be received: what the wire was for is over.
    Over,
}

/// A receive failed.
#[derive(Clone, Copy, Debug, PartialEq, Eq, Error)]
#[error("a receive failed")]
pub struct WireFault;

/// A send failed.
#[derive(Clone, Copy, Debug, PartialEq, Eq, Error)]
#[error("a send failed")]
pub struct Unsent;

/// Where datagrams come from. One thread has it.
pub trait Wire {
    ghost use Rattle.std.specs.Prelude.{◌≡◌, ◌≤◌, ◌+◌, ℕ, length, IfOk, IfSome};
    ghost use Rattle.jr_disk.specs.Disk.{HasCause};
    ghost use Rattle.gw_wire.specs.Arrivals.{arrival_of, came_in};

    /// How many receives have failed.
    ghost failures: { Self → ℕ };

    /// How many datagrams came.
    ghost arrivals: { Self → ℕ };

    /// How many datagrams were dropped.
    ghost drops: { Self → ℕ };

    /// Receives the next datagram into the front of the buffer, or nothing if none comes for a
    /// while. Says if no more is to be received, which is no fault.
    fn recv(&mut self, buffer: &mut [u8]) -> Result<Came, WireFault>
        ensures cause { HasCause (failures self.old) (failures self.new) result }
        ensures size { IfOk result (λ came. IfSome (arrival_of came) (λ arrival. arrival.size
            ≤ length buffer.new)) }
        ensures came { (arrivals self.new ≡ arrivals self.old + came_in result)
            × (drops self.new ≡ drops self.old) };

    /// The last datagram was dropped: more waited than there was room for.
    fn note_dropped(&mut self)
        ensures failures { failures self.new ≡ failures self.old }
        ensures dropped { (arrivals self.new ≡ arrivals self.old)
            × (drops self.new ≡ drops self.old + 1) };

    /// Waits a moment, and reads nothing: as many datagrams wait as there is room for.
    fn rest(&mut self)
        ensures failures { failures self.new ≡ failures self.old }
        ensures rested { (arrivals self.new ≡ arrivals self.old)
            × (drops self.new ≡ drops self.old) };
}

/// Where replies go. Threads share it.
pub trait Post {
    /// Sends a datagram to an address. Nothing is said of whether it arrives.
    fn send(&self, to: Addr, bytes: &[u8]) -> Result<(), Unsent>;
}

/// Who is told of the replies to a datagram, by the datagram's number. Threads share it.
pub trait Gate {
    /// The replies to a datagram are about to be sent; they are once this returns.
    fn before_send(&self, number: u64);

    /// They were sent.
    fn sent(&self, number: u64);
}

/// A gate that lets everything pass.
#[derive(Clone, Copy, PartialEq, Eq)]
pub struct OpenGate;

impl Gate for OpenGate {
    fn before_send(&self, _number: u64) {}

    fn sent(&self, _number: u64) {}
}
