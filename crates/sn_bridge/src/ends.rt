//! The sockets of the lanes, and the connection to the broker.

ghost use Rattle.std.specs.Prelude.{◌≤◌, IfSome, length};

use crate::stop::Stop;
use mio::net::{TcpStream, UdpSocket};
use mio::{Interest, Registry, Token};
use mq_packet::{EncodeFault, Packet, encode};
use mq_stream::{Fed, PacketIn};
use std::alloc::Global;
use std::io;
use std::io::{ErrorKind, Read, Write};
use std::net::{IpAddr, Ipv4Addr, Ipv6Addr, SocketAddr};

/// The token of the connection to the broker. No lane has it.
const BROKER: usize = 64;

/// How many octets may wait for a broker that reads nothing.
const MOST_UNSENT: usize = 8_388_608;

/// A lane's socket, and which of the gateways it speaks with.
#[derive(Drop)]
pub(crate) struct Gate {
    socket: UdpSocket,
    at: usize,
}

/// The address of any interface, of the same kind as another address.
fn any(like: SocketAddr) -> SocketAddr {
    let host = if like.is_ipv4() {
        IpAddr::V4(Ipv4Addr::UNSPECIFIED)
    } else {
        IpAddr::V6(Ipv6Addr::UNSPECIFIED)
    };
    SocketAddr::new(host, 0)
}

impl Gate {
    /// A socket that speaks with the first gateway.
    pub(crate) fn open(
        net: &HostRuntime,
        registry: &Registry,
        place: usize,
        gateways: &[SocketAddr],
    ) -> Result<Gate, Stop> {
        let Some(first) = gateways.first() else {
            return Err(Stop::Socket);
        };
        match bound(net, registry, place, any(*first)) {
            Ok(socket) => Ok(Gate { socket, at: 0 }),
            Err(_) => Err(Stop::Socket),
        }
    }

    /// The next gateway, or the first again.
    pub(crate) fn turn(&mut self, gateways: &[SocketAddr]) {
        self.at = self.at.saturating_add(1);
        if self.at >= gateways.len() {
            self.at = 0;
        }
    }

    /// Sends a datagram. That it was not sent is told by no answer, and it is sent again.
    pub(crate) fn send(&self, gateways: &[SocketAddr], octets: &[u8]) {
        if let Some(to) = gateways.get(self.at) {
            let _ = self.socket.send_to(octets, *to);
        }
    }

    /// The size of a datagram that is there, in the front of the buffer, and whether it came from
    /// the gateway; nothing where none is there.
    pub(crate) fn receive(
        &self,
        gateways: &[SocketAddr],
        buffer: &mut [u8],
    ) -> Option<(usize, bool)>
        ensures { IfSome result (λ came. came.0 ≤ length buffer.new) }
    {
        match self.socket.recv_from(buffer) {
            Err(_) => None,
            Ok((size, from)) => {
                let is_its = match gateways.get(self.at) {
                    None => false,
                    Some(gateway) => *gateway == from,
                };
                Some((size, is_its))
            }
        }
    }
}

/// A socket at any port that is free, which wakes the loop.
fn bound(
    net: &HostRuntime,
    registry: &Registry,
    place: usize,
    at: SocketAddr,
) -> io::Result<UdpSocket> {
    let mut socket = UdpSocket::bind(net, at)?;
    registry.register(&mut socket, Token(place), Interest::READABLE)?;
    Ok(socket)
}

/// The connection to the broker.
pub(crate) struct Line {
    stream: TcpStream,
    input: PacketIn,
    unsent: Vec<u8>,
    /// Whether the broker took the connection.
    pub is_open: bool,
}

impl Drop for Line {
    fn drop(self) {
        let Line {
            stream,
            input,
            unsent,
            is_open: _,
        } = self;
        drop(stream);
        drop(input);
        drop(unsent);
    }
}

/// What a look at the connection found.
#[derive(Drop)]
pub(crate) enum Looked {
    /// Nothing.
    Nothing,
    /// The broker took the connection.
    Opened,
    /// Packets, and whether the connection is over.
    Came { fed: Fed },
    /// The connection is over.
    Over,
}

/// Begins to connect.
pub(crate) fn dial(
    net: &HostRuntime,
    alloc: Global,
    registry: &Registry,
    broker: SocketAddr,
) -> io::Result<Line> {
    let mut stream = TcpStream::connect(net, broker)?;
    let _ = stream.set_nodelay(true);
    let both = Interest::READABLE | Interest::WRITABLE;
    registry.register(&mut stream, Token(BROKER), both)?;
    Ok(Line {
        stream,
        input: PacketIn::new(alloc),
        unsent: Vec::new(alloc),
        is_open: false,
    })
}

impl Line {
    /// Looks whether the broker took the connection.
    fn look_for_begin(&mut self) -> Looked {
        match self.stream.take_error() {
            Ok(None) => {}
            Ok(Some(_)) | Err(_) => return Looked::Over,
        }
        if self.stream.peer_addr().is_err() {
            return Looked::Nothing;
        }
        self.is_open = true;
        Looked::Opened
    }

    /// What comes next of the connection.
    pub(crate) fn look(&mut self, alloc: Global, buffer: &mut [u8]) -> Result<Looked, Stop> {
        if !self.is_open {
            return Ok(self.look_for_begin());
        }
        match self.stream.read(buffer) {
            Ok(0) => Ok(Looked::Over),
            Ok(size) => {
                let (came, _) = buffer.split_at(size);
                let fed = self.input.feed(alloc, came)?;
                Ok(Looked::Came { fed })
            }
            Err(e) if e.kind() == ErrorKind::WouldBlock || e.kind() == ErrorKind::Interrupted => {
                Ok(Looked::Nothing)
            }
            Err(_) => Ok(Looked::Over),
        }
    }

    /// A packet goes out with the next `flush`.
    pub(crate) fn say(&mut self, alloc: Global, packet: &Packet) -> Result<(), Stop> {
        match encode(alloc, packet, &mut self.unsent) {
            Ok(()) => Ok(()),
            Err(EncodeFault::Memory) => Err(Stop::Memory),
            Err(EncodeFault::Body) | Err(EncodeFault::TooLong) => Ok(()),
        }
    }

    /// Sends what goes at once. False where the connection is over, or the broker reads nothing.
    pub(crate) fn flush(&mut self) -> bool {
        if !self.is_open || self.unsent.is_empty() {
            return true;
        }
        match self.stream.write(self.unsent.as_slice()) {
            Ok(size) => {
                cut_front(&mut self.unsent, size);
                self.unsent.len() <= MOST_UNSENT
            }
            Err(e) if e.kind() == ErrorKind::WouldBlock || e.kind() == ErrorKind::Interrupted => {
                self.unsent.len() <= MOST_UNSENT
            }
            Err(_) => false,
        }
    }
}

/// Takes octets away in front.
fn cut_front(octets: &mut Vec<u8>, size: usize) {
    let all = octets.len();
    if size >= all {
        octets.truncate(0);
        return;
    }
    octets.as_mut_slice().copy_within(size.., 0);
    octets.truncate(all - size);
}
