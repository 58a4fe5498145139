//! The socket of a client.

ghost use Rattle.std.specs.Prelude.{◌≤◌, IfOk, IfSome, length};

use std::io;
use std::io::ErrorKind;
use std::net::{IpAddr, Ipv4Addr, Ipv6Addr, SocketAddr, UdpSocket};
use std::time::Duration;

/// How many milliseconds a receive waits for a datagram.
const RECV_TIMEOUT_MS: u64 = 50;

/// A socket, and the gateway that it speaks with.
pub(crate) struct Wire {
    socket: UdpSocket,
    gateway: SocketAddr,
}

impl Drop for Wire {
    fn drop(self) {
        let Wire { socket, gateway } = self;
        drop(socket);
        drop(gateway);
    }
}

impl Wire {
    /// A socket that is bound to a port; with port 0 to one that is free.
    pub(crate) fn open(net: &HostRuntime, port: u16, gateway: SocketAddr) -> io::Result<Wire> {
        let own = SocketAddr::new(any_host(gateway), port);
        let socket = UdpSocket::bind(net, own)?;
        socket.set_read_timeout(Some(Duration::from_millis(RECV_TIMEOUT_MS)))?;
        Ok(Wire { socket, gateway })
    }

    /// The port that it is bound to.
    pub(crate) fn port(&self) -> io::Result<u16> {
        Ok(self.socket.local_addr()?.port())
    }

    /// Sends a datagram to the gateway.
    pub(crate) fn send(&self, octets: &[u8]) -> io::Result<()> {
        self.socket.send_to(octets, self.gateway)?;
        Ok(())
    }

    /// The size of a datagram that came from the gateway, which is in the front of the buffer;
    /// nothing where none came for a while. What another sent is nothing.
    pub(crate) fn receive(&self, buffer: &mut [u8]) -> io::Result<Option<usize>>
        ensures { IfOk result (λ came. IfSome came (λ size. size ≤ length buffer.new)) }
    {
        match self.socket.recv_from(buffer) {
            Ok((size, from)) if from == self.gateway => Ok(Some(size)),
            Ok(_) => Ok(None),
            Err(e)
                if e.kind() == ErrorKind::WouldBlock
                    || e.kind() == ErrorKind::TimedOut
                    || e.kind() == ErrorKind::Interrupted => Ok(None),
            Err(e) => Err(e),
        }
    }
}

/// Each host of this system, as the gateway's address is spelled.
fn any_host(gateway: SocketAddr) -> IpAddr {
    if gateway.is_ipv4() {
        IpAddr::V4(Ipv4Addr::UNSPECIFIED)
    } else {
        IpAddr::V6(Ipv6Addr::UNSPECIFIED)
    }
}
