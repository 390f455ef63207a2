ghost use Rattle.std.specs.Prelude.{◌≡◌, ◌≤◌, length, Some, IfOk, IsOk};
ghost use Rattle.os_edge.specs.Outcomes.{receive_outcome, send_outcome};
ghost use Rattle.os_edge.specs.Answers.{ReceivesInto, SendsOrFails};

use node_device::{Received, Shipped};
use outside::Address;
use std::io::{self, ErrorKind};
use std::net::{Ipv4Addr, Net, SocketAddr, SocketAddrV4, UdpSocket};
use std::time::Duration;

// How many milliseconds a send waits for room in the system's buffer. After that the datagram is lost.
const SEND_WAIT_MS: u64 = 100;

/// A UDP socket that is bound to an IPv4 address and connected to none.
#[derive(Drop)]
pub(crate) struct Socket {
    socket: UdpSocket,
    // How long it waits at a receive, where that was set.
    wait_ms: Option<u32>,
}

impl Socket {
    /// A socket that listens at the address.
    pub(crate) fn bind<R: Net>(net: &R, at: Address) -> io::Result<Self> {
        let socket = UdpSocket::bind(net, socket_address(at))?;
        socket.set_write_timeout(Some(Duration::from_millis(SEND_WAIT_MS)))?;
        Ok(Socket {
            socket,
            wait_ms: None,
        })
    }

    /// Waits at most so many milliseconds for a datagram, which is cut to the buffer. An error that a send left behind is a failed
    /// receive; the system leaves none at a socket that is not connected.
    pub(crate) fn receive(&mut self, wait_ms: u32, buf: &mut [u8]) -> Received
        ensures { ReceivesInto buf.new result }
    {
        receive_outcome(self.take(wait_ms, buf))
    }

    /// Sends a datagram.
    pub(crate) fn send(&self, to: Address, bytes: &[u8]) -> Shipped
        ensures { SendsOrFails result }
    {
        send_outcome(bytes.len(), self.socket.send_to(bytes, socket_address(to)))
    }

    fn take(&mut self, wait_ms: u32, buf: &mut [u8]) -> io::Result<(usize, SocketAddr)>
        ensures { IfOk result (λ taken. taken.0 ≤ length buf.new) }
    {
        self.wait_at_most(wait_ms)?;
        self.socket.recv_from(buf)
    }

    // A wait of 0 is the mode of a socket that never waits, in which a send does not wait for room either: a timeout of 0 is refused, and
    // the system rounds the least one up to some milliseconds.
    fn wait_at_most(&mut self, wait_ms: u32) -> io::Result<()>
        ensures { IsOk result → self.new.wait_ms ≡ Some wait_ms }
    {
        if self.wait_ms == Some(wait_ms) {
            return Ok(());
        }
        // Where it cannot be set, it is not known.
        self.wait_ms = None;
        self.socket.set_nonblocking(wait_ms == 0)?;
        if wait_ms > 0 {
            let wait = Duration::from_millis(u64::from(wait_ms));
            self.socket.set_read_timeout(Some(wait))?;
        }
        self.wait_ms = Some(wait_ms);
        Ok(())
    }
}

fn socket_address(address: Address) -> SocketAddr {
    let ip = Ipv4Addr::from_octets(address.ip);
    SocketAddr::V4(SocketAddrV4::new(ip, address.port))
}

// What a receive comes to that the system answered so.
fn receive_outcome(taken: io::Result<(usize, SocketAddr)>) -> Received
    ensures { result ≡ receive_outcome taken }
{
    match taken {
        Ok((len, SocketAddr::V4(from))) => Received::Datagram {
            from: Address {
                ip: from.ip().octets(),
                port: from.port(),
            },
            len,
        },
        // None comes to a socket at an IPv4 address.
        Ok((_, SocketAddr::V6(_))) => Received::Failed,
        Err(fault) => match fault.kind() {
            ErrorKind::WouldBlock | ErrorKind::TimedOut | ErrorKind::Interrupted => Received::Quiet,
            _ => Received::Failed,
        },
    }
}

// What a send of so many bytes comes to that the system answered so.
fn send_outcome(len: usize, sent: io::Result<usize>) -> Shipped
    ensures { result ≡ send_outcome len sent }
{
    match sent {
        Ok(count) if count == len => Shipped::Sent,
        _ => Shipped::Failed,
    }
}
