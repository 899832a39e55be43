//! A stream between two peers.

use mio::event::Source;
use mio::net::TcpStream;
use std::io::{self, ErrorKind, Read, Write};
use std::net::{Ipv4Addr, Net as Network, SocketAddr, SocketAddrV4};
use sv_server::Dial;

/// A stream between this machine and a peer. None of its methods blocks.
pub trait Stream: Read + Write + Source + Drop {
    /// Makes the stream of a connection that was accepted.
    fn accepted(stream: TcpStream) -> Self;

    /// Begins to connect to a peer.
    ///
    /// # Errors
    /// If the system can't begin to connect.
    fn call(network: &impl Network, dial: Dial) -> io::Result<Self>;

    /// Whether the peer that this stream connects to has answered.
    ///
    /// # Errors
    /// If the peer refused, or can't be reached.
    fn is_connected(&self) -> io::Result<bool>;
}

impl Stream for TcpStream {
    fn accepted(stream: TcpStream) -> TcpStream {
        let _ = stream.set_nodelay(true);
        stream
    }

    fn call(network: &impl Network, dial: Dial) -> io::Result<TcpStream> {
        let addr = SocketAddr::V4(SocketAddrV4::new(Ipv4Addr::from(dial.addr), dial.port));
        let stream = TcpStream::connect(network, addr)?;
        let _ = stream.set_nodelay(true);
        Ok(stream)
    }

    fn is_connected(&self) -> io::Result<bool> {
        if let Some(error) = self.take_error()? {
            return Err(error);
        }
        match self.peer_addr() {
            Ok(_) => Ok(true),
            Err(error) => match error.kind() {
                ErrorKind::NotConnected => Ok(false),
                _ => Err(error),
            },
        }
    }
}
