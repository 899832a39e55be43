//! A peer: a stream, and the bytes that came on it.

use mio::net::{TcpListener, TcpStream};
use std::alloc::Global;
use std::io::{self, ErrorKind, Read, Write};
use std::net::SocketAddr;

/// The most bytes that a peer reads at once.
const PIECE: usize = 65_536;

/// Whether a read or a write failed only because it would block.
fn would_wait(kind: ErrorKind) -> bool {
    matches!(
        kind,
        ErrorKind::WouldBlock | ErrorKind::NotConnected | ErrorKind::Interrupted
    )
}

/// A peer of the server.
#[derive(Drop)]
pub(crate) struct Peer {
    /// The peer's letter.
    pub(crate) name: char,
    listener: Option<TcpListener>,
    stream: Option<TcpStream>,
    /// The bytes that the peer still has to send.
    pub(crate) unsent: Vec<u8>,
    /// The bytes that came to the peer and haven't been printed yet.
    pub(crate) came: Vec<u8>,
    /// Whether the peer's stream has ended.
    pub(crate) ended: bool,
    /// Whether the peer tried to connect and was refused; then its stream has ended too.
    pub(crate) refused: bool,
    buffer: Vec<u8>,
}

impl Peer {
    /// Makes a peer that has no stream and listens on no port.
    fn new(alloc: Global, name: char) -> io::Result<Peer> {
        Ok(Peer {
            name,
            listener: None,
            stream: None,
            unsent: Vec::new(alloc),
            came: Vec::new(alloc),
            ended: false,
            refused: false,
            buffer: vec![in alloc; 0; PIECE]?,
        })
    }

    /// Makes a peer, and begins to connect it to this address and port.
    pub(crate) fn connect(rt: HostRuntime, name: char, addr: SocketAddr) -> io::Result<Peer> {
        let mut peer = Peer::new(rt.alloc(), name)?;
        peer.stream = Some(TcpStream::connect(&rt, addr)?);
        Ok(peer)
    }

    /// Makes a peer that listens on this address and port.
    pub(crate) fn listen(rt: HostRuntime, name: char, addr: SocketAddr) -> io::Result<Peer> {
        let mut peer = Peer::new(rt.alloc(), name)?;
        peer.listener = Some(TcpListener::bind(&rt, addr)?);
        Ok(peer)
    }

    /// Accepts a connection, if one has come to the peer's port. Returns whether the peer now has a
    /// stream.
    pub(crate) fn accept(&mut self) -> io::Result<bool> {
        let Some(listener) = &self.listener else {
            return Ok(false);
        };
        match listener.accept() {
            Ok((stream, _)) => {
                self.stream = Some(stream);
                Ok(true)
            }
            Err(error) => {
                if would_wait(error.kind()) {
                    Ok(self.stream.is_some())
                } else {
                    Err(error)
                }
            }
        }
    }

    /// Sends as many of the unsent bytes as the socket accepts. Returns how many it accepted.
    pub(crate) fn send(&mut self) -> io::Result<usize> {
        let Some(stream) = &mut self.stream else {
            return Ok(0);
        };
        if self.unsent.is_empty() {
            return Ok(0);
        }
        match stream.write(&self.unsent) {
            Ok(count) => {
                let count = count.min(self.unsent.len());
                self.unsent.drain(..count);
                Ok(count)
            }
            Err(error) => self.fault(error),
        }
    }

    /// Handles a failed read or write: a reset counts as the end of the stream, like a close, and
    /// so does a refused attempt to connect.
    fn fault(&mut self, error: io::Error) -> io::Result<usize> {
        match error.kind() {
            ErrorKind::ConnectionReset | ErrorKind::BrokenPipe => {
                self.ended = true;
                Ok(0)
            }
            ErrorKind::ConnectionRefused => {
                self.refused = true;
                self.ended = true;
                Ok(0)
            }
            kind => { if would_wait(kind) { Ok(0) } else { Err(error) } }
        }
    }

    /// Reads the bytes that have come to the socket.
    pub(crate) fn hear(&mut self) -> io::Result<()> {
        let Some(stream) = &mut self.stream else {
            return Ok(());
        };
        match stream.read(&mut self.buffer) {
            Ok(0) => self.ended = true,
            Ok(count) => {
                let piece = self.buffer.get(..count).unwrap_or(&[]);
                self.came.extend_from_slice(piece)?;
            }
            Err(error) => {
                self.fault(error)?;
            }
        }
        Ok(())
    }

    /// Closes the peer's stream.
    pub(crate) fn close(&mut self) {
        self.stream = None;
        self.unsent.clear();
    }
}
