//! A connection, and the bytes that it still has to send back.

use mio::net::TcpStream;
use mio::{Interest, Registry, Token};
use std::io::{self, ErrorKind, Read, Write};

/// A connection.
#[derive(Drop)]
pub(crate) struct Connection {
    stream: TcpStream,
}

impl Connection {
    /// Makes a connection from this stream. The system's reports about the stream have this token.
    pub(crate) fn new(
        mut stream: TcpStream,
        registry: &Registry,
        token: Token,
    ) -> io::Result<Connection> {
        stream.set_nodelay(true)?;
        registry.register(&mut stream, token, Interest::READABLE | Interest::WRITABLE)?;
        Ok(Connection { stream })
    }

    /// Makes one read, and sends the bytes back. Returns false if the connection has to be closed.
    pub(crate) fn echo(&mut self, buffer: &mut [u8]) -> bool {
        match self.stream.read(buffer) {
            Ok(0) => false,
            Ok(count) => match self.stream.write(buffer.get(..count).unwrap_or(&[])) {
                Ok(written) => written == count,
                Err(_) => false,
            },
            Err(error) => error.kind() == ErrorKind::WouldBlock,
        }
    }
}
