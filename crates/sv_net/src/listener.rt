//! A listening socket, with what the system last reported about it.

ghost use Rattle.std.specs.Prelude.{◌≤◌};

use mio::net::{TcpListener, TcpStream};
use mio::{Interest, Registry, Token};
use std::cell::Cell;
use std::io::{self, ErrorKind};
use std::net::{Ipv4Addr, Net as Network, SocketAddr, SocketAddrV4};
use sv_pace::STILL;
use sv_serve::Answer;

/// A listening socket, and whether connections might be waiting to be accepted.
#[derive(Drop)]
pub(crate) struct Listener {
    listener: TcpListener,
    /// Connections might be waiting to be accepted.
    readable: Cell<bool>,
    /// How many milliseconds to wait before the next accept, if the last accept failed; else 0.
    delay: Cell<u32>,
}

impl Listener {
    /// Listens on a port of 127.0.0.1, and registers the socket for the system's reports. Each
    /// report about the socket then has this token.
    pub(crate) fn listen(
        network: &impl Network,
        port: u16,
        registry: &Registry,
        token: Token,
    ) -> io::Result<Listener> {
        let addr = SocketAddr::V4(SocketAddrV4::new(Ipv4Addr::LOCALHOST, port));
        let mut listener = TcpListener::bind(network, addr)?;
        registry.register(&mut listener, token, Interest::READABLE)?;
        Ok(Listener {
            listener,
            readable: Cell::new(false),
            delay: Cell::new(0),
        })
    }

    /// Records a report of the system about the socket: connections might be waiting to be
    /// accepted.
    pub(crate) fn report(&self) {
        self.readable.set(true);
    }

    /// Whether a connection might be waiting to be accepted.
    pub(crate) fn is_readable(&self) -> bool {
        self.readable.get()
    }

    /// Whether the next accept is due at once: a connection might be waiting to be accepted, and
    /// the last accept didn't fail.
    pub(crate) fn is_waiting(&self) -> bool {
        self.readable.get() & (self.delay.get() == 0)
    }

    /// Returns how many milliseconds to sleep at most before the next accept. This is 100 if it is
    /// known that no connection waits. Else it is 1 if at most one accept has failed since the last
    /// accept that succeeded. Each further failed accept doubles it, up to 100.
    pub(crate) fn patience(&self) -> u32
        ensures { result ≤ 100 }
    {
        if self.readable.get() {
            self.delay.get().max(1).min(STILL)
        } else {
            STILL
        }
    }

    /// Accepts a connection, if one might be waiting.
    #[inline(always)]
    pub(crate) fn accept(&self) -> Answer<TcpStream> {
        if !self.readable.get() {
            return Answer::Pending;
        }
        match self.listener.accept() {
            Ok((stream, _)) => {
                self.delay.set(0);
                Answer::Got(stream)
            }
            Err(error) => self.refused(error.kind()),
        }
    }

    /// Returns the wire's answer for an accept that failed with this kind of error.
    fn refused(&self, kind: ErrorKind) -> Answer<TcpStream> {
        match kind {
            ErrorKind::WouldBlock => {
                self.readable.set(false);
                Answer::Pending
            }
            ErrorKind::Interrupted => Answer::Pending,
            _ => {
                let longer = self.delay.get().saturating_mul(2);
                self.delay.set(longer.max(1).min(STILL));
                Answer::Failed
            }
        }
    }
}
