//! The sockets of a server, each port's under a fixed number, and the methods of a wire over them.

ghost use Rattle.std.specs.Prelude.{◌≡◌, ◌<◌, ◌≤◌, Some, None, OnErr, IfOk, length, replicate, slice_set};
ghost use Rattle.sv_serve.specs.Heard.{IsWithin, bytes_of};
ghost use Rattle.sv_net.specs.Sockets.{socket_number, Gives, Skips, Takes, Does};

use crate::listener::Listener;
use crate::socket::Socket;
use crate::stream::Stream;
use mio::event::Event;
use mio::net::TcpStream;
use mio::{Poll, Registry, Token};
use std::alloc::{AllocError, Allocator, Global};
use std::io;
use std::marker::Model;
use std::net::Net as Network;
use sv_serve::{Answer, Wire};
use sv_server::{Dial, Port, Role};

/// How many sockets there can be: first those of sixteen connections, then those of their interrupt
/// channels.
const SOCKETS: usize = 32;

/// The sockets of sixteen connections and their interrupt channels, and three listening sockets on
/// ports of 127.0.0.1.
///
/// No method blocks. After a read that would have blocked, the socket isn't read again until the
/// system reports something about the socket. The same holds for a write and for an accept.
#[derive(Drop)]
pub struct Net<N: Network + Drop, A: Allocator = Global, S: Stream = TcpStream> {
    network: N,
    registry: Registry,
    listeners: [Listener; 3],
    sockets: Vec<Option<Socket<S>>, A>,
}

impl<N: Network + Drop, A: Allocator, S: Stream> Model for Net<N, A, S> {
    ghost use Rattle.std.specs.Prelude.{List, Option};

    ghost Value = { List (Option S) };

    ghost view = { λ a. a.sockets.items };
}

/// Returns the index of the socket that listens for connections of this role.
fn listener_number(role: Role) -> usize
    ensures { result < 3 }
{
    match role {
        Role::Core => 0,
        Role::Abort => 1,
        Role::Portmap => 2,
    }
}

/// Returns the number of a port's socket.
fn socket_number(port: Port) -> usize
    ensures { result ≡ socket_number port }
{
    match port {
        Port::Conn(conn) => usize::from(conn),
        Port::Intr(conn) => 16 + usize::from(conn),
    }
}

/// Reads from a socket into the buffer. If `place` is `None`, the read fails.
fn read_at<S: Stream>(place: &mut Option<Socket<S>>, buffer: &mut [u8]) -> Answer<usize>
    ensures within { IsWithin result (length buffer.old) }
    ensures gives { let answer = bytes_of result buffer.new in
        Does (Gives S.remaining answer) answer place.old place.new }
{
    match place {
        Some(socket) => socket.read(buffer),
        None => Answer::Failed,
    }
}

/// Checks whether the peer of a socket is gone. If the peer is gone, or if `place` is `None`, the
/// answer is `Failed`.
fn probe_at<S: Stream>(place: &mut Option<Socket<S>>, drops: bool) -> Answer<()>
    ensures { Does (Skips S.remaining drops) result place.old place.new }
{
    match place {
        Some(socket) => socket.probe(drops),
        None => Answer::Failed,
    }
}

/// Writes bytes to a socket. If `place` is `None`, the write fails.
fn write_at<S: Stream>(place: &mut Option<Socket<S>>, bytes: &[u8]) -> Answer<usize>
    ensures within { IsWithin result (length bytes.now) }
    ensures takes { Does (Takes S.contents bytes.now result) result place.old place.new }
{
    match place {
        Some(socket) => socket.write(bytes),
        None => Answer::Failed,
    }
}

/// Listens on three ports, and registers the three sockets for the system's reports. Their tokens
/// follow those of the sockets of connections and interrupt channels.
fn open_listeners(
    network: &impl Network,
    registry: &Registry,
    ports: [u16; 3],
) -> io::Result<[Listener; 3]> {
    let [core, abort, portmap] = ports;
    Ok([
        Listener::listen(network, core, registry, Token(SOCKETS))?,
        Listener::listen(network, abort, registry, Token(SOCKETS + 1))?,
        Listener::listen(network, portmap, registry, Token(SOCKETS + 2))?,
    ])
}

/// Makes the places of the sockets. No place has a socket yet.
fn no_sockets<A: Allocator, S: Stream>(alloc: A) -> Result<Vec<Option<Socket<S>>, A>, AllocError>
    ensures { IfOk result (λ sockets. sockets.items ≡ replicate 32 None) }
{
    let mut sockets = Vec::with_capacity(alloc, SOCKETS)?;
    for _ in 0..SOCKETS {
        sockets.push(None)?;
    }
    Ok(sockets)
}

impl<N: Network + Drop, A: Allocator, S: Stream> Net<N, A, S> {
    /// Listens on the ports of the core channel, the abort channel and the port mapper.
    ///
    /// # Errors
    /// If a port can't be listened on, or memory is refused (`ErrorKind::OutOfMemory`).
    pub(crate) fn listen(
        network: N,
        alloc: A,
        poll: &Poll,
        ports: [u16; 3],
    ) -> io::Result<Net<N, A, S>>
        ensures { IfOk result (λ net. net ≡ replicate 32 None) }
    {
        let registry = poll.registry().try_clone()?;
        let listeners = open_listeners(&network, &registry, ports)?;
        let sockets = no_sockets(alloc)?;
        Ok(Net {
            network,
            registry,
            listeners,
            sockets,
        })
    }

    /// Records a report of the system in the socket or listening socket that the report is about.
    pub(crate) fn report(&self, event: &Event) {
        let Token(number) = event.token();
        match self.sockets.get(number) {
            Some(Some(socket)) => socket.report(event),
            Some(None) => {}
            None => self.report_listener(number),
        }
    }

    /// Records a report of the system about the listening socket with this token's number.
    fn report_listener(&self, number: usize) {
        if let Some(listener) = self.listeners.get(number.saturating_sub(SOCKETS)) {
            listener.report();
        }
    }

    /// Whether an accept is due at once on at least one port: a connection might be waiting to be
    /// accepted on this port, and the last accept on it didn't fail.
    pub(crate) fn is_accept_due(&self) -> bool {
        let [core, abort, portmap] = &self.listeners;
        core.is_waiting() | abort.is_waiting() | portmap.is_waiting()
    }

    /// Whether a connection might be waiting to be accepted on at least one port. A failed accept
    /// doesn't make this false.
    pub(crate) fn is_readable(&self) -> bool {
        let [core, abort, portmap] = &self.listeners;
        core.is_readable() | abort.is_readable() | portmap.is_readable()
    }

    /// Returns how many milliseconds the server may sleep before the next accept is due; at most
    /// 100.
    pub(crate) fn patience(&self) -> u32
        ensures { result ≤ 100 }
    {
        let [core, abort, portmap] = &self.listeners;
        core.patience()
            .min(abort.patience())
            .min(portmap.patience())
    }

    /// Returns the socket of a connection or an interrupt channel; `None` if this port has no
    /// socket.
    pub(crate) fn socket(&self, port: Port) -> Option<&Socket<S>> {
        match self.sockets.get(socket_number(port)) {
            Some(Some(socket)) => Some(socket),
            _ => None,
        }
    }

    /// Stores a socket under its number, and registers it for reports.
    fn keep(&mut self, port: Port, mut socket: Socket<S>) -> io::Result<()>
        ensures ok { IfOk result (λ _. (stream : S)
            × (self.new ≡ slice_set self.old (socket_number port) (Some stream))) }
        ensures err { OnErr result (self.new ≡ self.old) }
    {
        let number = socket_number(port);
        socket.register(&self.registry, Token(number))?;
        if let Some(place) = self.sockets.get_mut(number) {
            *place = Some(socket);
        }
        Ok(())
    }
}

impl<N: Network + Drop, A: Allocator, S: Stream> Wire for Net<N, A, S> {
    ghost use Rattle.sv_net.specs.Sockets.{Hears};

    ghost hears = { Hears S.remaining S.contents };

    #[inline(always)]
    fn accept(&mut self, role: Role, conn: Option<u8>) -> Answer<()> {
        match (self.listeners[listener_number(role)].accept(), conn) {
            (Answer::Got(stream), Some(conn)) => {
                let socket = Socket::connected(S::accepted(stream));
                match self.keep(Port::Conn(conn), socket) {
                    Ok(()) => Answer::Got(()),
                    Err(_) => Answer::Failed,
                }
            }
            (Answer::Got(_), None) => Answer::Got(()),
            (Answer::Pending, _) => Answer::Pending,
            (Answer::Failed, _) => Answer::Failed,
        }
    }

    fn read(&mut self, conn: u8, buffer: &mut [u8]) -> Answer<usize> {
        match self.sockets.get_mut(socket_number(Port::Conn(conn))) {
            Some(place) => read_at(place, buffer),
            None => Answer::Failed,
        }
    }

    fn probe(&mut self, conn: u8, drops: bool) -> Answer<()> {
        match self.sockets.get_mut(socket_number(Port::Conn(conn))) {
            Some(place) => probe_at(place, drops),
            None => Answer::Failed,
        }
    }

    fn write(&mut self, port: Port, bytes: &[u8]) -> Answer<usize> {
        match self.sockets.get_mut(socket_number(port)) {
            Some(place) => write_at(place, bytes),
            None => Answer::Failed,
        }
    }

    fn dial(&mut self, conn: u8, dial: Dial) -> Answer<()> {
        match S::call(&self.network, dial) {
            Ok(stream) => match self.keep(Port::Intr(conn), Socket::connecting(stream)) {
                Ok(()) => Answer::Pending,
                Err(_) => Answer::Failed,
            },
            Err(_) => Answer::Failed,
        }
    }

    fn dialed(&mut self, conn: u8) -> Answer<()> {
        match self.socket(Port::Intr(conn)) {
            Some(socket) => socket.answered(),
            None => Answer::Failed,
        }
    }

    fn close(&mut self, port: Port) {
        if let Some(place) = self.sockets.get_mut(socket_number(port)) {
            *place = None;
        }
    }
}
