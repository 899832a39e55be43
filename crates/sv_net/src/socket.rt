//! A socket, with what the system last reported about it.

ghost use Rattle.std.specs.Prelude.{◌≡◌, ◌⊎◌, true, length};
ghost use Rattle.sv_serve.specs.Heard.{IsWithin, bytes_of};
ghost use Rattle.sv_net.specs.Sockets.{Gives, Skips, Takes};

use crate::stream::Stream;
use mio::event::Event;
use mio::{Interest, Registry, Token};
use std::cell::Cell;
use std::io::{self, ErrorKind};
use std::marker::Model;
use sv_serve::Answer;

/// How many bytes one read discards at most.
const DROPPED: usize = 1_024;

/// A socket, and what the system reported about it since the last read or write that would have
/// blocked.
#[derive(Drop)]
pub(crate) struct Socket<S: Stream> {
    stream: S,
    /// Bytes or the end of the stream might be waiting to be read.
    readable: Cell<bool>,
    /// The socket might accept bytes of a write.
    writable: Cell<bool>,
    /// The peer has ended its stream: the system won't report again that bytes can be read.
    ended: Cell<bool>,
    /// The socket was reset, or is closed in both directions.
    broken: Cell<bool>,
    /// Urgent bytes might be waiting: a read ends in front of them, even if more bytes follow.
    urgent: Cell<bool>,
}

impl<S: Stream> Model for Socket<S> {
    ghost Value = { S };

    ghost view = { λ a. a.stream };
}

impl<S: Stream> Socket<S> {
    /// Makes a connected socket. Until the first read and write, it is assumed that bytes can be
    /// read and written.
    pub(crate) fn connected(stream: S) -> Socket<S>
        ensures { result ≡ stream }
    {
        Socket {
            stream,
            readable: Cell::new(true),
            writable: Cell::new(true),
            ended: Cell::new(false),
            broken: Cell::new(false),
            urgent: Cell::new(false),
        }
    }

    /// Makes a socket that has begun to connect. It can be written to after the system has reported
    /// it as writable.
    pub(crate) fn connecting(stream: S) -> Socket<S>
        ensures { result ≡ stream }
    {
        Socket {
            stream,
            readable: Cell::new(false),
            writable: Cell::new(false),
            ended: Cell::new(false),
            broken: Cell::new(false),
            urgent: Cell::new(false),
        }
    }

    /// Registers the socket for the system's reports. Each report about the socket then has this
    /// token.
    pub(crate) fn register(&mut self, registry: &Registry, token: Token) -> io::Result<()>
        ensures { S.keeps self.old self.new }
    {
        registry.register(
            &mut self.stream,
            token,
            Interest::READABLE | Interest::WRITABLE | Interest::PRIORITY,
        )
    }

    /// Records what the system reported about the socket.
    pub(crate) fn report(&self, event: &Event) {
        let broken = event.is_error();
        let ended = broken | event.is_read_closed();
        self.readable
            .set(self.readable.get() | ended | event.is_readable());
        self.writable.set(
            self.writable.get() | broken | event.is_writable() | event.is_write_closed(),
        );
        self.ended.set(self.ended.get() | ended);
        let gone = broken | event.is_read_closed() & event.is_write_closed();
        self.broken.set(self.broken.get() | gone);
        self.urgent.set(self.urgent.get() | event.is_priority());
    }

    /// Whether the socket was reset, or is closed in both directions.
    pub(crate) fn is_broken(&self) -> bool {
        self.broken.get()
    }

    /// Whether bytes or the end of the stream might be waiting to be read.
    pub(crate) fn is_readable(&self) -> bool {
        self.readable.get()
    }

    /// Whether the socket might accept bytes of a write, or might have finished connecting.
    pub(crate) fn is_writable(&self) -> bool {
        self.writable.get()
    }

    /// Reads bytes that are waiting. A read that doesn't fill the buffer has emptied the socket.
    /// Then the socket isn't read again until the system reports more bytes, unless the peer had
    /// ended its stream or sent urgent bytes.
    pub(crate) fn read(&mut self, buffer: &mut [u8]) -> Answer<usize>
        ensures within { IsWithin result (length buffer.old) }
        ensures gives { Gives S.remaining (bytes_of result buffer.new) self.old self.new }
    {
        if !self.readable.get() {
            return Answer::Pending;
        }
        match self.stream.read(buffer) {
            Ok(0) => Answer::Failed,
            Ok(count) => {
                self.readable.set((count == buffer.len()) | self.ended.get() | self.urgent.get());
                Answer::Got(count)
            }
            Err(error) => {
                let answer = would_wait(&self.readable, error.kind());
                self.urgent.set(self.urgent.get() & self.readable.get());
                answer
            }
        }
    }

    /// Checks whether the socket's peer is gone, while the socket isn't read. If the peer is gone,
    /// the answer is `Failed`. Without `drops`, the peer counts as gone if the socket is broken.
    /// With `drops`, the bytes that came are read and discarded, and the peer also counts as gone
    /// at the end of the stream.
    pub(crate) fn probe(&mut self, drops: bool) -> Answer<()>
        ensures { Skips S.remaining drops self.old self.new }
    {
        if self.broken.get() {
            return Answer::Failed;
        }
        if drops { self.skip() } else { Answer::Pending }
    }

    /// Reads bytes that came, and discards them.
    fn skip(&mut self) -> Answer<()>
        ensures { Skips S.remaining true self.old self.new }
    {
        match self.read(&mut [0; DROPPED]) {
            Answer::Got(_) => Answer::Got(()),
            Answer::Pending => Answer::Pending,
            Answer::Failed => Answer::Failed,
        }
    }

    /// Writes as many of the bytes as the socket accepts, and returns how many it accepted.
    pub(crate) fn write(&mut self, bytes: &[u8]) -> Answer<usize>
        ensures within { IsWithin result (length bytes.now) }
        ensures takes { Takes S.contents bytes.now result self.old self.new }
    {
        if !self.writable.get() {
            return Answer::Pending;
        }
        match self.stream.write(bytes) {
            Ok(taken) => {
                self.writable.set(taken == bytes.len());
                Answer::Got(taken)
            }
            Err(error) => would_wait(&self.writable, error.kind()),
        }
    }

    /// Returns whether a socket that began to connect is connected: `Pending` while the peer hasn't
    /// answered, `Failed` if connecting failed.
    pub(crate) fn answered(&self) -> Answer<()> {
        if !self.writable.get() {
            return Answer::Pending;
        }
        match self.stream.is_connected() {
            Ok(true) => Answer::Got(()),
            Ok(false) => {
                self.writable.set(false);
                Answer::Pending
            }
            Err(_) => Answer::Failed,
        }
    }
}

/// Returns the wire's answer for a read or write that ended with this kind of error. If the read or
/// write would have blocked, this is `Pending`, and `flag` is cleared: then the read or write isn't
/// tried again until the system reports something about the socket.
fn would_wait(flag: &Cell<bool>, kind: ErrorKind) -> Answer<usize>
    ensures { (result ≡ Answer.Pending) ⊎ (result ≡ Answer.Failed) }
{
    match kind {
        ErrorKind::WouldBlock => {
            flag.set(false);
            Answer::Pending
        }
        ErrorKind::Interrupted => Answer::Pending,
        _ => Answer::Failed,
    }
}
