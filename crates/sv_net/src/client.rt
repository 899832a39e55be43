//! A client of the control port.

ghost use Rattle.std.specs.Prelude.{IfSome, ◌<◌};
ghost use Rattle.sv_replay.specs.Entry.{IsAccepted};

use crate::buffer::Buffer;
use crate::socket::Socket;
use crate::stream::Stream;
use mio::event::Event as Report;
use mio::{Registry, Token};
use std::io;
use sv_replay::{Stimulus, read_stimulus};
use sv_serve::Answer;

/// The answer to a line whose stimulus is handed in.
const OK: &[u8] = b"ok\n";
/// The answer to any other line. No answer is longer.
const BAD_LINE: &[u8] = b"bad line\n";

/// A client: its socket, the bytes that came from it, and the answers that weren't sent yet.
///
/// A line is taken only while its answer fits, and bytes are read only while they fit. So a client
/// that reads no answers isn't read any more.
#[derive(Drop)]
pub(crate) struct Client<S: Stream> {
    socket: Socket<S>,
    /// The bytes that came and weren't taken yet.
    input: Buffer,
    /// The answers that weren't sent yet.
    output: Buffer,
    /// Whether the first bytes of a line were dropped, since the line is too long.
    is_cut: bool,
    /// Whether no more bytes come.
    has_ended: bool,
    /// Whether a write failed.
    has_failed: bool,
}

impl<S: Stream> Client<S> {
    /// Makes the client of a connection that was accepted, and registers its socket for the
    /// system's reports. Each report about the socket then has this token.
    ///
    /// # Errors
    /// If the socket can't be registered.
    pub(crate) fn accepted(stream: S, registry: &Registry, token: Token) -> io::Result<Client<S>> {
        let mut socket = Socket::connected(stream);
        socket.register(registry, token)?;
        Ok(Client {
            socket,
            input: Buffer::new(),
            output: Buffer::new(),
            is_cut: false,
            has_ended: false,
            has_failed: false,
        })
    }

    /// Records a report of the system about the client's socket.
    pub(crate) fn report(&self, event: &Report) {
        self.socket.report(event);
    }

    /// Serves the client once: sends answers, reads bytes and takes a line. Returns the line's
    /// stimulus, if it has one.
    pub(crate) fn serve(&mut self) -> Option<Stimulus>
        ensures { IfSome result IsAccepted }
    {
        self.send();
        self.fill();
        let stimulus = self.take();
        self.send();
        stimulus
    }

    /// Sends answers that wait.
    fn send(&mut self) {
        let bytes = self.output.bytes();
        if bytes.is_empty() {
            return;
        }
        match self.socket.write(bytes) {
            Answer::Got(count) => self.output.drop_front(count),
            Answer::Pending => {}
            Answer::Failed => self.has_failed = true,
        }
    }

    /// Reads bytes, if some fit.
    fn fill(&mut self) {
        if self.has_ended || self.input.room() == 0 {
            return;
        }
        match self.input.read(&mut self.socket) {
            Answer::Got(_) => {}
            Answer::Pending => {}
            Answer::Failed => self.has_ended = true,
        }
    }

    /// Takes the next line, if it is complete and its answer fits. Returns the line's stimulus, if
    /// it has one. Drops the input, if it is full and has no complete line.
    fn take(&mut self) -> Option<Stimulus>
        ensures { IfSome result IsAccepted }
    {
        if self.output.room() < BAD_LINE.len() {
            return None;
        }
        match self.input.whole_line() {
            Some(len) => self.take_line(len),
            None => {
                self.cut();
                None
            }
        }
    }

    /// Takes the next line, which has this length, and answers it. Returns the line's stimulus, if
    /// it has one.
    fn take_line(&mut self, len: usize) -> Option<Stimulus>
        requires { len < self.old.input }
        ensures { IfSome result IsAccepted }
    {
        let stimulus = if self.is_cut {
            None
        } else {
            read_stimulus(self.input.line(len))
        };
        self.is_cut = false;
        self.input.drop_line(len);
        match stimulus {
            Some(_) => self.output.append(OK),
            None => self.output.append(BAD_LINE),
        }
        stimulus
    }

    /// If the input is full, drops it: the line is too long.
    fn cut(&mut self) {
        if self.input.room() == 0 {
            self.input.clear();
            self.is_cut = true;
        }
    }

    /// Whether [`serve`](Client::serve) has something to do even if no report comes.
    pub(crate) fn is_busy(&self) -> bool {
        let takes = self.input.whole_line().is_some() || self.input.room() == 0;
        let reads = !self.has_ended && self.input.room() > 0 && self.socket.is_readable();
        let sends = !self.output.bytes().is_empty() && self.socket.is_writable();
        takes && self.output.room() >= BAD_LINE.len() || reads || sends || self.is_done()
    }

    /// Whether the client can be dropped: its socket is broken; or it sends no more, and all its
    /// lines are answered.
    pub(crate) fn is_done(&self) -> bool {
        let rests = self.output.bytes().is_empty() && self.input.whole_line().is_none();
        self.has_failed || self.socket.is_broken() || self.has_ended && rests
    }
}
