//! A few bytes: the input of a client of the control port, or the answers to it.

ghost use Rattle.std.specs.Prelude.{IfSome, length, ◌≤◌, ◌<◌, ◌≡◌, ◌-◌};

use crate::socket::Socket;
use crate::stream::Stream;
use std::marker::Model;
use sv_serve::Answer;

/// How many bytes fit.
const ROOM: usize = 256;

/// At most 256 bytes.
#[derive(Drop)]
pub(crate) struct Buffer {
    bytes: [u8; ROOM],
    len: usize,
}

/// As a value, how many bytes there are.
impl Model for Buffer {
    ghost use Rattle.std.specs.Prelude.{ℕ, ◌≤◌, ◌≡◌, length};

    ghost Value = { ℕ };

    ghost view = { λ a. a.len };

    ghost invariant = { λ a. (a.len ≤ 256) × (length a.bytes ≡ 256) };
}

impl Buffer {
    /// Makes a buffer without bytes.
    pub(crate) fn new() -> Buffer
        ensures { result ≡ 0 }
    {
        Buffer {
            bytes: [0; ROOM],
            len: 0,
        }
    }

    /// Returns the bytes.
    pub(crate) fn bytes(&self) -> &[u8]
        ensures { (length result.now ≡ self.now) × (self.now ≤ 256) }
    {
        &self.bytes[..self.len]
    }

    /// Returns how many further bytes fit.
    pub(crate) fn room(&self) -> usize {
        ROOM - self.len
    }

    /// Reads bytes from a socket, at most as many as fit.
    pub(crate) fn read<S: Stream>(&mut self, socket: &mut Socket<S>) -> Answer<usize> {
        let answer = socket.read(&mut self.bytes[self.len..]);
        match answer {
            Answer::Got(count) => self.len += count,
            Answer::Pending => {}
            Answer::Failed => {}
        }
        answer
    }

    /// Drops the first bytes, `count` of them.
    pub(crate) fn drop_front(&mut self, count: usize)
        requires { count ≤ self.old }
        ensures { self.new ≡ self.old - count }
    {
        self.bytes.copy_within(count..self.len, 0);
        self.len -= count;
    }

    /// Drops the first line, which has this length without its newline, and the newline.
    pub(crate) fn drop_line(&mut self, len: usize)
        requires { len < self.old }
    {
        let kept = self.len - len - 1;
        self.drop_front(self.len - kept);
    }

    /// Drops all bytes.
    pub(crate) fn clear(&mut self)
        ensures { self.new ≡ 0 }
    {
        self.len = 0;
    }

    /// Appends bytes, if all of them fit.
    pub(crate) fn append(&mut self, bytes: &[u8]) {
        if bytes.len() <= ROOM - self.len {
            let end = self.len + bytes.len();
            self.bytes[self.len..end].copy_from_slice(bytes);
            self.len = end;
        }
    }

    /// Returns the length of the first line, without its newline; `None` if its newline hasn't
    /// come.
    pub(crate) fn whole_line(&self) -> Option<usize>
        ensures { IfSome result (λ len. len < self.now) }
    {
        self.bytes().iter().position(|byte| *byte == b'\n')
    }

    /// Returns the first bytes, `len` of them, without the carriage return at their end, if they
    /// have one.
    pub(crate) fn line(&self, len: usize) -> &[u8]
        requires { len ≤ self.now }
    {
        match &self.bytes[..len] {
            [front @ .., b'\r'] => front,
            line => line,
        }
    }
}
