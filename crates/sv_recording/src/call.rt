//! A call of a wire's method, with its answer.

use sv_serve::Answer;
use sv_server::{Dial, Port, Role};

/// One call of a wire's method, with its answer.
#[derive(Drop)]
pub enum Call {
    /// An accept: whether a connection of this role was accepted, under the number `conn`. If
    /// `conn` is `None`, an accepted connection is dropped at once.
    Accept {
        role: Role,
        conn: Option<u8>,
        answer: Answer<()>,
    },
    /// A read: the bytes that were read from a connection, and how many bytes the read could return
    /// at most.
    Read {
        conn: u8,
        most: usize,
        answer: Answer<Vec<u8>>,
    },
    /// A probe: whether a connection's peer is gone, while the connection isn't read. With `drops`,
    /// bytes that came were discarded.
    Probe {
        conn: u8,
        drops: bool,
        answer: Answer<()>,
    },
    /// A write: the bytes for a port, and how many of them the wire took.
    Write {
        port: Port,
        bytes: Vec<u8>,
        answer: Answer<usize>,
    },
    /// A dial: what the wire answered when it was told to dial this peer for the interrupt channel
    /// of a connection.
    Dial {
        conn: u8,
        dial: Dial,
        answer: Answer<()>,
    },
    /// Whether the peer that was dialed for a connection's interrupt channel has answered.
    Dialed {
        conn: u8,
        answer: Answer<()>,
    },
    /// A port was closed.
    Close {
        port: Port,
    },
}
