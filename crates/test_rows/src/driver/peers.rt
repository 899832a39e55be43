//! Peers that send all their bytes at once, and a wire to them. One call that the driver makes to
//! the wire can fail.

ghost use Rattle.std.specs.Prelude.{◌≤◌, length};
ghost use Rattle.sv_serve.specs.Heard.{IsWithin};

use std::alloc::Global;
use sv_serve::{Answer, Wire};
use sv_server::{Dial, Port, Role};

/// A function of the wire that can be made to fail.
#[derive(Clone, Copy, Debug, PartialEq, Eq)]
pub(crate) enum Call {
    Accept,
    Read,
    Write,
    Dial,
    Dialed,
}

/// A peer of the core channel.
#[derive(Drop)]
pub(crate) struct Peer {
    /// The bytes that the peer sends.
    sends: Vec<u8>,
    /// How many bytes the driver has read from the peer.
    read: usize,
    /// The number of the peer's connection, as long as the connection is open.
    conn: Option<u8>,
    /// Whether the peer has connected.
    came: bool,
    /// Whether a call that the driver made to the wire for this peer failed.
    pub(crate) struck: bool,
    /// The bytes that the peer got on its connection.
    pub(crate) got: Vec<u8>,
    /// The bytes that the peer got on its interrupt channel.
    pub(crate) called: Vec<u8>,
}

impl Peer {
    /// A peer that hasn't connected yet.
    pub(crate) fn new(alloc: Global, sends: Vec<u8>) -> Peer {
        Peer {
            sends,
            read: 0,
            conn: None,
            came: false,
            struck: false,
            got: Vec::new(alloc),
            called: Vec::new(alloc),
        }
    }

    /// Copies the next bytes that the peer sends into a buffer, as many as the buffer has room for.
    fn give(&mut self, buffer: &mut [u8]) -> Answer<usize>
        ensures { IsWithin result (length buffer.old) }
    {
        let rest = self.sends.get(self.read..).unwrap_or(&[]);
        let count = rest.len().min(buffer.len());
        if count == 0 {
            return Answer::Pending;
        }
        buffer[..count].copy_from_slice(&rest[..count]);
        self.read = self.read.saturating_add(count);
        Answer::Got(count)
    }

    /// Stores the bytes that the server sends to the peer on this port.
    fn take(&mut self, port: Port, bytes: &[u8]) -> Answer<usize>
        ensures { IsWithin result (length bytes.now) }
    {
        let taken = match port {
            Port::Conn(_) => self.got.extend_from_slice(bytes),
            Port::Intr(_) => self.called.extend_from_slice(bytes),
        };
        match taken {
            Ok(()) => Answer::Got(bytes.len()),
            Err(_) => Answer::Failed,
        }
    }
}

/// A wire to peers. One call that the driver makes to the wire can fail.
#[derive(Drop)]
pub(crate) struct Peers {
    pub(crate) peers: Vec<Peer>,
    fails: Call,
    /// The next calls to the function `fails` are counted from 1; the call with this number fails.
    /// If this is 0, no further call fails.
    left: u64,
}

/// The number of the connection to which a port belongs.
fn number(port: Port) -> u8 {
    match port {
        Port::Conn(conn) => conn,
        Port::Intr(conn) => conn,
    }
}

impl Peers {
    /// Makes a wire to these peers. The driver's calls to the function `fails` are counted from 1;
    /// the call with number `left` fails.
    pub(crate) fn new(peers: Vec<Peer>, fails: Call, left: u64) -> Peers {
        Peers { peers, fails, left }
    }

    /// Whether the call that is to fail hasn't been made yet.
    pub(crate) fn is_whole(&self) -> bool {
        self.left > 0
    }

    /// Counts a call to this function of the wire, and returns whether the call fails.
    fn strikes(&mut self, call: Call) -> bool {
        if call != self.fails || self.left == 0 {
            return false;
        }
        self.left -= 1;
        self.left == 0
    }

    /// The peer whose connection has this number.
    fn peer(&mut self, conn: u8) -> Option<&mut Peer> {
        self.peers.iter_mut().find(|peer| peer.conn == Some(conn))
    }

    /// Counts a call to this function of the wire for the peer of this connection. Returns whether
    /// the call fails. If it fails, marks the peer as struck.
    fn strikes_at(&mut self, call: Call, conn: u8) -> bool {
        let fails = self.strikes(call);
        if fails {
            if let Some(peer) = self.peer(conn) {
                peer.struck = true;
            }
        }
        fails
    }

    /// Connects the next peer, as the connection with this number. Returns false if all peers have
    /// already connected.
    fn come(&mut self, conn: u8) -> bool {
        match self.peers.iter_mut().find(|peer| !peer.came) {
            Some(peer) => {
                peer.came = true;
                peer.conn = Some(conn);
                true
            }
            None => false,
        }
    }
}

impl Wire for Peers {
    fn accept(&mut self, role: Role, conn: Option<u8>) -> Answer<()> {
        if self.strikes(Call::Accept) {
            return Answer::Failed;
        }
        let came = match (role, conn) {
            (Role::Core, Some(conn)) => self.come(conn),
            _ => false,
        };
        if came {
            Answer::Got(())
        } else {
            Answer::Pending
        }
    }

    fn read(&mut self, conn: u8, buffer: &mut [u8]) -> Answer<usize> {
        if self.strikes_at(Call::Read, conn) {
            return Answer::Failed;
        }
        match self.peer(conn) {
            Some(peer) => peer.give(buffer),
            None => Answer::Failed,
        }
    }

    fn probe(&mut self, _conn: u8, _drops: bool) -> Answer<()> {
        Answer::Pending
    }

    fn write(&mut self, port: Port, bytes: &[u8]) -> Answer<usize> {
        if self.strikes_at(Call::Write, number(port)) {
            return Answer::Failed;
        }
        match self.peer(number(port)) {
            Some(peer) => peer.take(port, bytes),
            None => Answer::Failed,
        }
    }

    fn dial(&mut self, conn: u8, _dial: Dial) -> Answer<()> {
        if self.strikes_at(Call::Dial, conn) {
            return Answer::Failed;
        }
        Answer::Pending
    }

    fn dialed(&mut self, conn: u8) -> Answer<()> {
        if self.strikes_at(Call::Dialed, conn) {
            return Answer::Failed;
        }
        Answer::Got(())
    }

    fn close(&mut self, port: Port) {
        match port {
            Port::Conn(conn) => {
                if let Some(peer) = self.peer(conn) {
                    peer.conn = None;
                }
            }
            Port::Intr(_) => {}
        }
    }
}
