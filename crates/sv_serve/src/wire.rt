//! A wire carries bytes over sockets; in a test, lists of answers take the place of the sockets.

ghost use Rattle.std.specs.Prelude.{length, option_map};

use sv_server::{Dial, Port, Role};

/// What a wire's method returns. The method doesn't wait.
#[derive(Clone, Copy, Debug)]
pub enum Answer<T> {
    /// The method succeeded, with this result.
    Got(T),
    /// There is no result yet: the caller has to call the method again later.
    Pending,
    /// The method failed, or the stream came to its end.
    Failed,
}

/// What carries the bytes of connections and interrupt channels. No method of a wire blocks.
pub trait Wire {
    ghost use Rattle.sv_serve.specs.Heard.{Heard, WasAccepted, WasRead, WasProbed, WasWritten, WasDialed, PeerAnswered, WasClosed, bytes_of, IsWithin};
    ghost use Rattle.std.specs.Prelude.{⊤};

    /// How a call of a method, with the method's answer, changes the wire. By default this relation
    /// says nothing: a wire needn't define the relation.
    ghost hears: { Self → Heard → Self → Type 0 } = { λ before heard after. ⊤ };

    /// Accepts a connection of this role under the number `conn`; or, if `conn` is `None`, accepts
    /// a connection and drops it.
    fn accept(&mut self, role: Role, conn: Option<u8>) -> Answer<()>
        ensures { hears self.old (WasAccepted role conn result) self.new };

    /// Reads bytes of a connection into `buffer`, at most as many as fit in it.
    fn read(&mut self, conn: u8, buffer: &mut [u8]) -> Answer<usize>
        ensures within { IsWithin result (length buffer.old) }
        ensures heard { let answer = bytes_of result buffer.new in
            hears self.old (WasRead conn (length buffer.old) answer) self.new };

    /// Asks whether a connection's peer is gone, while the connection isn't read because it has no
    /// room. The answer is `Failed` if the connection was reset, or closed in both directions. With
    /// `drops`, bytes that come are read and discarded, and the answer is also `Failed` at the end
    /// of the stream.
    fn probe(&mut self, conn: u8, drops: bool) -> Answer<()>
        ensures { hears self.old (WasProbed conn drops result) self.new };

    /// Writes bytes to a connection or an interrupt channel, and returns how many of these bytes
    /// the wire took.
    fn write(&mut self, port: Port, bytes: &[u8]) -> Answer<usize>
        ensures within { IsWithin result (length bytes.now) }
        ensures heard { hears self.old (WasWritten port bytes.now result) self.new };

    /// Begins to connect the interrupt channel of a connection to its peer.
    fn dial(&mut self, conn: u8, dial: Dial) -> Answer<()>
        ensures { hears self.old (WasDialed conn dial result) self.new };

    /// Asks whether the peer that was dialed for a connection has answered.
    fn dialed(&mut self, conn: u8) -> Answer<()>
        ensures { hears self.old (PeerAnswered conn result) self.new };

    /// Closes the socket of a connection or an interrupt channel.
    fn close(&mut self, port: Port)
        ensures { hears self.old (WasClosed port) self.new };
}
