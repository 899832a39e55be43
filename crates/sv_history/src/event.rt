//! Events, and the server's answers to them.

use thiserror::Error;

/// The program that a connection serves.
#[derive(Clone, Copy, Debug)]
pub enum Role {
    /// The core channel.
    Core,
    /// The abort channel.
    Abort,
    /// The port mapper.
    Portmap,
}

/// Where the server sends bytes: a connection, or the interrupt channel of a connection.
#[derive(Clone, Copy, Debug)]
pub enum Port {
    /// The connection of this number.
    Conn(u8),
    /// The interrupt channel of the connection of this number.
    Intr(u8),
}

/// What happens to the server.
#[derive(Clone, Copy)]
pub enum Event<'a> {
    /// A connection opens.
    Open {
        /// The connection's number, 0 to 15.
        conn: u8,
        /// The connection's role.
        role: Role,
    },
    /// Bytes come on a connection.
    Bytes {
        /// The connection's number.
        conn: u8,
        /// The bytes, at most as many as the connection has room for.
        piece: &'a [u8],
    },
    /// The server takes the next call of a connection.
    Turn {
        /// The connection's number.
        conn: u8,
    },
    /// The server refuses the next call of a connection: it answers error 9, out of resources.
    Refuse {
        /// The connection's number.
        conn: u8,
    },
    /// The peer took bytes that waited to be sent.
    Took {
        /// The port on which the bytes waited.
        port: Port,
        /// How many bytes the peer took.
        count: u32,
    },
    /// A connection or an interrupt channel closes.
    Close {
        /// The port that closes.
        port: Port,
    },
    /// The driver's attempt to connect an interrupt channel to its peer has ended.
    Dialed {
        /// The number of the channel's connection.
        conn: u8,
        /// Whether the attempt succeeded, so that the channel opens.
        ok: bool,
    },
    /// The input of a channel changes.
    Input {
        /// The channel, 1 to [`CHANNELS`](sv_errors::CHANNELS).
        channel: u8,
        /// The voltage in microvolts, within plus or minus 1,000,000,000.
        microvolts: i64,
    },
    /// A trigger comes at the trigger input.
    External,
    /// A millisecond passes.
    Tick,
}

/// What an event that wasn't refused did.
#[derive(Clone, Copy)]
pub enum Did {
    /// The event was applied.
    Done,
    /// Nothing: a Turn found no call to take.
    Idle,
}

/// The configuration of a server.
#[derive(Clone, Copy)]
pub struct Config {
    /// The TCP port of the core channel.
    pub core: u16,
    /// The TCP port of the abort channel.
    pub abort: u16,
    /// What the clock shows when the server starts, in milliseconds, at most
    /// 9,223,372,036,854,775,807.
    pub clock: u64,
}

/// Where to connect an interrupt channel to: its peer's address and port.
#[derive(Clone, Copy, Debug)]
pub struct Dial {
    /// The IPv4 address as a number, with its first byte as the most significant one.
    pub addr: u32,
    /// The TCP port.
    pub port: u16,
}

/// Why an event was refused. A refused event changed nothing, and isn't in the history. A replay
/// prints the number of the refusal, which is `refused as u8`.
#[derive(Clone, Copy, Debug, Error)]
pub enum Refused {
    /// The server got no memory for a link or an interrupt channel.
    #[error("no memory was left")]
    NoMemory = 1,
    /// The connection's number is in use.
    #[error("the connection is open already")]
    ConnInUse = 2,
    /// The number is above 15, or the connection or interrupt channel that the event names isn't
    /// open.
    #[error("there is no such connection")]
    NoConn = 3,
    /// A Bytes event has more bytes than the connection has room for; or, at a Turn or a Refuse,
    /// there is room for fewer than 8,232 bytes of replies.
    #[error("there is no room")]
    NoRoom = 4,
    /// A Took event has more bytes than waited to be sent.
    #[error("so many bytes were not sent")]
    NotSent = 5,
    /// No create_intr_chan of the connection is suspended.
    #[error("nothing is being dialed")]
    NoDial = 6,
    /// The connection has no next call that can be refused: only a create_link or a
    /// create_intr_chan can be refused.
    #[error("the next call can't be refused")]
    NotRefusable = 7,
    /// The instrument has no channel of this number.
    #[error("there is no such channel")]
    BadChannel = 8,
    /// The voltage is beyond plus or minus 1,000,000,000 microvolts.
    #[error("the voltage is out of range")]
    BadInput = 9,
    /// The clock is at its last value, 9,223,372,036,854,775,807.
    #[error("the clock is at its end")]
    TimeOver = 10,
}
