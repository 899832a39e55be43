//! The server joins the connections and the device. An event is refused or applied; then the steps
//! that are due are taken.

ghost use Rattle.std.specs.Prelude.{◌≡◌, ◌<◌, ◌≤◌, ◌++◌, ℕ, not, List, [], length, slice_index_or, true, false, if◌then◌else◌, MatchOption, MatchResult, Some, None, IfOk, OnErr};
ghost use Rattle.sv_history.specs.declared.event.Config.{Config};
ghost use Rattle.sv_links.specs.Channels.{ChannelAct};
ghost use Rattle.sv_history.specs.Event.{PlainEvent, Open, Bytes, Turn, Refuse, Took, Close, Input, External, Tick, plain, IsEvent};
ghost use Rattle.sv_links.specs.Waiting.{waits};
ghost use Rattle.sv_history.specs.Act.{Act, of, device_acts, wait_acts};
ghost use Rattle.sv_history.specs.Connection.{is_open, waiting_on, room, is_idle, is_overlong, is_faulted};
ghost use Rattle.sv_history.specs.History.{abort_acts, is_shut, is_port_shut, IsLogOf, Answers, history_after};
ghost use Rattle.sv_history.specs.Requests.{HearsOf};
ghost use Rattle.sv_history.specs.Queries.{Answered, Decided, WaitOn, IsUsed};
ghost use Rattle.sv_history.specs.Still.{IsStill};
ghost use Rattle.sv_history.specs.Limits.{max_output};
ghost use Rattle.sv_server.specs.Connection.Representation.{Connection as KeptConnection, IsConnection};
ghost use Rattle.sv_server.specs.Server.State.{Represents, StandsFor};
ghost use Rattle.sv_server.specs.Server.Inside.Acting.{Acts};

pub mod dialing;
pub mod execution;
pub mod input_check;
pub mod refusing;
pub mod resuming;
pub mod settling;
pub mod turn;

use crate::conn::{CONNECTIONS, Conn};
use crate::connection::Connection;
use crate::device::Device;
use crate::server::input_check::may_input;
use crate::server::refusing::refuse;
use crate::server::settling::is_quiet;
use crate::server::turn::turn;
use std::alloc::{AllocError, Allocator, Global};
use std::marker::Model;
use sv_history::{Config, Did, Event, Port, Refused, Role};
use sv_vxi::ErrorCode;

/// One simulated instrument, and all connections of its clients.
#[derive(Drop)]
pub struct Server<A: Allocator = Global> {
    pub(crate) connections: Vec<Connection<A>, A>,
    pub(crate) device: Device<A>,
    /// The highest number of a connection that was ever opened, plus 1; 0 if no connection was ever
    /// opened.
    pub(crate) connections_used: u8,
}

impl<A: Allocator> Model for Server<A> {
    ghost use Rattle.sv_server.specs.Server.State.{State};

    ghost Value = { State };

    ghost use Rattle.std.specs.Prelude.{◌≡◌, length};

    ghost view = { λ a. record {
      connections = a.connections.items;
      device = a.device;
      connections_used = a.connections_used;
    } };

    ghost invariant = { λ a. length a.connections.items ≡ 16 };
}

/// Makes sixteen connections, none of them open.
fn connections<A: Allocator + Copy>(alloc: A) -> Result<Vec<Connection<A>, A>, AllocError>
    ensures { IfOk result (λ connections. (length connections.items ≡ 16)
        × ((c : ℕ) (other : KeptConnection) → c < 16
        → IsConnection (slice_index_or connections.items c other) [])) }
{
    let mut connections = Vec::with_capacity(alloc, CONNECTIONS)?;
    for _ in 0..CONNECTIONS {
        connections.push(Connection::new(alloc)?)?;
    }
    Ok(connections)
}

impl<A: Allocator> Server<A> {
    /// Makes a server with an empty history. Allocates all the memory that the server ever uses,
    /// except the memory for links and interrupt channels.
    ///
    /// # Errors
    /// If memory is refused.
    pub fn new(alloc: A, config: Config) -> Result<Server<A>, AllocError>
    where
        A: Copy,
        requires { config.clock ≤ 9223372036854775807 }
        ensures { IfOk result (λ server. StandsFor server config []) }
    {
        Ok(Server {
            connections: connections(alloc)?,
            device: Device::new(alloc, config)?,
            connections_used: 0,
        })
    }

    /// The bytes that wait to be sent on a port, with the oldest byte first; none if the port isn't
    /// open.
    pub fn waiting(&self, port: Port) -> &[u8]
        ensures waiting { (config : Config) (history : List PlainEvent)
            → StandsFor self.now config history → WaitOn port config history result.now }
        ensures bounded { length result.now ≤ max_output }
    {
        self.outgoing(port)
    }

    /// The bytes that wait to be sent on a port, the oldest first; none if the port isn't open.
    pub(crate) fn outgoing(&self, port: Port) -> &[u8]
        ensures exact { (config : Config) (log : List Act) (channel_log : List ChannelAct)
            → Represents self.now config log → HearsOf (device_acts log) channel_log
            → result.now ≡ waiting_on channel_log port log }
        ensures bounded { length result.now ≤ max_output }
    {
        match port {
            Port::Conn(conn) => match self.connection(conn) {
                Some(connection) => connection.waiting(),
                None => &[],
            },
            Port::Intr(conn) => self.sent(conn),
        }
    }

    /// How many more incoming bytes a connection has room for; 0 if the connection isn't open.
    pub fn room(&self, conn: u8) -> u32
        ensures { (config : Config) (history : List PlainEvent) → StandsFor self.now config history
            → Answered (λ log. room (of conn log)) config history result }
    {
        match self.connection(conn) {
            Some(connection) => connection.room() as u32,
            None => 0,
        }
    }

    /// Whether a connection or an interrupt channel is open. A number above 15 is never open.
    pub fn is_open(&self, port: Port) -> bool
        ensures { (config : Config) (history : List PlainEvent) → StandsFor self.now config history
            → Answered (λ log. not (is_port_shut port log)) config history result }
    {
        match port {
            Port::Conn(conn) => self.is_connected(conn),
            Port::Intr(conn) => self.has_channel(conn),
        }
    }

    /// Whether the connection of this number is open.
    fn is_connected(&self, conn: u8) -> bool
        ensures { (config : Config) (log : List Act) → Represents self.now config log
            → result ≡ not (is_shut conn log) }
    {
        match self.connection(conn) {
            Some(connection) => connection.is_open(),
            None => false,
        }
    }

    /// Whether a Turn of this connection would find a call to take. A Turn that finds a call is
    /// still refused if the output has too little room for the longest reply.
    pub fn ready(&self, conn: u8) -> bool
        ensures { (config : Config) (history : List PlainEvent) → StandsFor self.now config history
            → Answered (λ log. not (is_idle (of conn log))) config history result }
    {
        match self.connection(conn) {
            Some(connection) => !connection.is_idle(),
            None => false,
        }
    }

    /// Whether the connection is at fault, so that it can only be closed: a record was taken that
    /// isn't a call; or a record came that is too long, and all records before that record are
    /// finished.
    pub fn faulted(&self, conn: u8) -> bool
        ensures { (config : Config) (history : List PlainEvent) → StandsFor self.now config history
            → Answered (λ log. is_faulted (of conn log)) config history result }
    {
        match self.connection(conn) {
            Some(connection) => connection.is_faulted(),
            None => false,
        }
    }

    /// Whether a record that is too long came on the connection. From then on the connection has no
    /// room for bytes. Complete records before the long one are still executed.
    pub fn overlong(&self, conn: u8) -> bool
        ensures { (config : Config) (history : List PlainEvent) → StandsFor self.now config history
            → Answered (λ log. is_overlong (of conn log)) config history result }
    {
        match self.connection(conn) {
            Some(connection) => connection.is_overlong(),
            None => false,
        }
    }

    /// The highest number of a connection that was ever opened, plus 1; 0 if no connection was ever
    /// opened. Connections with this number or a higher number were never opened.
    pub fn connections_used(&self) -> u8
        ensures { (config : Config) (history : List PlainEvent) → StandsFor self.now config history
            → (log : List Act) × IsLogOf config history log × IsUsed result log }
    {
        self.connections_used
    }

    /// Whether nothing becomes due within this number of milliseconds: no scan is under way, and no
    /// suspended call reaches its deadline. Unless another event happens, these milliseconds change
    /// only the clock.
    pub fn is_still(&self, ticks: u32) -> bool
        ensures { (config : Config) (history : List PlainEvent) → StandsFor self.now config history
            → Decided (λ log. IsStill ticks config (device_acts log)) config history result }
    {
        self.device.is_still(ticks)
    }

    /// The connection of this number; `None` if the number is above 15. No history has acts of a
    /// connection with a number above 15.
    pub(crate) fn connection(&self, conn: u8) -> Option<&Connection<A>>
        ensures { (config : Config) (log : List Act) → Represents self.now config log
            → MatchOption result (of conn log ≡ [])
            (λ connection. IsConnection connection.now (of conn log)) }
    {
        let conn = Conn::new(conn)?;
        Some(&self.connections[conn.index()])
    }

    /// The open connection of this number, and its role; `NoConn` if no connection of this number
    /// is open.
    pub(crate) fn open_connection(&self, conn: u8) -> Result<(Conn, Role), Refused>
        ensures answer { (config : Config) (log : List Act) → Represents self.now config log
            → MatchResult result (λ found. is_shut conn log ≡ false)
            (λ refused. (refused ≡ Refused.NoConn) × (is_shut conn log ≡ true)) }
        ensures same { IfOk result (λ found. found.0.number ≡ conn) }
        ensures role { IfOk result (λ found. (other : KeptConnection)
            → (slice_index_or self.now.connections conn other).role ≡ Some found.1) }
    {
        let Some(number) = Conn::new(conn) else {
            return Err(Refused::NoConn);
        };
        match self.connections[number.index()].role() {
            Some(role) => Ok((number, role)),
            None => Err(Refused::NoConn),
        }
    }

    /// Opens a connection.
    fn open(&mut self, conn: u8, role: Role) -> Result<Did, Refused>
        ensures acts { (config : Config) (log : List Act) → Represents self.old config log
            → Acts config (Open conn role) log result self.new }
        ensures err { OnErr result (self.new ≡ self.old) }
    {
        let Some(conn) = Conn::new(conn) else {
            return Err(Refused::NoConn);
        };
        let connection = &mut self.connections[conn.index()];
        if connection.is_open() {
            return Err(Refused::ConnInUse);
        }
        connection.open(role);
        self.connections_used = self.connections_used.max(conn.number + 1);
        Ok(Did::Done)
    }

    /// Stores bytes that came on a connection.
    fn bytes(&mut self, conn: u8, piece: &[u8]) -> Result<Did, Refused>
        ensures within { IsEvent (Bytes conn piece.now) }
        ensures acts { (config : Config) (log : List Act) → Represents self.old config log
            → Acts config (Bytes conn piece.now) log result self.new }
        ensures err { OnErr result (self.new ≡ self.old) }
    {
        let (conn, _) = self.open_connection(conn)?;
        let connection = &mut self.connections[conn.index()];
        if connection.room() < piece.len() {
            return Err(Refused::NoRoom);
        }
        connection.push(piece);
        Ok(Did::Done)
    }

    /// Drops the first `count` bytes that wait to be sent on a connection, because the peer took
    /// them.
    fn took(&mut self, conn: u8, count: u32) -> Result<Did, Refused>
        ensures acts { (config : Config) (log : List Act) → Represents self.old config log
            → Acts config (Took (Port.Conn conn) count) log result self.new }
        ensures err { OnErr result (self.new ≡ self.old) }
    {
        let (conn, _) = self.open_connection(conn)?;
        let connection = &mut self.connections[conn.index()];
        if connection.waiting().len() < count as usize {
            return Err(Refused::NotSent);
        }
        connection.took(count as usize);
        Ok(Did::Done)
    }

    /// Closes a connection: destroys its links, closes its interrupt channel, and drops its
    /// suspended call and the bytes that came or wait to be sent.
    fn close(&mut self, conn: u8) -> Result<Did, Refused>
        ensures acts { (config : Config) (log : List Act) → Represents self.old config log
            → Acts config (Close (Port.Conn conn)) log result self.new }
        ensures err { OnErr result (self.new ≡ self.old) }
    {
        let (conn, _) = self.open_connection(conn)?;
        let connection = &mut self.connections[conn.index()];
        connection.close();
        self.device.close_connection(conn);
        Ok(Did::Done)
    }

    /// Lets a millisecond pass.
    fn tick(&mut self) -> Result<Did, Refused>
        ensures acts { (config : Config) (log : List Act) → Represents self.old config log
            → Acts config Tick log result self.new }
        ensures err { OnErr result (self.new ≡ self.old) }
    {
        if self.device.is_at_end() {
            return Err(Refused::TimeOver);
        }
        self.device.tick();
        Ok(Did::Done)
    }

    /// Sets the simulated voltage at the input of a channel.
    fn input(&mut self, channel: u8, microvolts: i64) -> Result<Did, Refused>
        ensures acts { (config : Config) (log : List Act) → Represents self.old config log
            → Acts config (Input channel microvolts) log result self.new }
        ensures err { OnErr result (self.new ≡ self.old) }
    {
        let did = may_input(channel, microvolts)?;
        self.device.input(channel, microvolts);
        Ok(did)
    }

    /// Applies a trigger at the trigger input.
    fn external(&mut self) -> Result<Did, Refused>
        ensures acts { (config : Config) (log : List Act) → Represents self.old config log
            → Acts config External log result self.new }
        ensures err { OnErr result (self.new ≡ self.old) }
    {
        self.device.external();
        Ok(Did::Done)
    }

    /// Takes the next call of a connection and executes it.
    fn turn(&mut self, conn: u8) -> Result<Did, Refused>
        ensures acts { (config : Config) (log : List Act) → Represents self.old config log
            → Acts config (Turn conn) log result self.new }
        ensures err { OnErr result (self.new ≡ self.old) }
    {
        let (conn, role) = self.open_connection(conn)?;
        let connection = &mut self.connections[conn.index()];
        let (did, aborted) = turn(connection, &mut self.device, conn, role)?;
        self.abort(aborted);
        Ok(did)
    }

    /// Takes the next call of a connection, and answers it with error 9 (out of resources) without
    /// executing it.
    fn refuse(&mut self, conn: u8) -> Result<Did, Refused>
        ensures acts { (config : Config) (log : List Act) → Represents self.old config log
            → Acts config (Refuse conn) log result self.new }
        ensures err { OnErr result (self.new ≡ self.old) }
    {
        let (conn, role) = self.open_connection(conn)?;
        let connection = &mut self.connections[conn.index()];
        refuse(connection, role)?;
        Ok(Did::Done)
    }

    /// Ends the suspended call of connection `aborted`, because a device_abort aborts that call.
    /// Does nothing if `aborted` is `None`.
    fn abort(&mut self, aborted: Option<u8>)
        ensures { (config : Config) (log : List Act) → Represents self.old config log
            → ((conn : ℕ) → aborted ≡ Some conn → waits conn (wait_acts (device_acts log)) ≡ None
            → ⊥)
            → Represents self.new config (abort_acts aborted log ++ log) }
    {
        let Some(number) = aborted else {
            return;
        };
        if let Some(conn) = Conn::new(number) {
            self.give_up(conn, ErrorCode::Abort);
        }
    }

    /// Drops the first `count` bytes that wait to be sent on a port, because the peer took them.
    pub(crate) fn port_took(&mut self, port: Port, count: u32) -> Result<Did, Refused>
        ensures acts { (config : Config) (log : List Act) → Represents self.old config log
            → Acts config (Took port count) log result self.new }
        ensures err { OnErr result (self.new ≡ self.old) }
    {
        match port {
            Port::Conn(conn) => self.took(conn, count),
            Port::Intr(conn) => self.channel_took(conn, count),
        }
    }

    /// Closes a port: a connection or an interrupt channel.
    fn close_port(&mut self, port: Port) -> Result<Did, Refused>
        ensures acts { (config : Config) (log : List Act) → Represents self.old config log
            → Acts config (Close port) log result self.new }
        ensures err { OnErr result (self.new ≡ self.old) }
    {
        match port {
            Port::Conn(conn) => self.close(conn),
            Port::Intr(conn) => self.close_channel(conn),
        }
    }

    /// Applies an event, but doesn't take the steps that are due after it.
    #[inline(always)]
    pub(crate) fn act(&mut self, event: Event<'_>) -> Result<Did, Refused>
        ensures within { IsEvent (plain event.entry) }
        ensures acts { (config : Config) (log : List Act) → Represents self.old config log
            → Acts config (plain event.entry) log result self.new }
        ensures err { OnErr result (self.new ≡ self.old) }
    {
        match event {
            Event::Open { conn, role } => self.open(conn, role),
            Event::Bytes { conn, piece } => self.bytes(conn, piece),
            Event::Turn { conn } => self.turn(conn),
            Event::Refuse { conn } => self.refuse(conn),
            Event::Took { port, count } => self.port_took(port, count),
            Event::Close { port } => self.close_port(port),
            Event::Dialed { conn, ok } => self.dialed(conn, ok),
            Event::Input {
                channel,
                microvolts,
            } => self.input(channel, microvolts),
            Event::External => self.external(),
            Event::Tick => self.tick(),
        }
    }

    /// Applies an event, or refuses it; a refused event changes nothing.
    ///
    /// # Errors
    /// The first check that fails decides. The check for `NoConn` comes first: it fails if an Open
    /// has a number above 15, or if another event names a connection or an interrupt channel that
    /// isn't open. After that check, an Open can fail with `ConnInUse`, Bytes with `NoRoom`, a Took
    /// with `NotSent`, and a Dialed with `NoDial`. A Turn that finds a call fails with `NoRoom` if
    /// there is room for fewer than 8,232 bytes of replies. A Refuse can fail with `NotRefusable`,
    /// or else with `NoRoom` like a Turn. An Input can fail with `BadChannel`, or else with
    /// `BadInput`. A Tick can fail with `TimeOver`.
    ///
    /// If no check fails, a Turn may still be refused with `NoMemory`, but only if its call makes a
    /// link, waits for the lock to make a link, or asks for an interrupt channel. The same Turn may
    /// be tried again.
    #[inline(always)]
    pub fn apply(&mut self, event: Event<'_>) -> Result<Did, Refused>
        ensures answers { (config : Config) (history : List PlainEvent)
            → StandsFor self.old config history
            → (log : List Act) × IsLogOf config history log
            × Answers config (plain event.entry) log result }
        ensures stands { (config : Config) (history : List PlainEvent)
            → StandsFor self.old config history
            → StandsFor self.new config (history_after (plain event.entry) result history) }
        ensures err { OnErr result (self.new ≡ self.old) }
    {
        let quiet = is_quiet(event);
        let did = self.act(event)?;
        self.settle_unless(quiet);
        Ok(did)
    }
}
