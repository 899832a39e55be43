//! The interrupt channels of the server: which channels the server's driver has to connect, and
//! which bytes wait to be sent on the open channels.

ghost use Rattle.std.specs.Prelude.{◌≡◌, ◌≤◌, not, List, length, MatchResult, IfOk, OnErr, Some, None, nat_lt, true, false, if◌then◌else◌};
ghost use Rattle.sv_vxi.specs.Reading.{plain_arguments};
ghost use Rattle.sv_links.specs.Channels.{ChannelAct, waiting as channel_bytes};
ghost use Rattle.sv_history.specs.declared.event.Config.{Config};
ghost use Rattle.sv_history.specs.declared.event.Port.TheVariants.{Intr};
ghost use Rattle.sv_history.specs.Event.{PlainEvent, Took, Close, Dialed};
ghost use Rattle.sv_history.specs.Act.{Act, device_acts};
ghost use Rattle.sv_history.specs.Requests.{HearsOf};
ghost use Rattle.sv_history.specs.Interrupts.{dial_by as called_by, dial_of};
ghost use Rattle.sv_history.specs.History.{is_channel_shut};
ghost use Rattle.sv_history.specs.Queries.{Answered};
ghost use Rattle.sv_history.specs.Limits.{max_output};
ghost use Rattle.sv_server.specs.Server.State.{Represents, StandsFor};
ghost use Rattle.sv_server.specs.Server.Inside.Acting.{Acts};

use crate::conn::Conn;
use crate::device::resuming::WakeReason;
use crate::server::Server;
use crate::server::resuming::continue_call;
use std::alloc::Allocator;
use sv_history::{Dial, Did, Refused};
use sv_vxi::Args;

/// The address and the port to which a create_intr_chan wants its channel connected; `None` for any
/// other call, or for a port above 65535.
fn dial_by(args: &Args<'_>) -> Option<Dial>
    ensures { result ≡ called_by (plain_arguments args.now) }
{
    if let Args::CreateIntrChan {
        host_addr,
        host_port,
        ..
    } = *args
    {
        return dial_to(host_addr, host_port);
    }
    None
}

/// Makes a `Dial` of an address and a port; `None` if the port is above 65535.
fn dial_to(addr: u32, port: u32) -> Option<Dial>
    ensures { result ≡ (if nat_lt port 65536
        then Some (record { addr = addr; port = port }) else None) }
{
    if port < 65536 {
        Some(Dial {
            addr,
            port: port as u16,
        })
    } else {
        None
    }
}

impl<A: Allocator> Server<A> {
    /// Where to connect the interrupt channel of a connection; `None` if no create_intr_chan of the
    /// connection is suspended. A Dialed event reports whether connecting succeeded.
    pub fn dial(&self, conn: u8) -> Option<Dial>
        ensures { (config : Config) (history : List PlainEvent) → StandsFor self.now config history
            → Answered (λ log. dial_of conn log) config history result }
    {
        if !self.device.is_dialing(conn) {
            return None;
        }
        let connection = self.connection(conn)?;
        let call = connection.taken_call()?;
        dial_by(&call.args)
    }

    /// Whether the interrupt channel of the connection of this number is open.
    pub(crate) fn has_channel(&self, conn: u8) -> bool
        ensures { (config : Config) (log : List Act) → Represents self.now config log
            → result ≡ not (is_channel_shut conn log) }
    {
        self.with_channel(conn).is_ok()
    }

    /// The connection of this number, if its interrupt channel is open; else `NoConn`.
    fn with_channel(&self, conn: u8) -> Result<Conn, Refused>
        ensures answer { (config : Config) (log : List Act) → Represents self.now config log
            → MatchResult result (λ found. is_channel_shut conn log ≡ false)
            (λ refused. (refused ≡ Refused.NoConn) × (is_channel_shut conn log ≡ true)) }
        ensures same { IfOk result (λ found. found.number ≡ conn) }
    {
        let Some(number) = Conn::new(conn) else {
            return Err(Refused::NoConn);
        };
        if !self.device.has_channel(number) {
            return Err(Refused::NoConn);
        }
        Ok(number)
    }

    /// The bytes that wait to be sent on an interrupt channel; none if the channel isn't open.
    pub(crate) fn sent(&self, conn: u8) -> &[u8]
        ensures exact { (config : Config) (log : List Act) (channel_log : List ChannelAct)
            → Represents self.now config log → HearsOf (device_acts log) channel_log
            → result.now ≡ channel_bytes conn channel_log }
        ensures bounded { length result.now ≤ max_output }
    {
        match Conn::new(conn) {
            Some(conn) => self.device.channel_waiting(conn),
            None => &[],
        }
    }

    /// Applies a Dialed event: the attempt to connect an interrupt channel succeeded or failed.
    pub(crate) fn dialed(&mut self, conn: u8, ok: bool) -> Result<Did, Refused>
        ensures acts { (config : Config) (log : List Act) → Represents self.old config log
            → Acts config (Dialed conn ok) log result self.new }
        ensures err { OnErr result (self.new ≡ self.old) }
    {
        let (conn, _) = self.open_connection(conn)?;
        if !self.device.is_dialing(conn.number) {
            return Err(Refused::NoDial);
        }
        let connection = &mut self.connections[conn.index()];
        continue_call(connection, &mut self.device, conn, WakeReason::Dialed(ok));
        Ok(Did::Done)
    }

    /// Drops the first `count` bytes that wait to be sent on an interrupt channel, because the peer
    /// took them.
    pub(crate) fn channel_took(&mut self, conn: u8, count: u32) -> Result<Did, Refused>
        ensures acts { (config : Config) (log : List Act) → Represents self.old config log
            → Acts config (Took (Intr conn) count) log result self.new }
        ensures err { OnErr result (self.new ≡ self.old) }
    {
        let conn = self.with_channel(conn)?;
        if self.device.channel_waiting(conn).len() < count as usize {
            return Err(Refused::NotSent);
        }
        self.device.channel_took(conn, count as usize);
        Ok(Did::Done)
    }

    /// Closes an interrupt channel.
    pub(crate) fn close_channel(&mut self, conn: u8) -> Result<Did, Refused>
        ensures acts { (config : Config) (log : List Act) → Represents self.old config log
            → Acts config (Close (Intr conn)) log result self.new }
        ensures err { OnErr result (self.new ≡ self.old) }
    {
        let conn = self.with_channel(conn)?;
        self.device.close_channel(conn);
        Ok(Did::Done)
    }
}
