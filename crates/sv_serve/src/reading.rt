//! Reading connections.

ghost use Rattle.std.specs.Prelude.{◌<◌, ◌≤◌, true, length};
ghost use Rattle.sv_history.specs.declared.event.Config.{Config};
ghost use Rattle.sv_history.specs.declared.event.Port.TheVariants.{Conn};
ghost use Rattle.sv_serve.specs.Heard.{WasRead, WasProbed, bytes_of, IsWithin};
ghost use Rattle.sv_serve.specs.DriverView.{DriverView, Steps, ForEach};
ghost use Rattle.sv_serve.specs.Asked.{HasRoom, IsOpen};
ghost use Rattle.sv_serve.specs.Premises.{From};
ghost use Rattle.sv_serve.specs.Steps.{Hears, ReadsFrom, ReadsUpTo, Probes, ProbesIf, Drops};

use crate::driver::{CONNECTIONS, Driver};
use crate::journal::{Journal, note};
use crate::wire::{Answer, Wire};
use std::alloc::Allocator;
use sv_server::{Event, Port};

/// Reads at most `size` bytes of a connection into the front of a buffer.
fn read_into<W: Wire>(wire: &mut W, conn: u8, buffer: &mut [u8], size: usize) -> Answer<usize>
    requires { size ≤ length buffer.old }
    ensures within { IsWithin result size }
    ensures heard { W.hears wire.old (WasRead conn size (bytes_of result buffer.new)) wire.new }
{
    wire.read(conn, &mut buffer[..size])
}

impl<W: Wire + Drop, A: Allocator, J: Journal + Drop> Driver<W, A, J> {
    /// Reads each connection once.
    pub(crate) fn read_each(&mut self)
        ensures { Steps J.notes (ForEach 16 (ReadsFrom W.hears)) self.old self.new }
    {
        for conn in 0..CONNECTIONS {
            if self.is_unused(conn) {
                return;
            }
            self.read(conn);
        }
    }

    /// Reads a connection once, if the connection has room for more bytes; else checks whether the
    /// connection's peer is gone.
    fn read(&mut self, conn: u8)
        requires { conn < 16 }
        ensures { Steps J.notes (ReadsFrom W.hears conn) self.old self.new }
    {
        let room = self.server.room(conn);
        self.read_up_to(room, conn);
    }

    /// Reads at most `room` bytes of a connection; `room` is how many bytes the connection has room
    /// for. If `room` is 0, checks whether the connection's peer is gone instead.
    fn read_up_to(&mut self, room: u32, conn: u8)
        requires { conn < 16 }
        ensures { From J.notes
            (λ (config : Config) (at : DriverView W). HasRoom conn config at room)
            (ReadsUpTo W.hears room conn) self.old self.new }
    {
        if room == 0 {
            self.probe(conn);
            return;
        }
        let size = self.buffer.len().min(room as usize);
        match read_into(&mut self.wire, conn, &mut self.buffer, size) {
            Answer::Got(count) => {
                let piece = &self.buffer[..count];
                let event = Event::Bytes { conn, piece };
                let answer = self.server.apply(event);
                note(&mut self.journal, event, answer);
            }
            Answer::Pending => {}
            Answer::Failed => self.close(conn),
        }
    }

    /// For a connection without room: if the connection is open, asks the wire whether the
    /// connection's peer is gone, and closes the connection if the peer is gone.
    fn probe(&mut self, conn: u8)
        requires { conn < 16 }
        ensures { Steps J.notes (Probes W.hears conn) self.old self.new }
    {
        let opened = self.server.is_open(Port::Conn(conn));
        self.probe_if(conn, opened);
    }

    /// If `opened` says that the connection is open: asks the wire whether the connection's peer is
    /// gone, and closes the connection if the peer is gone.
    fn probe_if(&mut self, conn: u8, opened: bool)
        requires { conn < 16 }
        ensures { From J.notes
            (λ (config : Config) (at : DriverView W). IsOpen
            (Conn conn) config at opened)
            (ProbesIf W.hears conn opened) self.old self.new }
    {
        if opened {
            let drops = self.server.overlong(conn);
            let answer = self.ask(conn, drops);
            self.drop_gone(conn, answer);
        }
    }

    /// Asks the wire whether the peer of a connection is gone. With `drops`, the wire discards the
    /// bytes that come on the connection.
    fn ask(&mut self, conn: u8, drops: bool) -> Answer<()>
        ensures { Steps J.notes (Hears W.hears (WasProbed conn drops result)) self.old self.new }
    {
        self.wire.probe(conn, drops)
    }

    /// Closes a connection, if the wire answered that the connection's peer is gone.
    fn drop_gone(&mut self, conn: u8, answer: Answer<()>)
        requires { conn < 16 }
        ensures { From J.notes
            (λ (config : Config) (at : DriverView W). IsOpen
            (Conn conn) config at true)
            (Drops W.hears conn answer) self.old self.new }
    {
        match answer {
            Answer::Got(()) => {}
            Answer::Pending => {}
            Answer::Failed => self.close(conn),
        }
    }
}
