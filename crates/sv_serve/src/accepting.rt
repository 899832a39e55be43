//! Accepting the connections of clients.

ghost use Rattle.std.specs.Prelude.{◌≡◌, ◌<◌, List, IfSome};
ghost use Rattle.sv_history.specs.declared.event.Config.{Config};
ghost use Rattle.sv_history.specs.Event.{PlainEvent};
ghost use Rattle.sv_server.specs.Server.State.{StandsFor};
ghost use Rattle.sv_serve.specs.Asked.{IsLowest};
ghost use Rattle.sv_serve.specs.Heard.{WasAccepted};
ghost use Rattle.sv_serve.specs.DriverView.{Steps, driver_view};
ghost use Rattle.sv_serve.specs.Steps.{Hears, Accepts, Opens};
ghost use Rattle.sv_serve.specs.Premises.{From};

use crate::driver::{CONNECTIONS, Driver};
use crate::journal::Journal;
use crate::wire::{Answer, Wire};
use std::alloc::Allocator;
use sv_server::{Event, Port, Role};

impl<W: Wire + Drop, A: Allocator, J: Journal + Drop> Driver<W, A, J> {
    /// Accepts a connection of this role, if a peer connects. If no number is free, drops the
    /// connection.
    pub(crate) fn accept(&mut self, role: Role)
        ensures { Steps J.notes (Accepts W.hears role) self.old self.new }
    {
        let conn = self.free_number();
        let answer = self.accept_from_wire(role, conn);
        self.open(role, conn, answer);
    }

    /// Tells the wire to accept a connection under the number `conn`; or, if `conn` is `None`, to
    /// accept a connection and drop it.
    fn accept_from_wire(&mut self, role: Role, conn: Option<u8>) -> Answer<()>
        ensures { Steps J.notes (Hears W.hears (WasAccepted role conn result)) self.old self.new }
    {
        self.wire.accept(role, conn)
    }

    /// Returns the lowest number from 0 to 15 that no open connection has; `None` if all are in
    /// use.
    fn free_number(&self) -> Option<u8>
        ensures { (config : Config) (history : List PlainEvent)
            → StandsFor self.now.server config history
            → IsLowest result config (driver_view self.now history) }
    {
        for conn in 0..CONNECTIONS {
            if !self.server.is_open(Port::Conn(conn)) {
                return Some(conn);
            }
        }
        None
    }

    /// If the wire accepted a connection under the number `conn`, opens it at the server under this
    /// number.
    fn open(&mut self, role: Role, conn: Option<u8>, answer: Answer<()>)
        ensures { From J.notes (IsLowest conn) (Opens role conn answer) self.old self.new }
    {
        match (conn, answer) {
            (Some(conn), Answer::Got(())) => {
                self.apply(Event::Open { conn, role });
            }
            (Some(_), Answer::Pending) => {}
            (Some(_), Answer::Failed) => {}
            (None, _) => {}
        }
    }
}
