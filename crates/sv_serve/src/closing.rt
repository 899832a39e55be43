//! Closing connections and interrupt channels.

ghost use Rattle.std.specs.Prelude.{◌<◌, true, None};
ghost use Rattle.sv_history.specs.declared.event.Config.{Config};
ghost use Rattle.sv_history.specs.declared.event.Port.TheVariants.{Conn};
ghost use Rattle.sv_serve.specs.Heard.{WasClosed};
ghost use Rattle.sv_serve.specs.DriverView.{DriverView, Steps, ForEach};
ghost use Rattle.sv_serve.specs.Asked.{IsOpen, IsFaulted};
ghost use Rattle.sv_serve.specs.Premises.{From};
ghost use Rattle.sv_serve.specs.Steps.{Hears, Remembers, ClosesChannel, Closes, ClosesIf, EndsIf, Ends};

use crate::driver::{CONNECTIONS, Driver};
use crate::journal::Journal;
use crate::wire::Wire;
use std::alloc::Allocator;
use sv_server::{Event, Port};

impl<W: Wire + Drop, A: Allocator, J: Journal + Drop> Driver<W, A, J> {
    /// Closes the socket of a connection's interrupt channel, if a peer was dialed for it.
    pub(crate) fn close_channel(&mut self, conn: u8)
        requires { conn < 16 }
        ensures { Steps J.notes (ClosesChannel W.hears conn) self.old self.new }
    {
        match self.dials[usize::from(conn)] {
            None => {}
            Some(_) => {
                self.close_socket(Port::Intr(conn));
                self.forget_dial(conn);
            }
        }
    }

    /// Tells the wire to close the socket of a port.
    fn close_socket(&mut self, port: Port)
        ensures { Steps J.notes (Hears W.hears (WasClosed port)) self.old self.new }
    {
        self.wire.close(port);
    }

    /// Records that no peer is dialed for the interrupt channel of a connection.
    fn forget_dial(&mut self, conn: u8)
        requires { conn < 16 }
        ensures { Steps J.notes (Remembers conn None) self.old self.new }
    {
        self.dials[usize::from(conn)] = None;
    }

    /// Closes a connection, and with it its interrupt channel.
    pub(crate) fn close(&mut self, conn: u8)
        requires { conn < 16 }
        ensures { From J.notes
            (λ (config : Config) (at : DriverView W). IsOpen
            (Conn conn) config at true)
            (Closes W.hears conn) self.old self.new }
    {
        self.close_socket(Port::Conn(conn));
        self.close_channel(conn);
        let port = Port::Conn(conn);
        self.apply(Event::Close { port });
    }

    /// Closes each connection at fault that has no more bytes to send.
    pub(crate) fn end_each(&mut self)
        ensures { Steps J.notes (ForEach 16 (Ends W.hears)) self.old self.new }
    {
        for conn in 0..CONNECTIONS {
            if self.is_unused(conn) {
                return;
            }
            self.end(conn);
        }
    }

    /// Closes a connection, if it is at fault and has no more bytes to send.
    fn end(&mut self, conn: u8)
        requires { conn < 16 }
        ensures { Steps J.notes (Ends W.hears conn) self.old self.new }
    {
        let faulted = self.server.faulted(conn);
        self.end_if(conn, faulted);
    }

    /// Closes a connection if both hold: `so` says that the connection is at fault; and no more
    /// bytes wait to be sent on it.
    fn end_if(&mut self, conn: u8, so: bool)
        requires { conn < 16 }
        ensures { From J.notes
            (λ (config : Config) (at : DriverView W). IsFaulted conn config at so)
            (EndsIf W.hears conn so) self.old self.new }
    {
        if so {
            let empty = self.server.waiting(Port::Conn(conn)).is_empty();
            self.close_if(conn, empty);
        }
    }

    /// Closes a connection, if `so` is true.
    fn close_if(&mut self, conn: u8, so: bool)
        requires { conn < 16 }
        ensures { From J.notes
            (λ (config : Config) (at : DriverView W). IsOpen
            (Conn conn) config at true)
            (ClosesIf W.hears conn so) self.old self.new }
    {
        if so {
            self.close(conn);
        }
    }
}
