//! Dialing the peers of interrupt channels.

ghost use Rattle.std.specs.Prelude.{◌≡◌, ◌<◌, slice_index_or, Some, None};
ghost use Rattle.sv_history.specs.declared.event.Config.{Config};
ghost use Rattle.sv_serve.specs.Heard.{WasDialed, PeerAnswered};
ghost use Rattle.sv_serve.specs.DriverView.{DriverView, Steps, ForEach};
ghost use Rattle.sv_serve.specs.Asked.{Wants};
ghost use Rattle.sv_serve.specs.Premises.{From, IsAwaited};
ghost use Rattle.sv_serve.specs.Steps.{Hears, is_wanted, CancelsUnwanted, LetsGo, KeepsDial, ConnectResult, PollResult, DialsFor, Connects, Dials, Remembers};

use crate::driver::{CONNECTIONS, Driver};
use crate::journal::Journal;
use crate::wire::{Answer, Wire};
use std::alloc::Allocator;
use sv_server::{Dial, Event, Port};

/// Whether the peer that was dialed is the one to which the channel still has to be connected.
fn is_wanted(dialed: Dial, wanted: Option<Dial>) -> bool
    ensures { result ≡ is_wanted dialed wanted }
{
    match wanted {
        Some(wanted) => (dialed.addr == wanted.addr) & (dialed.port == wanted.port),
        None => false,
    }
}

impl<W: Wire + Drop, A: Allocator, J: Journal + Drop> Driver<W, A, J> {
    /// For each connection: if a peer was dialed, closes its socket, unless the interrupt channel
    /// is open or still has to be connected to this peer. Then, if the channel has to be connected,
    /// dials its peer; if it was dialed already, asks the wire whether this peer has answered.
    pub(crate) fn dial_each(&mut self)
        ensures { Steps J.notes (ForEach 16 (Dials W.hears)) self.old self.new }
    {
        for conn in 0..CONNECTIONS {
            if self.is_past_dials(conn) {
                return;
            }
            self.dial(conn);
        }
    }

    /// If a peer was dialed for a connection's interrupt channel, closes its socket, unless the
    /// channel is open or still has to be connected to this peer. Then, if the channel has to be
    /// connected, dials its peer; if it was dialed already, asks the wire whether this peer has
    /// answered.
    fn dial(&mut self, conn: u8)
        requires { conn < 16 }
        ensures { Steps J.notes (Dials W.hears conn) self.old self.new }
    {
        self.cancel_unwanted(conn);
        self.connect(conn);
    }

    /// Closes the socket of the peer that was dialed for a connection's interrupt channel, unless
    /// the channel is open or still has to be connected to this peer.
    fn cancel_unwanted(&mut self, conn: u8)
        requires { conn < 16 }
        ensures { Steps J.notes (LetsGo W.hears conn) self.old self.new }
    {
        let dialed = self.dials[usize::from(conn)];
        self.cancel_if_unwanted(conn, dialed);
    }

    /// If `dialed` is a peer that was dialed for a connection's interrupt channel: closes this
    /// peer's socket, unless the channel is open or still has to be connected to this peer.
    fn cancel_if_unwanted(&mut self, conn: u8, dialed: Option<Dial>)
        requires { conn < 16 }
        ensures { Steps J.notes (CancelsUnwanted W.hears conn dialed) self.old self.new }
    {
        match dialed {
            None => {}
            Some(dialed) => {
                let open = self.server.is_open(Port::Intr(conn));
                let wanted = self.server.dial(conn);
                self.keep_dial(conn, open | is_wanted(dialed, wanted));
            }
        }
    }

    /// Closes the socket of the peer that was dialed for a connection's interrupt channel, unless
    /// `keeps` is true.
    fn keep_dial(&mut self, conn: u8, keeps: bool)
        requires { conn < 16 }
        ensures { Steps J.notes (KeepsDial W.hears conn keeps) self.old self.new }
    {
        if keeps {
            return;
        }
        self.close_channel(conn);
    }

    /// If a connection's interrupt channel has to be connected: dials its peer; or, if a peer was
    /// dialed already, asks the wire whether that peer has answered.
    fn connect(&mut self, conn: u8)
        requires { conn < 16 }
        ensures { Steps J.notes (Connects W.hears conn) self.old self.new }
    {
        let wanted = self.server.dial(conn);
        let dialed = self.dials[usize::from(conn)];
        self.dial_for(conn, wanted, dialed);
    }

    /// If `wanted` is a peer: dials this peer; or, if a peer was dialed already (`dialed`), asks
    /// the wire whether that peer has answered.
    fn dial_for(&mut self, conn: u8, wanted: Option<Dial>, dialed: Option<Dial>)
        requires { conn < 16 }
        ensures { From J.notes
            (λ (config : Config) (at : DriverView W). Wants conn config at wanted)
            (DialsFor W.hears conn wanted dialed) self.old self.new }
    {
        match (wanted, dialed) {
            (None, _) => {}
            (Some(dial), None) => {
                let answer = self.start_connect(conn, dial);
                self.connect_result(conn, dial, answer);
            }
            (Some(_), Some(_)) => {
                let answer = self.poll_connect(conn);
                self.poll_result(conn, answer);
            }
        }
    }

    /// Tells the wire to dial a peer for the interrupt channel of a connection.
    fn start_connect(&mut self, conn: u8, dial: Dial) -> Answer<()>
        ensures { Steps J.notes (Hears W.hears (WasDialed conn dial result)) self.old self.new }
    {
        self.wire.dial(conn, dial)
    }

    /// Asks the wire whether the peer that was dialed for a connection has answered.
    fn poll_connect(&mut self, conn: u8) -> Answer<()>
        ensures { Steps J.notes (Hears W.hears (PeerAnswered conn result)) self.old self.new }
    {
        self.wire.dialed(conn)
    }

    /// Applies the wire's answer after the wire was told to dial the peer `dial` for a connection's
    /// interrupt channel.
    fn connect_result(&mut self, conn: u8, dial: Dial, answer: Answer<()>)
        requires { conn < 16 }
        ensures { From J.notes
            (λ (config : Config) (at : DriverView W). Wants conn config at
            (Some dial))
            (ConnectResult conn dial answer) self.old self.new }
    {
        match answer {
            Answer::Got(()) => {
                self.record_dial(conn, dial);
                self.apply(Event::Dialed { conn, ok: true });
            }
            Answer::Pending => self.record_dial(conn, dial),
            Answer::Failed => {
                self.apply(Event::Dialed { conn, ok: false });
            }
        }
    }

    /// Records which peer was dialed for the interrupt channel of a connection.
    fn record_dial(&mut self, conn: u8, dial: Dial)
        requires { conn < 16 }
        ensures { Steps J.notes (Remembers conn (Some dial)) self.old self.new }
    {
        self.dials[usize::from(conn)] = Some(dial);
        self.dial_limit = self.dial_limit.max(conn + 1);
    }

    /// Applies the wire's answer to the question whether a peer that was dialed before has
    /// answered.
    fn poll_result(&mut self, conn: u8, answer: Answer<()>)
        requires { conn < 16 }
        ensures { From J.notes (IsAwaited conn) (PollResult W.hears conn answer) self.old self.new }
    {
        match answer {
            Answer::Got(()) => {
                self.apply(Event::Dialed { conn, ok: true });
            }
            Answer::Pending => {}
            Answer::Failed => {
                self.close_channel(conn);
                self.apply(Event::Dialed { conn, ok: false });
            }
        }
    }
}
