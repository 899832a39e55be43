//! Taking calls: the driver gives the server a Turn event for each connection that has a call to
//! take.

ghost use Rattle.std.specs.Prelude.{◌≡◌, ◌<◌};
ghost use Rattle.sv_serve.specs.DriverView.{Steps, ForEach};
ghost use Rattle.sv_serve.specs.Steps.{Turns, TurnsIf, EndsTurn, RefusesIf};
ghost use Rattle.sv_serve.specs.Premises.{From, MayFindNone, FindsNoneIf};

use crate::driver::{CONNECTIONS, Driver};
use crate::journal::Journal;
use crate::wire::Wire;
use std::alloc::Allocator;
use sv_server::{Did, Event, Refused, is_no_memory};

impl<W: Wire + Drop, A: Allocator, J: Journal + Drop> Driver<W, A, J> {
    /// On each connection that has a call to take, takes one call.
    pub(crate) fn turn_each(&mut self)
        ensures { Steps J.notes (ForEach 16 Turns) self.old self.new }
    {
        for conn in 0..CONNECTIONS {
            if self.is_unused(conn) {
                return;
            }
            self.turn(conn);
        }
    }

    /// Takes the next call of a connection, if there is a call to take.
    fn turn(&mut self, conn: u8)
        requires { conn < 16 }
        ensures { Steps J.notes (Turns conn) self.old self.new }
    {
        let ready = self.server.ready(conn);
        self.take(conn, ready);
    }

    /// Takes the next call of a connection, if `ready` says that there is a call to take.
    fn take(&mut self, conn: u8, ready: bool)
        requires { conn < 16 }
        ensures { Steps J.notes (TurnsIf conn ready) self.old self.new }
    {
        if ready {
            let answer = self.give(Event::Turn { conn });
            self.end_turn(conn, answer);
        }
    }

    /// If the server refused a Turn for lack of memory, answers the connection's next call with
    /// error 9. The connection stays open.
    fn end_turn(&mut self, conn: u8, answer: Result<Did, Refused>)
        requires { conn < 16 }
        ensures { From J.notes (MayFindNone conn answer) (EndsTurn conn answer) self.old self.new }
    {
        match answer {
            Ok(_) => {}
            Err(refused) => self.refuse_if(conn, is_no_memory(refused)),
        }
    }

    /// If `so` is true, answers the next call of a connection with error 9, without executing the
    /// call.
    fn refuse_if(&mut self, conn: u8, so: bool)
        requires { conn < 16 }
        ensures { From J.notes (FindsNoneIf conn so) (RefusesIf conn so) self.old self.new }
    {
        if so {
            let _ = self.give(Event::Refuse { conn });
        }
    }
}
