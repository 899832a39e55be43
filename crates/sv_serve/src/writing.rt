//! Writing the bytes that wait to be sent.

ghost use Rattle.std.specs.Prelude.{◌≡◌, ◌<◌, ◌≤◌, ℕ};
ghost use Rattle.sv_history.specs.declared.event.Port.TheVariants.{Conn, Intr};
ghost use Rattle.sv_history.specs.Event.{port_number};
ghost use Rattle.sv_serve.specs.DriverView.{Steps, ForEach};
ghost use Rattle.sv_serve.specs.Steps.{WritesTo, EndsWrite};
ghost use Rattle.sv_serve.specs.Premises.{From, Handed};

use crate::driver::{CONNECTIONS, Driver};
use crate::journal::Journal;
use crate::wire::{Answer, Wire};
use std::alloc::Allocator;
use sv_server::{Event, Port};

impl<W: Wire + Drop, A: Allocator, J: Journal + Drop> Driver<W, A, J> {
    /// Writes the bytes that wait on each connection.
    pub(crate) fn write_connections(&mut self)
        ensures { Steps J.notes (ForEach 16 (λ (c : ℕ). WritesTo W.hears
            (Conn c))) self.old self.new }
    {
        for conn in 0..CONNECTIONS {
            if self.is_unused(conn) {
                return;
            }
            self.write(Port::Conn(conn));
        }
    }

    /// Writes the bytes that wait on each interrupt channel.
    pub(crate) fn write_channels(&mut self)
        ensures { Steps J.notes (ForEach 16 (λ (c : ℕ). WritesTo W.hears
            (Intr c))) self.old self.new }
    {
        for conn in 0..CONNECTIONS {
            self.write(Port::Intr(conn));
        }
    }

    /// Makes one write of the bytes that wait on a port. The wire might take only some of them.
    #[inline(always)]
    fn write(&mut self, port: Port)
        requires { port_number port < 16 }
        ensures { Steps J.notes (WritesTo W.hears port) self.old self.new }
    {
        let bytes = self.server.waiting(port);
        if bytes.is_empty() {
            return;
        }
        let answer = self.wire.write(port, bytes);
        self.record_write(port, answer);
    }

    /// Tells the server how many bytes the wire took; the server drops these bytes. If the write
    /// failed, closes the port.
    fn record_write(&mut self, port: Port, answer: Answer<usize>)
        requires number { port_number port < 16 }
        requires counted { (n : ℕ) → answer ≡ Answer.Got n → n < 4294967296 }
        ensures { From J.notes (Handed port answer)
            (EndsWrite W.hears port answer) self.old self.new }
    {
        match (answer, port) {
            (Answer::Got(count), _) => {
                let count = count as u32;
                self.apply(Event::Took { port, count });
            }
            (Answer::Pending, _) => {}
            (Answer::Failed, Port::Conn(conn)) => self.close(conn),
            (Answer::Failed, Port::Intr(conn)) => {
                self.close_channel(conn);
                let port = Port::Intr(conn);
                self.apply(Event::Close { port });
            }
        }
    }
}
