//! A sweep.

ghost use Rattle.sv_serve.specs.DriverView.{Steps};
ghost use Rattle.sv_serve.specs.Sweep.{Sweeps};

use crate::driver::Driver;
use crate::journal::Journal;
use crate::wire::Wire;
use std::alloc::Allocator;
use sv_server::Role;

impl<W: Wire + Drop, A: Allocator, J: Journal + Drop> Driver<W, A, J> {
    /// Serves each socket once through the wire, applies the wire's answers to the server, and lets
    /// `ticks` milliseconds pass. The order is:
    ///
    /// 1. A connection is accepted on the core channel, one on the abort channel and one on the
    ///    port mapper, each under the lowest free number of 0 to 15.
    /// 2. Each connection is read, in rising order of the numbers: at most as many bytes as it has
    ///    room for.
    /// 3. On each connection on which a complete call has come, one call is taken.
    /// 4. The peer of each interrupt channel that has to be connected is dialed; or, if it was
    ///    dialed before, the wire is asked whether the peer has answered.
    /// 5. Time passes. Entries of the scenario that are due are applied before each millisecond and
    ///    after the last one.
    /// 6. The bytes that wait to be sent are written: first those of the connections, then those of
    ///    the interrupt channels.
    /// 7. Each connection at fault that has no more bytes to send is closed.
    ///
    /// If reading or writing fails, the connection or the channel is closed. If there is no memory
    /// for a call, the server answers the call with error 9, and its connection stays open.
    pub fn sweep(&mut self, ticks: u32)
        ensures { Steps J.notes (Sweeps W.hears ticks) self.old self.new }
    {
        self.accept(Role::Core);
        self.accept(Role::Abort);
        self.accept(Role::Portmap);
        self.read_each();
        self.turn_each();
        self.dial_each();
        self.pass(ticks);
        self.write_connections();
        self.write_channels();
        self.end_each();
        self.flush();
    }
}
