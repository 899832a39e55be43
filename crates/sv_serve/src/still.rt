//! Whether there is nothing to do until the wire reports something.

ghost use Rattle.std.specs.Prelude.{◌≡◌, ◌↔◌, ◌+◌, true, false, List, []};
ghost use Rattle.sv_history.specs.declared.event.Config.{Config};
ghost use Rattle.sv_history.specs.Event.{PlainEvent};
ghost use Rattle.sv_server.specs.Server.State.{StandsFor};
ghost use Rattle.sv_serve.specs.DriverView.{driver_view};
ghost use Rattle.sv_serve.specs.Sweep.{IsNoneDue};
ghost use Rattle.sv_serve.specs.Still.{StaysStill};

use crate::driver::Driver;
use crate::journal::Journal;
use crate::wire::Wire;
use std::alloc::Allocator;

impl<W: Wire + Drop, A: Allocator, J: Journal + Drop> Driver<W, A, J> {
    /// Whether nothing becomes due within this number of milliseconds: no scan is under way, no
    /// suspended call reaches its deadline, and no entry of the scenario becomes due. If so, the
    /// caller can sleep that long, and let these milliseconds pass in a later sweep.
    pub fn is_still(&self, ticks: u32) -> bool
        ensures { (config : Config) (history : List PlainEvent)
            → StandsFor self.now.server config history
            → StaysStill ticks config (driver_view self.now history) result }
    {
        self.server.is_still(ticks) && !self.is_due_within(ticks)
    }

    /// Whether all entries of the scenario were applied.
    pub fn is_played(&self) -> bool
        ensures { (result ≡ true) ↔ (self.now.ahead ≡ []) }
    {
        self.scenario.get(self.next).is_none()
    }

    /// Whether an entry of the scenario is due now or within this number of milliseconds.
    fn is_due_within(&self, ticks: u32) -> bool
        ensures { (result ≡ false) ↔ IsNoneDue (self.now.ticks + ticks) self.now.ahead }
    {
        match self.scenario.get(self.next) {
            Some(entry) => entry.tick.saturating_sub(self.ticks) <= u64::from(ticks),
            None => false,
        }
    }
}
