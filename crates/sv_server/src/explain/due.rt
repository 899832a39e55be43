//! The step that is due.

ghost use Rattle.std.specs.Prelude.{List};
ghost use Rattle.sv_history.specs.declared.event.Config.{Config};
ghost use Rattle.sv_history.specs.Act.{Act};
ghost use Rattle.sv_server.specs.Server.State.{Represents};
ghost use Rattle.sv_server.specs.Explain.Telling.{Names};

use crate::server::Server;
use std::alloc::Allocator;
use sv_explain::Due;

impl<A: Allocator> Server<A> {
    /// The step that is due.
    pub(crate) fn due(&self) -> Due<'_>
        ensures { (config : Config) (log : List Act) → Represents self.now config log
            → Names result config log }
    {
        if self.device.is_fire_due() {
            return Due::Fire;
        }
        match self.device.oldest_able() {
            Some(entry) => Due::Resume(entry.conn),
            None => match self.device.step_due() {
                Some(step) => Due::Exchange(step),
                None => match self.device.expired() {
                    Some(entry) => Due::TimeOut(entry.conn),
                    None => Due::Nothing,
                },
            },
        }
    }
}
