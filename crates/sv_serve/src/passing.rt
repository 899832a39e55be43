//! Letting time pass, and applying the entries of the scenario that are due.

ghost use Rattle.std.specs.Prelude.{◌≡◌, ◌<◌, length, true};
ghost use Rattle.sv_serve.specs.DriverView.{Steps};
ghost use Rattle.sv_replay.specs.Entry.{IsAccepted};
ghost use Rattle.sv_serve.specs.Sweep.{PlaysIf, Plays, TicksOnce, Counts, Passes, Stimulates};

use crate::driver::Driver;
use crate::journal::{Journal, note};
use crate::wire::Wire;
use std::alloc::Allocator;
use sv_replay::Stimulus;
use sv_server::{Did, Event, Refused};

impl<W: Wire + Drop, A: Allocator, J: Journal + Drop> Driver<W, A, J> {
    /// Lets this number of milliseconds pass. The entries of the scenario that are due are applied
    /// before each millisecond and after the last one.
    pub(crate) fn pass(&mut self, ticks: u32)
        ensures { Steps J.notes (Passes ticks) self.old self.new }
    {
        for _ in 0..ticks {
            self.play();
            self.tick();
        }
        self.play();
    }

    /// Applies the entries of the scenario that are due, and then this stimulus.
    pub fn stimulate(&mut self, stimulus: Stimulus)
        requires { IsAccepted stimulus }
        ensures { Steps J.notes (Stimulates stimulus) self.old self.new }
    {
        self.play();
        self.apply(stimulus.event());
    }

    /// Applies the entries of the scenario that are due.
    fn play(&mut self)
        ensures { Steps J.notes Plays self.old self.new }
    {
        while self.play_one() {}
    }

    /// Applies the next entry of the scenario, if this entry is due. Returns whether the entry was
    /// due.
    fn play_one(&mut self) -> bool
        ensures goes { Steps J.notes (PlaysIf result) self.old self.new }
        ensures measure { result ≡ true → length self.new.ahead < length self.old.ahead }
    {
        let Some(entry) = self.scenario.get(self.next) else {
            return false;
        };
        if entry.tick > self.ticks {
            return false;
        }
        let event = entry.stimulus.event();
        self.next += 1;
        let answer = self.server.apply(event);
        note(&mut self.journal, event, answer);
        true
    }

    /// Lets a millisecond pass at the server, and counts it.
    fn tick(&mut self)
        ensures { Steps J.notes TicksOnce self.old self.new }
    {
        let answer = self.give(Event::Tick);
        self.count(answer);
    }

    /// Counts a millisecond, unless the server refused the Tick.
    fn count(&mut self, answer: Result<Did, Refused>)
        ensures { Steps J.notes (Counts answer) self.old self.new }
    {
        match answer {
            Ok(_) => {
                if self.ticks != u64::MAX {
                    self.ticks += 1;
                }
            }
            Err(_) => {}
        }
    }
}
