//! Steps of settling: what the instrument does by itself.

ghost use Rattle.std.specs.Prelude.{◌≡◌, ◌<◌, List, ◌∷◌, Some, None, OnSome, IfNone};
ghost use Rattle.sv_errors.specs.declared.code.Code.TheVariants.{InputBufferOverrun};
ghost use Rattle.sv_exchange.specs.Exchange.{Overran, OverrunDue, InterruptDue};
ghost use Rattle.sv_exchange.specs.Contents.{IsUnitDue, next_of};
ghost use Rattle.sv_layers.specs.Act.{Act, Exchanged, Reported};
ghost use Rattle.sv_instrument.specs.Stimulus.{IsFired};
ghost use Rattle.sv_instrument.specs.Step.{IsStep, after_interrupt};
ghost use Rattle.sv_instrument.specs.Looking.{IsNoneDue};
ghost use Rattle.sv_instrument.specs.Representation.{StandsFor, Takes, instrument_measure};
ghost use Rattle.sv_instrument.specs.Inside.Acted.{Runs, StartsUnit, Steps};

use crate::instrument::Instrument;
use crate::unit_start;
use std::alloc::Allocator;
use sv_errors::{Code, Source};
use sv_exchange::Next;
use sv_header::Path;
use sv_layers::{Awaited, Change};
use sv_scan::State;

impl<A: Allocator> Instrument<A> {
    /// Begins the next scan, if the scanner waits for a trigger and the source of triggers is
    /// immediate. Returns how many requests for service were raised. Returns `None` if no immediate
    /// trigger was due: then nothing changed.
    pub fn fire(&mut self) -> Option<u8>
        ensures fires { (log : List Act) → StandsFor self.old log
            → Takes IsFired self.new result log }
        ensures measure { OnSome result (instrument_measure self.new
            < instrument_measure self.old) }
        ensures idle { IfNone result (self.new ≡ self.old) }
    {
        match self.layers.trigger(Source::Immediate) {
            Ok(()) => Some(self.take_requests()),
            Err(_ignored) => None,
        }
    }

    /// Takes the step of message exchange that is due: a held unit ends; the next unit starts; an
    /// error is reported for a message that is too long; or a message that has ended is finished
    /// (IEEE 488.2, 6.1.4 and 6.3). Returns how many requests for service were raised. Returns
    /// `None` if no step was due: then nothing changed.
    pub fn step(&mut self) -> Option<u8>
        ensures steps { (log : List Act) → StandsFor self.old log
            → Takes IsStep self.new result log }
        ensures due { (log : List Act) → StandsFor self.old log
            → IfNone result (IsNoneDue log) }
        ensures measure { OnSome result (instrument_measure self.new
            < instrument_measure self.old) }
        ensures idle { IfNone result (self.new ≡ self.old) }
    {
        if self.take_step() {
            Some(self.take_requests())
        } else {
            None
        }
    }

    /// Takes the step of message exchange that is due. If a unit is held, this step is its end,
    /// which is due if no measurement is under way any more. Returns whether a step was due.
    fn take_step(&mut self) -> bool
        ensures { Steps result self.old self.new }
    {
        let Some(awaited) = self.held else {
            return self.next_step();
        };
        match self.layers.scanner().state() {
            State::Idle => {
                unit_start::release(&mut self.layers, &mut self.answer, awaited);
                self.held = None;
                true
            }
            State::Waiting => false,
            State::Scanning => false,
        }
    }

    /// Takes the step of message exchange that is due. The caller must know that no unit is held.
    /// If a new message interrupts the response, its first unit also starts. Returns whether a step
    /// was due.
    fn next_step(&mut self) -> bool
        requires { self.old.held ≡ None }
        ensures { Steps result self.old self.new }
    {
        match self.layers.exchange().next_unit() {
            Next::Nothing => return false,
            Next::Overrun => {
                self.layers.overran();
                self.layers.apply(Change::Report(Code::InputBufferOverrun));
            }
            Next::Interrupt => {
                self.layers.interrupt();
                self.layers.apply(Change::Report(Code::QueryInterrupted));
                self.start();
            }
            Next::Unit(_text) => self.start(),
            Next::Finish => {
                self.path = Path::root();
                self.layers.finish();
            }
        }
        true
    }

    /// Starts the unit that is due.
    fn start(&mut self)
        requires free { self.old.held ≡ None }
        requires due { IsUnitDue (next_of self.old.layers.exchange) }
        ensures starts { (start log : List Act) → Runs start self.old log
            → StartsUnit start log self.new }
        ensures measure { instrument_measure self.new < instrument_measure self.old }
    {
        self.held = unit_start::start(
            &self.table,
            &mut self.path,
            &mut self.layers,
            &mut self.answer,
        );
    }
}
