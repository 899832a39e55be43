//! What happens to the instrument besides messages: inputs, triggers and time.

ghost use Rattle.std.specs.Prelude.{◌≡◌, List, ◌∷◌, ◌++◌};
ghost use Rattle.sv_scan.specs.declared.acts.ScanAct.TheVariants.{Input};
ghost use Rattle.sv_scan.specs.Counted.{is_scanning as scans};
ghost use Rattle.sv_scan.specs.Scan.{state};
ghost use Rattle.sv_layers.specs.Act.{Act, Scanned};
ghost use Rattle.sv_layers.specs.Condition.{effective_acts};
ghost use Rattle.sv_instrument.specs.Stimulus.{trigger_acts, external_acts, tick_acts};
ghost use Rattle.sv_instrument.specs.Representation.{StandsFor, Ran};

use crate::instrument::Instrument;
use std::alloc::Allocator;
use sv_errors::Source;
use sv_layers::Change;
use sv_scan::{ScanAct, State};

impl<A: Allocator> Instrument<A> {
    /// Sets the input of a channel to this voltage, in microvolts. Nothing changes if there is no
    /// such channel. Returns how many requests for service were raised.
    pub fn input(&mut self, channel: u8, microvolts: i64) -> u8
        ensures { (log : List Act) → StandsFor self.old log
            → Ran self.new result log (Scanned (Input channel microvolts) ∷ log) }
    {
        self.layers
            .apply(Change::Scan(ScanAct::Input(channel, microvolts)));
        self.take_requests()
    }

    /// Handles a trigger at the trigger input: the next scan begins if the scanner waits for an
    /// external trigger; else nothing happens. Returns how many requests for service were raised.
    pub fn external(&mut self) -> u8
        ensures { (log : List Act) → StandsFor self.old log
            → Ran self.new result log (external_acts log ++ log) }
    {
        match self.layers.trigger(Source::External) {
            Ok(()) => self.take_requests(),
            Err(_ignored) => 0,
        }
    }

    /// Handles a trigger from the controller: the next scan begins if the scanner waits for a
    /// trigger from the controller; else -211 is reported (VXI-11, device_trigger). Returns how
    /// many requests for service were raised.
    pub fn trigger(&mut self) -> u8
        ensures { (log : List Act) → StandsFor self.old log
            → Ran self.new result log (trigger_acts log ++ log) }
    {
        match self.layers.trigger(Source::Bus) {
            Ok(()) => (),
            Err(ignored) => self.layers.apply(Change::Report(ignored)),
        }
        self.take_requests()
    }

    /// Lets a millisecond pass: if a scan is under way, its next channel is read. Returns how many
    /// requests for service were raised.
    pub fn tick(&mut self) -> u8
        ensures { (log : List Act) → StandsFor self.old log
            → Ran self.new result log (tick_acts log ++ log) }
    {
        match self.layers.scanner().state() {
            State::Scanning => {
                self.layers.apply(Change::Scan(ScanAct::Sample));
                self.take_requests()
            }
            State::Idle => 0,
            State::Waiting => 0,
        }
    }

    /// Whether a scan is under way. If so, a channel is read when the next millisecond passes.
    pub fn is_scanning(&self) -> bool
        ensures { (log : List Act) → StandsFor self.now log
            → result ≡ scans (state (effective_acts log)) }
    {
        self.layers.scanner().state().is_scanning()
    }
}
