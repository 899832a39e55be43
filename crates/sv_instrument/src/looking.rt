//! Looking at the instrument without changing it.

ghost use Rattle.std.specs.Prelude.{◌≡◌, List, None, MatchOption};
ghost use Rattle.sv_layers.specs.Act.{Act};
ghost use Rattle.sv_layers.specs.Inside.Representation.{AllRead};
ghost use Rattle.sv_instrument.specs.HeldUnit.{held_unit};
ghost use Rattle.sv_instrument.specs.Representation.{StandsFor};
ghost use Rattle.sv_instrument.specs.Looking.{IsDue, IsNoneDue, is_fire_due};

use crate::instrument::Instrument;
use std::alloc::Allocator;
use sv_errors::Source;
use sv_exchange::Next;
use sv_layers::{Awaited, Layers};
use sv_scan::State;

/// The step of message exchange that is due.
#[derive(Clone, Copy)]
pub enum Step<'a> {
    /// The held unit ends.
    Release,
    /// The message is reported as too long.
    Overrun,
    /// The response is dropped, and this unit starts.
    Interrupt {
        /// How many bytes of the message come before the unit.
        place: u16,
        /// The unit.
        unit: &'a [u8],
    },
    /// This unit starts.
    Unit {
        /// How many bytes of the message come before the unit.
        place: u16,
        /// The unit.
        unit: &'a [u8],
    },
    /// The message is finished.
    Finish,
}

impl<A: Allocator> Instrument<A> {
    /// The layers of the instrument.
    pub fn layers(&self) -> &Layers<A>
        ensures { (log : List Act) → StandsFor self.now log → AllRead result.now log }
    {
        &self.layers
    }

    /// What the held unit will answer when the measurement ends; `None` if no unit is held.
    pub fn held(&self) -> Option<Awaited>
        ensures { (log : List Act) → StandsFor self.now log → result ≡ held_unit log }
    {
        self.held
    }

    /// Whether an immediate trigger is due.
    pub fn is_fire_due(&self) -> bool
        ensures { (log : List Act) → StandsFor self.now log → result ≡ is_fire_due log }
    {
        match self.layers.scanner().may_trigger(Source::Immediate) {
            Ok(()) => true,
            Err(_ignored) => false,
        }
    }

    /// The step of message exchange that is due; `None` if no step is due.
    pub fn step_due(&self) -> Option<Step<'_>>
        ensures { (log : List Act) → StandsFor self.now log
            → MatchOption result (IsNoneDue log) (λ step. IsDue step log) }
    {
        match self.held {
            Some(_) => match self.layers.scanner().state() {
                State::Idle => Some(Step::Release),
                State::Waiting => None,
                State::Scanning => None,
            },
            None => self.exchange_due(),
        }
    }

    /// The step of message exchange that is due, if no unit is held.
    fn exchange_due(&self) -> Option<Step<'_>>
        requires { self.now.held ≡ None }
        ensures { (log : List Act) → StandsFor self.now log
            → MatchOption result (IsNoneDue log) (λ step. IsDue step log) }
    {
        let exchange = self.layers.exchange();
        match exchange.next_unit() {
            Next::Nothing => None,
            Next::Overrun => Some(Step::Overrun),
            Next::Interrupt => {
                let unit = exchange.pending_unit()?;
                let place = exchange.unit_place();
                Some(Step::Interrupt { place, unit })
            }
            Next::Unit(unit) => {
                let place = exchange.unit_place();
                Some(Step::Unit { place, unit })
            }
            Next::Finish => Some(Step::Finish),
        }
    }
}
