//! The standard event status register (IEEE 488.2, 11.5.1).

ghost use Rattle.std.specs.Prelude.{◌≡◌, ◌↔◌, ℕ, true, [], ◌∷◌, List};
ghost use Rattle.std.specs.Int.{bit_at};
ghost use Rattle.sv_status.specs.StandardEvent.{StandsFor, Stands, Summary, enable as enable_of};

use std::marker::Model;
use std::mem::replace;
use sv_errors::Layer;

/// The bit of power on, which is set in a new register.
const POWER_ON: u8 = 1 << 7;

/// An act of the register.
#[derive(Clone, Copy)]
pub enum StandardAct {
    /// Each event whose bit is set in this value occurs.
    Occur(u8),
    /// The register is read, which clears it.
    Read,
    /// The enable becomes this value.
    SetEnable(u8),
    /// The register is cleared.
    Clear,
}

/// The answer to an act of the register.
#[derive(Clone, Copy, Debug)]
pub enum StandardAnswer {
    /// The register as it was before it was read.
    Event(u8),
    /// The act has no answer.
    Done,
}

/// The standard event status register, and its enable.
#[derive(Drop)]
pub struct StandardEvent {
    event: u8,
    enable: u8,
}

impl Model for StandardEvent {
    ghost use Rattle.sv_status.specs.StandardEvent.{Latches};

    ghost Value = { Latches };

    ghost view = { λ r. record { event = r.event; enable = r.enable } };
}

impl StandardEvent {
    /// The register as it is at power on: bit 7 (power on) is set, and no event is enabled.
    pub fn new() -> StandardEvent
        ensures { StandsFor result [] }
    {
        StandardEvent {
            event: POWER_ON,
            enable: 0,
        }
    }

    /// Sets those bits of the register that are set in `bits`, because their events occur.
    pub fn occur(&mut self, bits: u8)
        ensures { (acts : List StandardAct) → StandsFor self.old acts
            → StandsFor self.new (StandardAct.Occur bits ∷ acts) }
    {
        self.event |= bits;
    }

    /// Returns the register and clears it.
    pub fn read(&mut self) -> u8
        ensures stands { (acts : List StandardAct) → StandsFor self.old acts
            → StandsFor self.new (StandardAct.Read ∷ acts) }
        ensures answer { (acts : List StandardAct) → StandsFor self.old acts → (k : ℕ)
            → (bit_at result k ≡ 1) ↔ Stands k acts }
    {
        replace(&mut self.event, 0)
    }

    /// Sets the enable, all eight bits.
    pub fn set_enable(&mut self, enable: u8)
        ensures { (acts : List StandardAct) → StandsFor self.old acts
            → StandsFor self.new (StandardAct.SetEnable enable ∷ acts) }
    {
        self.enable = enable;
    }

    /// Clears the register. The enable doesn't change.
    pub fn clear(&mut self)
        ensures { (acts : List StandardAct) → StandsFor self.old acts
            → StandsFor self.new (StandardAct.Clear ∷ acts) }
    {
        self.event = 0;
    }

    /// The standard event status register, without clearing it.
    pub fn event(&self) -> u8
        ensures { (acts : List StandardAct) → StandsFor self.now acts → (k : ℕ)
            → (bit_at result k ≡ 1) ↔ Stands k acts }
    {
        self.event
    }

    /// The enable.
    pub fn enable(&self) -> u8
        ensures { (acts : List StandardAct) → StandsFor self.now acts → result ≡ enable_of acts }
    {
        self.enable
    }

    /// Whether some bit is set both in the standard event status register and in its enable.
    pub fn summary(&self) -> bool
        ensures { (acts : List StandardAct) → StandsFor self.now acts
            → (result ≡ true) ↔ Summary acts }
    {
        self.event & self.enable != 0
    }
}

impl Layer for StandardEvent {
    ghost use Rattle.sv_status.specs.StandardEvent.{StandsFor};
    ghost use Rattle.sv_status.specs.Answered.{StandardGives};

    type Act = StandardAct;

    type Answer = StandardAnswer;

    ghost stands_for = { StandsFor };

    ghost gives = { StandardGives };

    fn act(&mut self, act: StandardAct) -> StandardAnswer {
        match act {
            StandardAct::Occur(bits) => self.occur(bits),
            StandardAct::Read => return StandardAnswer::Event(self.read()),
            StandardAct::SetEnable(enable) => self.set_enable(enable),
            StandardAct::Clear => self.clear(),
        }
        StandardAnswer::Done
    }
}
