//! A status register with its transition filters (SCPI-1999, chapter 20, STATus).

ghost use Rattle.std.specs.Prelude.{◌≡◌, ◌↔◌, ◌%◌, ◌^◌, ℕ, true, [], ◌∷◌, List};
ghost use Rattle.std.specs.Int.{bit_at};
ghost use Rattle.sv_status.specs.Register.{StandsFor, EventStands, Summary, condition as condition_of, rise as rise_of, fall as fall_of, enable as enable_of};

use std::marker::Model;
use std::mem::replace;
use sv_errors::Layer;

/// Bit 15. It is cleared in each new value of a filter or an enable.
const MASK_END: u16 = 1 << 15;
/// Bits 0 to 14. A filter with this value passes every change of the condition. An enable with this
/// value enables every event bit.
const ALL: u16 = 32767;

/// An act of a register.
#[derive(Clone, Copy)]
pub enum RegisterAct {
    /// The condition word becomes this value.
    Condition(u16),
    /// The transition filters become these values, with bit 15 cleared.
    SetFilter {
        /// The positive transition filter.
        rise: u16,
        /// The negative transition filter.
        fall: u16,
    },
    /// The enable becomes this value, with bit 15 cleared.
    SetEnable(u16),
    /// The event register is read, which clears it.
    ReadEvent,
    /// Filters and enable are preset.
    Preset,
    /// The event register is cleared.
    Clear,
}

/// The answer to an act of a register.
#[derive(Clone, Copy, Debug)]
pub enum RegisterAnswer {
    /// The event register as it was before it was read.
    Event(u16),
    /// The act has no answer.
    Done,
}

/// A status register: condition, transition filters, event bits and enable.
#[derive(Drop)]
pub struct Register {
    condition: u16,
    rise: u16,
    fall: u16,
    event: u16,
    enable: u16,
    /// The enable at power on and after a preset.
    start: u16,
}

impl Model for Register {
    ghost use Rattle.sv_status.specs.Register.{Latches};

    ghost Value = { Latches };

    ghost view = { λ r. record {
      condition = r.condition;
      rise = r.rise;
      fall = r.fall;
      event =
          r.event;
      enable = r.enable;
      start = r.start;
    } };
}

impl Register {
    /// A register as it is at power on: its positive filter is 32767, and all else is 0.
    pub fn new() -> Register
        ensures { StandsFor 0 result [] }
    {
        Register::starting(0)
    }

    /// A register whose summary is a bit of another register's condition, as it is at power on. Its
    /// enable is 32767 at power on and after a preset. All else is as in [`Register::new`].
    pub fn nested() -> Register
        ensures { StandsFor 32767 result [] }
    {
        Register::starting(ALL)
    }

    /// A register as it is at power on. Its enable is `start`, now and after each preset.
    fn starting(start: u16) -> Register
        ensures { StandsFor start result [] }
    {
        Register {
            condition: 0,
            rise: ALL,
            fall: 0,
            event: 0,
            enable: start,
            start,
        }
    }

    /// Sets the condition. If bit k of the condition rises and bit k of the positive filter is set,
    /// bit k of the event register becomes set. The same happens if bit k of the condition falls
    /// and bit k of the negative filter is set.
    pub fn condition(&mut self, word: u16)
        ensures { (start : ℕ) (acts : List RegisterAct) → StandsFor start self.old acts
            → StandsFor start self.new (RegisterAct.Condition word ∷ acts) }
    {
        let changed = self.condition ^ word;
        self.event |= changed & word & self.rise;
        self.event |= changed & self.condition & self.fall;
        self.condition = word;
    }

    /// Sets both transition filters to these values, with bit 15 cleared.
    pub fn set_filter(&mut self, rise: u16, fall: u16)
        ensures { (start : ℕ) (acts : List RegisterAct) → StandsFor start self.old acts
            → StandsFor start self.new (RegisterAct.SetFilter rise fall ∷ acts) }
    {
        self.rise = rise % MASK_END;
        self.fall = fall % MASK_END;
    }

    /// Sets the enable to this value, with bit 15 cleared.
    pub fn set_enable(&mut self, enable: u16)
        ensures { (start : ℕ) (acts : List RegisterAct) → StandsFor start self.old acts
            → StandsFor start self.new (RegisterAct.SetEnable enable ∷ acts) }
    {
        self.enable = enable % MASK_END;
    }

    /// Returns the event register and clears it.
    pub fn read_event(&mut self) -> u16
        ensures stands { (start : ℕ) (acts : List RegisterAct) → StandsFor start self.old acts
            → StandsFor start self.new (RegisterAct.ReadEvent ∷ acts) }
        ensures answer { (start : ℕ) (acts : List RegisterAct) → StandsFor start self.old acts
            → (k : ℕ) → (bit_at result k ≡ 1) ↔ EventStands k acts }
    {
        replace(&mut self.event, 0)
    }

    /// Presets the filters and the enable: the positive filter to 32767, the negative one to 0, and
    /// the enable to its value at power on. The event register doesn't change.
    pub fn preset(&mut self)
        ensures { (start : ℕ) (acts : List RegisterAct) → StandsFor start self.old acts
            → StandsFor start self.new (RegisterAct.Preset ∷ acts) }
    {
        self.rise = ALL;
        self.fall = 0;
        self.enable = self.start;
    }

    /// Clears the event register. Filters and enable don't change.
    pub fn clear(&mut self)
        ensures { (start : ℕ) (acts : List RegisterAct) → StandsFor start self.old acts
            → StandsFor start self.new (RegisterAct.Clear ∷ acts) }
    {
        self.event = 0;
    }

    /// The condition.
    pub fn condition_word(&self) -> u16
        ensures { (start : ℕ) (acts : List RegisterAct) → StandsFor start self.now acts
            → result ≡ condition_of acts }
    {
        self.condition
    }

    /// The positive transition filter.
    pub fn rise(&self) -> u16
        ensures { (start : ℕ) (acts : List RegisterAct) → StandsFor start self.now acts
            → result ≡ rise_of acts }
    {
        self.rise
    }

    /// The negative transition filter.
    pub fn fall(&self) -> u16
        ensures { (start : ℕ) (acts : List RegisterAct) → StandsFor start self.now acts
            → result ≡ fall_of acts }
    {
        self.fall
    }

    /// The event register, without clearing it.
    pub fn event(&self) -> u16
        ensures { (start : ℕ) (acts : List RegisterAct) → StandsFor start self.now acts
            → (k : ℕ) → (bit_at result k ≡ 1) ↔ EventStands k acts }
    {
        self.event
    }

    /// The enable.
    pub fn enable(&self) -> u16
        ensures { (start : ℕ) (acts : List RegisterAct) → StandsFor start self.now acts
            → result ≡ enable_of start acts }
    {
        self.enable
    }

    /// Whether some bit is set both in the event register and in the enable.
    pub fn summary(&self) -> bool
        ensures { (start : ℕ) (acts : List RegisterAct) → StandsFor start self.now acts
            → (result ≡ true) ↔ Summary start acts }
    {
        self.event & self.enable != 0
    }
}

impl Layer for Register {
    ghost use Rattle.sv_status.specs.Register.{Stands};
    ghost use Rattle.sv_status.specs.Answered.{RegisterGives};

    type Act = RegisterAct;

    type Answer = RegisterAnswer;

    ghost stands_for = { Stands };

    ghost gives = { RegisterGives };

    fn act(&mut self, act: RegisterAct) -> RegisterAnswer {
        match act {
            RegisterAct::Condition(word) => self.condition(word),
            RegisterAct::SetFilter { rise, fall } => self.set_filter(rise, fall),
            RegisterAct::SetEnable(enable) => self.set_enable(enable),
            RegisterAct::ReadEvent => return RegisterAnswer::Event(self.read_event()),
            RegisterAct::Preset => self.preset(),
            RegisterAct::Clear => self.clear(),
        }
        RegisterAnswer::Done
    }
}
