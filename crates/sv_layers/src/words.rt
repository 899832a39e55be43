//! The values of the status registers, as queries return them.

ghost use Rattle.std.specs.Prelude.{◌≡◌, ◌↔◌, ℕ, true, List};
ghost use Rattle.std.specs.Int.{bit_at};
ghost use Rattle.sv_layers.specs.Act.{Act};
ghost use Rattle.sv_layers.specs.Condition.{condition as condition_of};
ghost use Rattle.sv_layers.specs.Filter.{rise as rise_of, fall as fall_of, enable as enable_of};
ghost use Rattle.sv_layers.specs.Event.{EventStands};
ghost use Rattle.sv_layers.specs.Standard.{Stands, Waits, enable as standard_enable_of};
ghost use Rattle.sv_layers.specs.StatusByte.{MasterBit, Request, service as service_of};
ghost use Rattle.sv_layers.specs.Inside.Representation.{StandsFor};

use crate::layers::Layers;
use std::alloc::Allocator;
use sv_status::RegisterName;

impl<A: Allocator> Layers<A> {
    /// Returns the standard events (IEEE 488.2, 11.5.1), without clearing them.
    pub fn standard_events(&self) -> u8
        ensures { (log : List Act) → StandsFor self.now log → (k : ℕ)
            → (bit_at result k ≡ 1) ↔ Stands k log }
    {
        self.standard.event()
    }

    /// Returns the enable of the standard events (IEEE 488.2, 11.5.1).
    pub fn standard_enable(&self) -> u8
        ensures { (log : List Act) → StandsFor self.now log → result ≡ standard_enable_of log }
    {
        self.standard.enable()
    }

    /// Returns the status byte, with the master summary in bit 6 (IEEE 488.2, 11.2.2.2).
    pub fn status_byte(&self) -> u8
        ensures { (log : List Act) → StandsFor self.now log → (k : ℕ)
            → (bit_at result k ≡ 1) ↔ MasterBit k log }
    {
        self.status.status()
    }

    /// Returns whether a request for service is pending (IEEE 488.2, 11.3.3), without ending it.
    pub fn has_request(&self) -> bool
        ensures { (log : List Act) → StandsFor self.now log → (result ≡ true) ↔ Request log }
    {
        self.status.rqs()
    }

    /// Returns whether an `*OPC` is pending (IEEE 488.2, 12.5.2).
    pub fn has_opc(&self) -> bool
        ensures { (log : List Act) → StandsFor self.now log → (result ≡ true) ↔ Waits log }
    {
        self.waits
    }

    /// Returns the service request enable (IEEE 488.2, 11.3.2).
    pub fn service(&self) -> u8
        ensures { (log : List Act) → StandsFor self.now log → result ≡ service_of log }
    {
        self.service
    }

    /// Returns the event bits of a register (SCPI-1999, chapter 20), without clearing them.
    pub fn events(&self, name: RegisterName) -> u16
        ensures { (log : List Act) → StandsFor self.now log → (k : ℕ)
            → (bit_at result k ≡ 1) ↔ EventStands name k log }
    {
        self.register(name).event()
    }

    /// Returns the condition of a register (SCPI-1999, chapter 20).
    pub fn condition(&self, name: RegisterName) -> u16
        ensures { (log : List Act) → StandsFor self.now log → result ≡ condition_of name log }
    {
        self.register(name).condition_word()
    }

    /// Returns the enable of a register (SCPI-1999, chapter 20).
    pub fn enabled(&self, name: RegisterName) -> u16
        ensures { (log : List Act) → StandsFor self.now log → result ≡ enable_of name log }
    {
        self.register(name).enable()
    }

    /// Returns the positive transition filter of a register (SCPI-1999, chapter 20).
    pub fn rise(&self, name: RegisterName) -> u16
        ensures { (log : List Act) → StandsFor self.now log → result ≡ rise_of name log }
    {
        self.register(name).rise()
    }

    /// Returns the negative transition filter of a register (SCPI-1999, chapter 20).
    pub fn fall(&self, name: RegisterName) -> u16
        ensures { (log : List Act) → StandsFor self.now log → result ≡ fall_of name log }
    {
        self.register(name).fall()
    }
}
