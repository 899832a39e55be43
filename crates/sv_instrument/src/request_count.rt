//! How many requests for service were raised.

ghost use Rattle.std.specs.Prelude.{◌≡◌, List};
ghost use Rattle.sv_layers.specs.Act.{Act};
ghost use Rattle.sv_instrument.specs.Representation.{Ran, instrument_measure};
ghost use Rattle.sv_instrument.specs.Inside.Acted.{IsCountable, Runs};

use crate::instrument::Instrument;
use std::alloc::Allocator;

impl<A: Allocator> Instrument<A> {
    /// Returns how many requests for service were raised since this function was last called. Each
    /// function of the instrument that can raise a request calls this function at its end.
    pub(crate) fn take_requests(&mut self) -> u8
        ensures ran { (start log : List Act) → Runs start self.old log → IsCountable start log
            → Ran self.new result start log }
        ensures measure { instrument_measure self.new ≡ instrument_measure self.old }
    {
        self.layers.take_requests()
    }
}
