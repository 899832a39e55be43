//! Polling the status byte.

ghost use Rattle.std.specs.Prelude.{◌≡◌, ◌↔◌, ℕ, List, ◌∷◌};
ghost use Rattle.std.specs.Int.{bit_at};
ghost use Rattle.sv_layers.specs.Act.{Act, Polled};
ghost use Rattle.sv_layers.specs.StatusByte.{PolledBit};
ghost use Rattle.sv_instrument.specs.Representation.{StandsFor, Ran};

use crate::instrument::Instrument;
use std::alloc::Allocator;

impl<A: Allocator> Instrument<A> {
    /// Polls the status byte: returns it with bit 6 set if a request for service is pending, and
    /// ends this request (VXI-11, device_readstb; IEEE 488.2, 11.2.1). A poll raises no request.
    pub fn poll(&mut self) -> u8
        ensures status { (log : List Act) → StandsFor self.old log
            → (k : ℕ) → (bit_at result k ≡ 1) ↔ PolledBit k log }
        ensures ran { (log : List Act) → StandsFor self.old log
            → Ran self.new 0 log (Polled ∷ log) }
    {
        self.layers.poll()
    }
}
