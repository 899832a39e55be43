//! Polling the status byte.

ghost use Rattle.std.specs.Prelude.{◌≡◌, ◌↔◌, ℕ, List, ◌∷◌};
ghost use Rattle.std.specs.Int.{bit_at};
ghost use Rattle.sv_layers.specs.Act.{Act, Polled};
ghost use Rattle.sv_layers.specs.StatusByte.{PolledBit};
ghost use Rattle.sv_layers.specs.Inside.Representation.{StandsFor, IsApplied};

use crate::layers::Layers;
use std::alloc::Allocator;

impl<A: Allocator> Layers<A> {
    /// Polls the status byte: returns it with bit 6 set if a request for service is pending, and
    /// ends this request (IEEE 488.2, 11.2.1). A poll raises no request for service.
    pub fn poll(&mut self) -> u8
        ensures status { (log : List Act) → StandsFor self.old log
            → (k : ℕ) → (bit_at result k ≡ 1) ↔ PolledBit k log }
        ensures applied { (log : List Act) → StandsFor self.old log
            → IsApplied self.old.requests self.new (Polled ∷ log) }
        ensures exchange { self.new.exchange ≡ self.old.exchange }
    {
        let status = self.status.poll();
        self.update_status();
        status
    }
}
