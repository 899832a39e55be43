//! The end of an act that changes no register directly, and the count of requests for service.

ghost use Rattle.std.specs.Prelude.{◌≡◌, true, List, ◌∷◌, if◌then◌else◌};
ghost use Rattle.sv_layers.specs.Act.{Act};
ghost use Rattle.sv_layers.specs.Inside.LayerLogs.{is_plain};
ghost use Rattle.sv_layers.specs.Inside.Representation.{AllRead, Begun, IsApplied, StandsFor};

use crate::change::{Awaited, Change};
use crate::layers::Layers;
use std::alloc::Allocator;

impl<A: Allocator> Layers<A> {
    /// Returns how many requests for service were raised since this function was last called; 255
    /// if there were more.
    pub fn take_requests(&mut self) -> u8
        ensures count { result ≡ self.old.requests }
        ensures stands { (log : List Act) → StandsFor self.old log → AllRead self.new log }
        ensures value { self.new ≡ record self.old { requests = 0 } }
    {
        let requests = self.requests;
        self.requests = 0;
        requests
    }

    /// Ends an act that changes no register directly: updates the registers' conditions, then the
    /// status byte.
    pub(crate) fn update_status(&mut self)
        ensures applied { (log : List Act) (act : Act) → Begun self.old act log
            → is_plain act ≡ true → IsApplied self.old.requests self.new (act ∷ log) }
        ensures exchange { self.new.exchange ≡ self.old.exchange }
        ensures scanner { self.new.scanner ≡ self.old.scanner }
    {
        self.end(&Change::Hold(Awaited::Nothing));
    }
}

/// Returns the mask if `holds` is true, else 0.
pub(crate) fn mask_if(mask: u8, holds: bool) -> u8
    ensures { result ≡ (if holds then mask else 0) }
{
    if holds { mask } else { 0 }
}
