//! What a change does to the layer that it belongs to, and how the registers and the status byte
//! are then updated.

ghost use Rattle.std.specs.Prelude.{◌≡◌, List, ◌∷◌, Some, None, OnOk, OnErr, MatchResult};
ghost use Rattle.sv_status.specs.declared.status_byte.StatusAct.{StatusAct};
ghost use Rattle.sv_scan.specs.declared.acts.ScanAct.TheVariants.{Trigger};
ghost use Rattle.sv_scan.specs.declared.setting.State.TheVariants.{Waiting, Scanning};
ghost use Rattle.sv_scan.specs.Counted.{trigger_fault};
ghost use Rattle.sv_layers.specs.Condition.{effective_acts};
ghost use Rattle.sv_layers.specs.Act.{Act, Scanned};
ghost use Rattle.sv_layers.specs.Change.{act_of};
ghost use Rattle.sv_layers.specs.Inside.LayerLogs.{LayerLogs, after_begin, resets};
ghost use Rattle.sv_layers.specs.Inside.Representation.{StandsFor, IsApplied, Represents, state_by};

use crate::change::{Change, StatusChange};
use crate::layers::Layers;
use crate::status::mask_if;
use std::alloc::Allocator;
use sv_errors::{Code, Layer, Source};
use sv_scan::ScanAct;

/// The bit of device-specific errors in the standard events. An overflow of the error queue sets
/// this bit too.
const DEVICE: u8 = 1 << 3;

impl<A: Allocator> Layers<A> {
    /// Applies a change to the layer that it belongs to, then updates each register, then the
    /// status byte.
    pub fn apply(&mut self, change: Change)
        ensures applied { (log : List Act) → StandsFor self.old log
            → IsApplied self.old.requests self.new (act_of change ∷ log) }
        ensures exchange { self.new.exchange ≡ self.old.exchange }
    {
        self.begin(&change);
        self.end(&change);
    }

    /// Applies a change to the layer that it belongs to, without updating the registers. A reset of
    /// the scanner cancels a pending `*OPC`. A reported error sets the standard event of its class;
    /// if the error queue overflows, also the event of device-specific errors.
    fn begin(&mut self, change: &Change)
        ensures stands { (at : LayerLogs) (status_log : List StatusAct)
            → Represents self.old at status_log
            → Represents self.new (after_begin (act_of change.now) at) status_log }
        ensures exchange { self.new.exchange ≡ self.old.exchange }
        ensures requests { self.new.requests ≡ self.old.requests }
    {
        match change {
            Change::Scan(act) => {
                self.waits &= !is_reset(act);
                self.scanner.act(*act);
            }
            Change::Report(code) => {
                let overflows = self.errors.report(*code);
                self.standard.occur(code.standard_event());
                self.standard.occur(mask_if(DEVICE, overflows));
            }
            Change::TakeEntry => {
                self.errors.take();
            }
            Change::ClearStatus => {
                self.errors.clear();
                self.waits = false;
            }
            Change::AskComplete => self.waits = true,
            Change::Status(StatusChange::EnableService(mask)) => self.service = *mask,
            _ => {}
        }
    }

    /// Applies a trigger from this source, which begins the next scan.
    ///
    /// # Errors
    /// [`Code::TriggerIgnored`] if the scanner doesn't wait for a trigger from this source; then
    /// nothing changes.
    pub fn trigger(&mut self, source: Source) -> Result<(), Code>
        ensures applied { (log : List Act) → StandsFor self.old log
            → MatchResult result (λ done. (trigger_fault (effective_acts log) source ≡ None)
            × IsApplied self.old.requests self.new (Scanned (Trigger source) ∷ log))
            (λ code. trigger_fault (effective_acts log) source ≡ Some code) }
        ensures exchange { self.new.exchange ≡ self.old.exchange }
        ensures scanning { OnOk result ((state_by self.old ≡ Waiting)
            × (state_by self.new ≡ Scanning)) }
        ensures refused { OnErr result (self.new ≡ self.old) }
    {
        self.scanner.trigger(source)?;
        self.update_status();
        Ok(())
    }
}

/// Whether an act is a reset.
fn is_reset(act: &ScanAct) -> bool
    ensures { result ≡ resets act.now }
{
    match act {
        ScanAct::Reset => true,
        _ => false,
    }
}
