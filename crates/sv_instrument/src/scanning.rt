//! What orders do to the scanner.

ghost use Rattle.std.specs.Prelude.{◌≡◌, List, ◌∷◌, Option};
ghost use Rattle.sv_layers.specs.Act.{Act, Scanned};
ghost use Rattle.sv_layers.specs.Change.{act_of};
ghost use Rattle.sv_errors.specs.declared.code.Code.{Code};
ghost use Rattle.sv_scan.specs.Answered.{refused_by};
ghost use Rattle.sv_instrument.specs.CommandEffect.{unless, done as done_of, after_configure};
ghost use Rattle.sv_instrument.specs.Inside.Acted.{Counts};

use std::alloc::Allocator;
use sv_errors::{Code, Source};
use sv_layers::{Change, Layers};
use sv_scan::{ScanAct, ScanList, Setting};

/// The range that a configured measurement gets, in microvolts.
const RANGE: i64 = 10_000_000;

/// Returns the change to apply: the act `act` of the scanner if `allowed` is `Ok`, else the report
/// of the error in `allowed`.
pub(crate) fn unless_refused(allowed: Result<(), Code>, act: ScanAct) -> Change
    ensures { (fault : Option Code) (log : List Act) → allowed ≡ refused_by fault
        → done_of (act_of result ∷ log) ≡ unless fault (done_of (Scanned act ∷ log)) log }
{
    match allowed {
        Ok(()) => Change::Scan(act),
        Err(fault) => Change::Report(fault),
    }
}

/// Configures a measurement: aborts the one that is under way, sets range, source of triggers and
/// number of scans to their defaults, and then sets the scan list, if one is given.
pub(crate) fn configure<A: Allocator>(layers: &mut Layers<A>, list: Option<ScanList>)
    ensures counts { (start log : List Act) → Counts start layers.old log
        → Counts start layers.new (after_configure list log) }
    ensures exchange { layers.new.exchange ≡ layers.old.exchange }
{
    layers.apply(Change::Scan(ScanAct::Abort));
    layers.apply(Change::Scan(ScanAct::Configure(Setting::Range(RANGE))));
    layers.apply(Change::Scan(ScanAct::Configure(Setting::Source(Source::Immediate))));
    layers.apply(Change::Scan(ScanAct::Configure(Setting::Count(1))));
    if let Some(list) = list {
        layers.apply(Change::Scan(ScanAct::Configure(Setting::List(list))));
    }
}
