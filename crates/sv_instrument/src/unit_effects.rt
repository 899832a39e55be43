//! How a unit ends, how its answer is added, and how it is held: it waits for the end of the
//! measurement.

ghost use Rattle.std.specs.Prelude.{◌≡◌, List, ◌∷◌, None};
ghost use Rattle.sv_exchange.specs.Contents.{IsUnitDue, next_of};
ghost use Rattle.sv_layers.specs.Act.{Act, Held as HeldAct};
ghost use Rattle.sv_layers.specs.Change.{act_of};
ghost use Rattle.sv_instrument.specs.CommandEffect.{done as done_of, after_answering};
ghost use Rattle.sv_instrument.specs.Inside.Acted.{Counts, Behaves, Advances};

use std::alloc::Allocator;
use sv_errors::Code;
use sv_layers::{Awaited, Change, Layers};

/// Ends the unit that is due.
pub(crate) fn end<A: Allocator>(layers: &mut Layers<A>)
    requires { IsUnitDue (next_of layers.old.exchange) }
    ensures behaves { (start log : List Act) → Counts start layers.old log
        → Behaves (λ new. new ≡ done_of log) start layers.new None log }
    ensures advances { Advances layers.old layers.new None }
{
    layers.done();
}

/// Applies a change, and ends the unit that is due. Returns `None`, because the unit isn't held.
pub(crate) fn carry_out<A: Allocator>(layers: &mut Layers<A>, change: Change) -> Option<Awaited>
    requires { IsUnitDue (next_of layers.old.exchange) }
    ensures behaves { (start log : List Act) → Counts start layers.old log
        → Behaves (λ new. new ≡ done_of (act_of change ∷ log)) start layers.new result log }
    ensures advances { Advances layers.old layers.new result }
{
    layers.apply(change);
    end(layers);
    None
}

/// Holds the unit that is due: it doesn't end now, but waits for the end of the measurement.
/// Returns `awaited`, which is what the unit will answer then.
pub(crate) fn hold<A: Allocator>(layers: &mut Layers<A>, awaited: Awaited) -> Option<Awaited>
    requires { IsUnitDue (next_of layers.old.exchange) }
    ensures behaves { (start log : List Act) → Counts start layers.old log
        → Behaves (λ new. new ≡ HeldAct awaited ∷ log) start layers.new result log }
    ensures advances { Advances layers.old layers.new result }
{
    layers.apply(Change::Hold(awaited));
    Some(awaited)
}

/// Ends the unit that is due, and adds its answer to the answers of the message, if there is room
/// for it; else drops all answers of the message, and reports -430.
pub(crate) fn reply<A: Allocator>(layers: &mut Layers<A>, text: &[u8])
    requires { IsUnitDue (next_of layers.old.exchange) }
    ensures behaves { (start log : List Act) → Counts start layers.old log
        → Behaves (λ new. new ≡ after_answering text.now (done_of log)) start layers.new None log }
    ensures advances { Advances layers.old layers.new None }
{
    layers.done();
    if !layers.respond(text) {
        layers.apply(Change::Report(Code::QueryDeadlocked));
    }
}
