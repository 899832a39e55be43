//! Performing an order: what a unit tells the instrument to do.

ghost use Rattle.std.specs.Prelude.{◌≡◌, ◌≤◌, List, vec_capacity};
ghost use Rattle.sv_exchange.specs.Contents.{IsUnitDue, next_of};
ghost use Rattle.sv_exchange.specs.Limits.{max_response};
ghost use Rattle.sv_layers.specs.Act.{Act};
ghost use Rattle.sv_instrument.specs.CommandEffect.{Performs, after_action};
ghost use Rattle.sv_instrument.specs.Inside.Acted.{Counts, Behaves, Advances};

use crate::command::order::Order;
use crate::queries::ask;
use crate::scanning::{configure, unless_refused};
use crate::unit_effects::{carry_out, end, hold};
use std::alloc::Allocator;
use sv_errors::Source;
use sv_header::Action;
use sv_layers::{Awaited, Change, Layers};
use sv_scan::ScanAct;

/// Performs the order of the unit that is due. `answer` is the buffer for the unit's answer. If the
/// unit has to wait for the end of the measurement, returns what the unit will answer then; else
/// `None`.
pub(crate) fn perform<A: Allocator>(
    layers: &mut Layers<A>,
    answer: &mut Vec<u8, A>,
    order: Order,
) -> Option<Awaited>
    requires due { IsUnitDue (next_of layers.old.exchange) }
    requires room { max_response ≤ vec_capacity answer.old }
    ensures behaves { (start log : List Act) → Counts start layers.old log
        → Behaves (Performs order log) start layers.new result log }
    ensures advances { Advances layers.old layers.new result }
    ensures capacity { max_response ≤ vec_capacity answer.new }
{
    let change = match order {
        Order::Do(action) => return act(layers, action),
        Order::Ask(question) => return ask(layers, answer, question),
        Order::Apply(change) => Change::Status(change),
        Order::Set(setting) => {
            let allowed = layers.scanner().may_set(&setting);
            unless_refused(allowed, ScanAct::Configure(setting))
        }
        Order::Configure(list) => {
            configure(layers, list);
            end(layers);
            return None;
        }
        Order::Measure(list) => {
            configure(layers, list);
            layers.apply(Change::Scan(ScanAct::Init));
            return hold(layers, Awaited::Readings);
        }
    };
    carry_out(layers, change)
}

/// Performs an action, which has no parameter. If the unit has to wait for the end of the
/// measurement, returns what the unit will answer then; else `None`.
fn act<A: Allocator>(layers: &mut Layers<A>, action: Action) -> Option<Awaited>
    requires { IsUnitDue (next_of layers.old.exchange) }
    ensures behaves { (start log : List Act) → Counts start layers.old log
        → Behaves (λ new. new ≡ after_action action log) start layers.new result log }
    ensures advances { Advances layers.old layers.new result }
{
    let change = match action {
        Action::ClearStatus => Change::ClearStatus,
        Action::Reset => Change::Scan(ScanAct::Reset),
        Action::TellComplete => Change::AskComplete,
        Action::Wait => return hold(layers, Awaited::Nothing),
        Action::WaitAndTell => return hold(layers, Awaited::One),
        Action::Trigger => match layers.trigger(Source::Bus) {
            Ok(()) => {
                end(layers);
                return None;
            }
            Err(ignored) => return carry_out(layers, Change::Report(ignored)),
        },
        Action::Preset => Change::Preset,
        Action::Initiate => unless_refused(layers.scanner().may_init(), ScanAct::Init),
        Action::Abort => Change::Scan(ScanAct::Abort),
        Action::Read => match layers.scanner().may_read() {
            Ok(()) => {
                layers.apply(Change::Scan(ScanAct::Abort));
                layers.apply(Change::Scan(ScanAct::Init));
                return hold(layers, Awaited::Readings);
            }
            Err(deadlock) => return carry_out(layers, Change::Report(deadlock)),
        },
    };
    carry_out(layers, change)
}
