//! The start of a unit, and the end of a held unit.

ghost use Rattle.std.specs.Prelude.{◌≡◌, ◌≤◌, ℕ, List, Some, None, vec_capacity};
ghost use Rattle.sv_exchange.specs.Exchange.{next_unit};
ghost use Rattle.sv_exchange.specs.Contents.{IsUnitDue, next_of};
ghost use Rattle.sv_exchange.specs.Limits.{max_response};
ghost use Rattle.sv_layers.specs.Act.{Act, exchange_acts};
ghost use Rattle.sv_instrument.specs.Step.{after_release};
ghost use Rattle.sv_instrument.specs.Inside.Acted.{Counts, Behaves, Advances, Follows};

use crate::command::read_unit;
use crate::orders::perform;
use crate::readings::put_readings;
use crate::unit_effects::{carry_out, end, reply};
use std::alloc::Allocator;
use sv_errors::Code;
use sv_header::{Path, Table};
use sv_layers::{Awaited, Change, Layers};

/// Starts the unit that is due: executes it, or reports the first fault in it. If the unit's header
/// names a command, updates the path for the next unit.
pub(crate) fn start<A: Allocator>(
    table: &Table<A>,
    path: &mut Path,
    layers: &mut Layers<A>,
    answer: &mut Vec<u8, A>,
) -> Option<Awaited>
    requires due { IsUnitDue (next_of layers.old.exchange) }
    requires room { max_response ≤ vec_capacity answer.old }
    ensures behaves { (start log : List Act) → Counts start layers.old log → (unit : List ℕ)
        × (next_unit (exchange_acts log) ≡ Some unit)
        × Behaves (Follows unit path.old path.new log) start layers.new result log }
    ensures advances { Advances layers.old layers.new result }
    ensures capacity { max_response ≤ vec_capacity answer.new }
{
    match read_unit(table, path, layers.exchange().lexed()) {
        Ok(order) => perform(layers, answer, order),
        Err(code) => carry_out(layers, Change::Report(code)),
    }
}

/// Ends the held unit, and adds its answer, if it has one, to the answers of the message.
pub(crate) fn release<A: Allocator>(
    layers: &mut Layers<A>,
    answer: &mut Vec<u8, A>,
    awaited: Awaited,
)
    requires due { IsUnitDue (next_of layers.old.exchange) }
    requires room { max_response ≤ vec_capacity answer.old }
    ensures behaves { (start log : List Act) → Counts start layers.old log
        → Behaves (λ new. new ≡ after_release awaited log) start layers.new None log }
    ensures advances { Advances layers.old layers.new None }
    ensures capacity { max_response ≤ vec_capacity answer.new }
{
    match awaited {
        Awaited::Nothing => end(layers),
        Awaited::One => reply(layers, b"1"),
        Awaited::Readings => {
            answer.clear();
            put_readings(answer, layers.scanner().readings_so_far());
            reply(layers, answer.as_slice());
        }
    }
}
