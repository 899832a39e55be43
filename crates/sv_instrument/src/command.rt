//! Commands: reads a unit, and returns what the unit tells the instrument to do, as a value. This
//! module doesn't use the instrument's state.

ghost use Rattle.std.specs.Prelude.{ℕ, List};
ghost use Rattle.sv_lexer.specs.Unit.{IsLexed};
ghost use Rattle.sv_instrument.specs.Command.Unit.{IsReadAs};

mod filling;
pub mod order;
mod values;

use crate::command::filling::order;
use crate::command::order::Order;
use std::alloc::Allocator;
use sv_errors::Code;
use sv_header::{Path, Table};
use sv_lexer::Unit;

/// Reads a unit relative to `path`, and returns its order. `lexed` is the unit as `sv_lexer` read
/// it, or the error that `sv_lexer` found. If the header names a command, `path` is updated, even
/// if the parameters are wrong.
///
/// # Errors
/// The first of these that applies: the error in `lexed`; [`Code::UndefinedHeader`] if the header
/// names no command; [`Code::InvalidExpression`] if a parenthesis isn't closed;
/// [`Code::SyntaxError`] if a parameter is empty; [`Code::ParameterNotAllowed`] if there are too
/// many parameters; [`Code::MissingParameter`]; the error of the parameter's value. For a range,
/// any voltage is accepted here: the scanner checks later whether it has this range.
pub fn read_unit<A: Allocator>(
    table: &Table<A>,
    path: &mut Path,
    lexed: Result<Unit<'_>, Code>,
) -> Result<Order, Code>
    ensures { (unit : List ℕ) → IsLexed lexed.entry unit
        → IsReadAs path.old unit result path.new }
{
    let unit = lexed?;
    let header = unit.header();
    let command = table.resolve(path, header.text)?;
    path.follow(header.text);
    order(command, &unit)
}
