//! Reads a scenario. Each line of a scenario is an entry or empty.

ghost use Rattle.std.specs.Prelude.{◌≡◌, List, [], ◌++◌, ◌∷◌, MatchResult, Ok, Err};
ghost use Rattle.sv_replay.specs.Scenario.{Reads};
ghost use Rattle.sv_replay.specs.ScenarioStage.{Adds};

use crate::entry::{Entry, timely};
use std::alloc::{AllocError, Allocator};
use sv_text::first_part;
use thiserror::Error;

/// Why a scenario can't be read.
#[derive(Clone, Copy, Debug, Error)]
pub enum ScenarioFault {
    /// The line with this number, counted from 1, has more than 65,536 bytes, or isn't an entry, or
    /// its entry is earlier than the entry before it.
    #[error("bad line {0}")]
    BadLine(u64),
    /// Memory was refused.
    #[error("memory")]
    Memory,
}

/// Reads a scenario. Each line is an entry or empty, and no entry is earlier than the entry before
/// it.
///
/// # Errors
/// The first line with a fault decides. `BadLine`: the line has more than 65,536 bytes, isn't an
/// entry, or is too early. `Memory`: there was no memory for the entry of the line.
pub fn read_scenario<A: Allocator + Copy>(
    alloc: A,
    text: &[u8],
) -> Result<Vec<Entry, A>, ScenarioFault>
    ensures { MatchResult result (λ entries. Reads text.now (Ok entries.items))
        (λ fault. Reads text.now (Err fault)) }
{
    let mut entries = Vec::new(alloc);
    let mut least = 0;
    let mut number = 0;
    let mut rest = text;
    while let (line, Some(behind)) = first_part(rest, b'\n') {
        number += 1;
        least = add(&mut entries, line, number, least)?;
        rest = behind;
    }
    add(&mut entries, rest, number + 1, least)?;
    Ok(entries)
}

/// Appends the entry of a line, unless the line is empty. `least` is the tick of the last entry
/// before this line. Returns the tick of the last entry after this line.
fn add<A: Allocator>(
    entries: &mut Vec<Entry, A>,
    line: &[u8],
    number: u64,
    least: u64,
) -> Result<u64, ScenarioFault>
    ensures { Adds least line.now number entries.old.items entries.new.items result }
{
    if line.is_empty() {
        return Ok(least);
    }
    let Some(entry) = timely(line, least) else {
        return Err(ScenarioFault::BadLine(number));
    };
    match entries.push(entry) {
        Ok(()) => Ok(entry.tick),
        Err(_) => Err(ScenarioFault::Memory),
    }
}
