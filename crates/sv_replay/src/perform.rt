//! Performs a line of a replay.

ghost use Rattle.std.specs.Prelude.{◌≡◌, ℕ, List};
ghost use Rattle.std.specs.Io.KnownBytes.{Appends};
ghost use Rattle.sv_history.specs.declared.event.Config.{Config};
ghost use Rattle.sv_history.specs.Event.{PlainEvent, plain};
ghost use Rattle.sv_server.specs.Server.State.{StandsFor};
ghost use Rattle.sv_replay.specs.Line.{Ticks};
ghost use Rattle.sv_replay.specs.PlainLine.{plain_line};
ghost use Rattle.sv_replay.specs.Script.{events_of, PrintsOne, Performs};

use crate::line::Line;
use crate::mode::Mode;
use std::alloc::Allocator;
use std::io::Write;
use sv_server::{Event, ReplayFault, Server};

/// Applies an event, and writes what the replay prints for it. `number` is the number of the line.
#[inline(always)]
fn apply<A: Allocator, W: Write>(
    server: &mut Server<A>,
    event: Event<'_>,
    mode: Mode,
    number: u64,
    writer: &mut W,
) -> Result<(), ReplayFault>
    ensures { (config : Config) (history : List PlainEvent) → StandsFor server.old config history
        → (text : List ℕ) × (after : List PlainEvent)
        × PrintsOne mode number config history (plain event.entry) result text after
        × StandsFor server.new config after
        × Appends (W.contents writer.old) (W.contents writer.new) text }
{
    match mode {
        Mode::Plain => server.replay(event, writer),
        Mode::Explained => server.explain(event, number, writer),
    }
}

/// Applies the events that a line describes, and writes what the replay prints for each.
pub fn perform<A: Allocator, W: Write>(
    server: &mut Server<A>,
    line: Line<'_>,
    mode: Mode,
    number: u64,
    writer: &mut W,
) -> Result<(), ReplayFault>
    ensures { (config : Config) (history : List PlainEvent) → StandsFor server.old config history
        → (text : List ℕ) × (after : List PlainEvent)
        × Performs mode config history (events_of number (plain_line line.entry)) result text after
        × StandsFor server.new config after
        × Appends (W.contents writer.old) (W.contents writer.new) text }
{
    match line {
        Line::Blank => Ok(()),
        Line::One(event) => apply(server, event, mode, number, writer),
        Line::Ticks(count) => pass(server, count, mode, number, writer),
    }
}

/// Applies this number of ticks, each as an event of its own.
fn pass<A: Allocator, W: Write>(
    server: &mut Server<A>,
    count: u32,
    mode: Mode,
    number: u64,
    writer: &mut W,
) -> Result<(), ReplayFault>
    ensures { (config : Config) (history : List PlainEvent) → StandsFor server.old config history
        → (text : List ℕ) × (after : List PlainEvent)
        × Performs mode config history (events_of number (Ticks count)) result text after
        × StandsFor server.new config after
        × Appends (W.contents writer.old) (W.contents writer.new) text }
{
    for _ in 0..count {
        apply(server, Event::Tick, mode, number, writer)?;
    }
    Ok(())
}
