//! The lines of events, of the calls that they take, and of the steps that follow them.

ghost use Rattle.std.specs.Prelude.{◌++◌, ◌∷◌, [], decimal};
ghost use Rattle.sv_print.specs.TakenByWriter.{IsTakenByWriter};
ghost use Rattle.sv_print.specs.Printed.{Prints};
ghost use Rattle.sv_explain.specs.Steps.{call_line, end_line, exchange_line, head_line, step_line, unit_line};

use std::io::Write;
use sv_instrument::Step;
use sv_print::{Part, WriteFault, put, put_parts};

/// The step of settling that is due.
#[derive(Clone, Copy)]
pub enum Due<'a> {
    /// No step is due.
    Nothing,
    /// An immediate trigger starts a scan.
    Fire,
    /// The suspended call of this connection resumes.
    Resume(u8),
    /// The instrument takes a step of message exchange.
    Exchange(Step<'a>),
    /// The suspended call of this connection times out.
    TimeOut(u8),
}

/// Writes the line of an event: the line of the script, counted from 1, and the clock after the
/// event, in milliseconds.
pub fn put_head<W: Write>(writer: &mut W, failed: &mut bool, line: u64, clock: u64)
    ensures { Prints (W.contents writer.old) failed.old
        (W.contents writer.new) failed.new (head_line line clock) }
{
    put(
        writer,
        failed,
        &[
            Part::Bytes(b"@ "),
            Part::Number(line),
            Part::Bytes(b" "),
            Part::Number(clock),
            Part::Bytes(b"\n"),
        ],
    )
}

/// Writes the last line: the clock at the end of the script, in milliseconds.
///
/// # Errors
/// If the writer fails.
pub fn put_end<W: Write>(writer: &mut W, clock: u64) -> Result<(), WriteFault>
    ensures { IsTakenByWriter (W.contents writer.old) (W.contents writer.new) result
        (end_line clock) }
{
    put_parts(
        writer,
        &[
            Part::Bytes(b"@ end "),
            Part::Number(clock),
            Part::Bytes(b"\n"),
        ],
    )
}

/// Writes the line of a record that a Turn takes on a connection.
pub fn put_call<W: Write>(writer: &mut W, failed: &mut bool, conn: u8, record: &[u8])
    ensures { Prints (W.contents writer.old) failed.old
        (W.contents writer.new) failed.new (call_line conn «record».now) }
{
    put(
        writer,
        failed,
        &[
            Part::Bytes(b"- call c"),
            Part::Number(u64::from(conn)),
            Part::Bytes(b" "),
            Part::Hex(record),
            Part::Bytes(b"\n"),
        ],
    )
}

/// Writes the line of the step that is due; nothing if no step is due.
pub fn put_step<W: Write>(writer: &mut W, failed: &mut bool, due: Due<'_>)
    ensures { Prints (W.contents writer.old) failed.old
        (W.contents writer.new) failed.new (step_line due.entry) }
{
    match due {
        Due::Nothing => {}
        Due::Fire => put(writer, failed, &[Part::Bytes(b"- fire\n")]),
        Due::Resume(conn) => put_conn(writer, failed, b"- resume c", conn),
        Due::Exchange(step) => put_exchange(writer, failed, step),
        Due::TimeOut(conn) => put_conn(writer, failed, b"- timeout c", conn),
    }
}

/// Writes the line of a step in which the suspended call of a connection ends or goes on.
fn put_conn<W: Write>(writer: &mut W, failed: &mut bool, words: &[u8], conn: u8)
    ensures { Prints (W.contents writer.old) failed.old (W.contents writer.new) failed.new
        (words.now ++ (decimal conn ++ 10 ∷ [])) }
{
    put(
        writer,
        failed,
        &[
            Part::Bytes(words),
            Part::Number(u64::from(conn)),
            Part::Bytes(b"\n"),
        ],
    )
}

/// Writes the line of a step of message exchange.
fn put_exchange<W: Write>(writer: &mut W, failed: &mut bool, step: Step<'_>)
    ensures { Prints (W.contents writer.old) failed.old (W.contents writer.new) failed.new
        (exchange_line step.entry) }
{
    match step {
        Step::Release => put(writer, failed, &[Part::Bytes(b"- release\n")]),
        Step::Overrun => put(writer, failed, &[Part::Bytes(b"- overrun\n")]),
        Step::Interrupt { place, unit } => put_unit(writer, failed, b"- interrupt ", place, unit),
        Step::Unit { place, unit } => put_unit(writer, failed, b"- unit ", place, unit),
        Step::Finish => put(writer, failed, &[Part::Bytes(b"- finish\n")]),
    }
}

/// Writes the line of a step in which a unit starts: its place in its message, and its bytes.
fn put_unit<'a, W: Write>(
    writer: &mut W,
    failed: &mut bool,
    words: &'a [u8],
    place: u16,
    unit: &'a [u8],
)
    ensures { Prints (W.contents writer.old) failed.old (W.contents writer.new) failed.new
        (unit_line words.now place unit.now) }
{
    put(
        writer,
        failed,
        &[
            Part::Bytes(words),
            Part::Number(u64::from(place)),
            Part::Bytes(b" "),
            Part::Hex(unit),
            Part::Bytes(b"\n"),
        ],
    )
}
