//! Performs the acts of a test's lines on the whole instrument, and prints the answers. After each
//! act, the instrument takes all steps that are due.
//!
//! | Act | Answer |
//! |---|---|
//! | `tell TEXT` | none; writes the text with END; `waits` if the write has to wait |
//! | `say TEXT` | none; writes the text without END; `waits` if the write has to wait |
//! | `read` | up to 256 bytes of the response, or `unterminated`; `waits` if the read has to wait |
//! | `read N` | up to N bytes of the response, and the reasons why they end there |
//! | `poll` | the status byte |
//! | `ticks N` | none; N milliseconds pass |
//! | `input CHANNEL MICROVOLTS`, `external`, `trigger`, `clear` | none |

ghost use Rattle.std.specs.Prelude.{◌<◌, OnSome};
ghost use Rattle.sv_instrument.specs.Representation.{instrument_measure};

use crate::parts::line::{put, put_text};
use crate::words::{bad, cut, value_of};
use bstr::ByteVec;
use std::alloc::Global;
use std::io;
use sv_exchange::Read;
use sv_instrument::Instrument;

/// The most bytes that one write sends.
const MOST_WRITTEN: usize = 4096;
/// The most bytes of a `read` without a number.
const MOST_READ: u32 = 256;

/// Prints the instrument's answer to an act. If the act, or the steps that are due after it, raised
/// requests for service, prints how many.
pub(crate) fn put_session(
    alloc: Global,
    out: &mut String,
    instrument: &mut Instrument,
    text: &str,
) -> io::Result<()> {
    let raised = act(alloc, out, instrument, text)?;
    let raised = raised.wrapping_add(settle(instrument));
    if raised > 0 {
        write!(out, " +{raised}")?;
    }
    Ok(())
}

/// Performs an act, and prints the instrument's answer. Returns how many requests for service the
/// act raised.
fn act(
    alloc: Global,
    out: &mut String,
    instrument: &mut Instrument,
    text: &str,
) -> io::Result<u64> {
    match cut(text) {
        ("tell", text) => tell(alloc, out, instrument, text, true),
        ("say", text) => tell(alloc, out, instrument, text, false),
        ("read", "") => read(out, instrument, None),
        ("read", most) => read(out, instrument, Some(value_of(most)?)),
        ("poll", "") => {
            put(out, instrument.poll())?;
            Ok(0)
        }
        ("ticks", count) => Ok(tick(instrument, value_of(count)?)),
        (name, words) => apply(instrument, name, words),
    }
}

/// Takes steps of the instrument until no step is due. Returns how many requests for service these
/// steps raised. The functions `step`, `tell`, `read`, `tick` and `apply` also return how many
/// requests for service they raised.
fn settle(instrument: &mut Instrument) -> u64 {
    let mut sum = 0u64;
    while let Some(raised) = step(instrument) {
        sum = sum.wrapping_add(u64::from(raised));
    }
    sum
}

/// Takes the step that is due, if there is one. An immediate trigger comes before a step of message
/// exchange.
fn step(instrument: &mut Instrument) -> Option<u8>
    ensures { OnSome result (instrument_measure instrument.new
        < instrument_measure instrument.old) }
{
    match instrument.fire() {
        Some(raised) => Some(raised),
        None => instrument.step(),
    }
}

/// Writes a text, with or without END after its last byte. If the write has to wait, prints
/// `waits`.
fn tell(
    alloc: Global,
    out: &mut String,
    instrument: &mut Instrument,
    text: &str,
    ended: bool,
) -> io::Result<u64> {
    let bytes = Vec::unescape_bytes(alloc, text)?;
    if bytes.len() > MOST_WRITTEN {
        return Err(bad());
    }
    if instrument.can_write() {
        Ok(u64::from(instrument.write(bytes.as_slice(), ended)))
    } else {
        out.push_str(" waits")?;
        Ok(0)
    }
}

/// Reads at most `most` bytes. Prints these bytes, and the reasons why the read ended. For `None`,
/// reads at most 256 bytes and prints no reasons. If the read has to wait, prints `waits`.
fn read(out: &mut String, instrument: &mut Instrument, most: Option<u32>) -> io::Result<u64> {
    if !instrument.can_read() {
        out.push_str(" waits")?;
        return Ok(0);
    }
    let read = instrument.peek(most.unwrap_or(MOST_READ), None);
    if !read.bytes.is_empty() || !read.end {
        put_text(out, read.bytes)?;
        if most.is_some() {
            put_reasons(out, &read)?;
        }
        let count = read.bytes.len();
        Ok(u64::from(instrument.take(count)))
    } else if instrument.can_write() {
        out.push_str(" unterminated")?;
        Ok(u64::from(instrument.unterminated()))
    } else {
        Err(bad())
    }
}

/// Prints the reasons why a read ended.
fn put_reasons(out: &mut String, read: &Read<'_>) -> io::Result<()> {
    let reasons = [
        (read.request_count, " count"),
        (read.character, " character"),
        (read.end, " end"),
    ];
    for (holds, name) in reasons {
        if holds {
            out.push_str(name)?;
        }
    }
    Ok(())
}

/// Lets `count` milliseconds pass. After each millisecond, takes all steps that are due.
fn tick(instrument: &mut Instrument, count: u16) -> u64 {
    let mut sum = 0u64;
    for _ in 0..count {
        let sampled = u64::from(instrument.tick());
        sum = sum.wrapping_add(sampled).wrapping_add(settle(instrument));
    }
    sum
}

/// Performs an act that has no answer.
fn apply(instrument: &mut Instrument, name: &str, words: &str) -> io::Result<u64> {
    let raised = match (name, words) {
        ("external", "") => instrument.external(),
        ("trigger", "") => instrument.trigger(),
        ("clear", "") => instrument.clear(),
        ("input", words) => {
            let (channel, microvolts) = cut(words);
            instrument.input(value_of(channel)?, value_of(microvolts)?)
        }
        _ => return Err(bad()),
    };
    Ok(u64::from(raised))
}
