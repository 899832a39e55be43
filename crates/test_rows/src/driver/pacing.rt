//! Plays rows that ask what the loop of sweeps decides: when it polls, and how long it sleeps.

use crate::words::{bad, cut, number};
use std::io::{self, BufWriter, Write};
use sv_pace::Pace;

/// The loop sleeps fewer times than this before it may poll again without sleeping.
const MOST: u32 = 10_000;

/// Converts a number of polls or of milliseconds to 32 bits. A number that doesn't fit becomes the
/// greatest 32-bit number.
fn count_of(number: u64) -> u32 {
    number.min(u64::from(u32::MAX)) as u32
}

/// Lets the loop sleep until it may poll again without sleeping. Returns how many times it slept.
fn sleeps(pace: &mut Pace, now: u64) -> io::Result<u32> {
    for count in 0..MOST {
        if pace.is_spinning(now) {
            return Ok(count);
        }
        pace.end(0, false);
    }
    Err(bad())
}

/// Makes `count` runs of polls that find nothing. Each run begins as soon as the loop may poll
/// without sleeping. For each run, prints how many times the loop sleeps before the run.
fn miss<W: Write + Drop>(pace: &mut Pace, count: u64, writer: &mut BufWriter<W>) -> io::Result<()> {
    for _ in 0..count {
        pace.work(0);
        write!(writer, " {}", sleeps(pace, 0)?)?;
        pace.end(1, false);
    }
    writeln!(writer)
}

/// Executes a line of a row that has `pace` below its title.
fn step<W: Write + Drop>(pace: &mut Pace, line: &str, writer: &mut BufWriter<W>) -> io::Result<()> {
    let (word, text) = cut(line);
    let (first, second) = text.split_once(' ').unwrap_or((text, "0"));
    let (first, second) = (number(first)?, number(second)?);
    match word {
        "ticks" => writeln!(writer, "{line}: {}", pace.ticks(first)),
        "sleep_time" => writeln!(
            writer,
            "{line}: {}",
            pace.sleep_time(first, count_of(second))
        ),
        "eager" => writeln!(writer, "{line}: {}", pace.is_spinning(first)),
        "vain" => {
            write!(writer, "{line}:")?;
            miss(pace, first, writer)
        }
        _ => keep(pace, word, first),
    }
}

/// Executes a line that prints nothing: `work`, `found` or `nothing`.
fn keep(pace: &mut Pace, word: &str, number: u64) -> io::Result<()> {
    match word {
        "work" => pace.work(number),
        "found" => pace.end(count_of(number), true),
        "nothing" => pace.end(count_of(number), false),
        _ => return Err(bad()),
    }
    Ok(())
}

/// Plays a row that has `pace` below its title; `lines` are the lines after `pace`.
pub(crate) fn play<W: Write + Drop>(lines: &str, writer: &mut BufWriter<W>) -> io::Result<()> {
    let mut pace = Pace::new();
    for line in lines.lines() {
        step(&mut pace, line, writer)?;
    }
    Ok(())
}
