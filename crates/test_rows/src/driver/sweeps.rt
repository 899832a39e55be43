//! Plays a row: makes a driver as the row's first lines say, and makes the row's sweeps.

use super::scripted::Scripted;
use super::shown::show;
use crate::words::{bad, cut, number};
use failing_alloc::FailingAllocator;
use std::alloc::Global;
use std::io::{self, BufWriter, Error, ErrorKind, Write};
use sv_recording::{Recorder, Tape};
use sv_replay::{Entry, read_scenario, read_stimulus};
use sv_serve::Driver;
use sv_server::{Config, Server};

/// In a `sweep` line: the text between the milliseconds that pass and the number of the allocation
/// that fails.
const MEMORY: &str = " memory ";

/// The driver with which a row is played.
type Played<'a> = Driver<Recorder<Scripted>, &'a FailingAllocator<Global>, Tape<Vec<u8>>>;

/// If the first line begins with `word`, returns the number in this line, and the lines after it.
/// Else returns 0, and all lines.
fn setting<'a>(word: &str, text: &'a str) -> io::Result<(u64, &'a str)> {
    match text.strip_prefix(word) {
        Some(rest) => {
            let (first, behind) = rest.split_once('\n').unwrap_or((rest, ""));
            Ok((number(first)?, behind))
        }
        None => Ok((0, text)),
    }
}

/// Reads the lines of a row before its sweeps: the clock, the number of the allocation that fails,
/// and the entries of the scenario.
fn front(row: &str) -> io::Result<(u64, u64, &str)> {
    let (front, _) = row.split_once("\nsweep ").unwrap_or((row, ""));
    let (_, settings) = front.split_once('\n').unwrap_or((front, ""));
    let (clock, settings) = setting("clock ", settings)?;
    let (refused, entries) = setting("memory ", settings)?;
    Ok((clock, refused, entries))
}

/// Reads these lines as the entries of a scenario.
fn scenario<'a>(
    heap: &'a FailingAllocator<Global>,
    entries: &str,
) -> io::Result<Vec<Entry, &'a FailingAllocator<Global>>> {
    match read_scenario(heap, entries.as_bytes()) {
        Ok(scenario) => Ok(scenario),
        Err(_) => Err(bad()),
    }
}

/// Makes the driver with which a row is played. If the row has a line `memory N`, the Nth
/// allocation of `Driver::with_journal` is refused.
fn made<'a>(
    alloc: Global,
    heap: &'a FailingAllocator<Global>,
    row: &str,
) -> io::Result<Played<'a>> {
    let (clock, refused, entries) = front(row)?;
    let scripted = Scripted::new(alloc, String::from_str(alloc, row)?);
    let wire = Recorder::new(alloc, scripted);
    let scenario = scenario(heap, entries)?;
    let config = Config {
        core: 4096,
        abort: 4097,
        clock: clock.min(9_223_372_036_854_775_807),
    };
    let server = Server::new(heap, config)?;
    heap.refuse(refused);
    let tape = Tape::new(Vec::new(alloc));
    Ok(Driver::with_journal(heap, server, wire, scenario, tape)?)
}

/// Makes a sweep, and prints the calls that the driver made to the wire's functions in this sweep.
fn sweep<W: Write + Drop>(
    heap: &FailingAllocator<Global>,
    driver: &mut Played<'_>,
    place: usize,
    line: &str,
    writer: &mut BufWriter<W>,
) -> io::Result<()> {
    let (ticks, refused) = line.split_once(MEMORY).unwrap_or((line, "0"));
    let ticks = number(ticks)?.min(u64::from(u32::MAX)) as u32;
    driver.wire().wire().sweep.set(place);
    let before = driver.wire().calls().len();
    heap.refuse(number(refused)?);
    driver.sweep(ticks);
    writeln!(writer, "sweep {line}")?;
    for call in driver.wire().calls().get(before..).unwrap_or(&[]) {
        show(call, writer)?;
    }
    if !driver.wire().is_whole() {
        return Err(Error::from(ErrorKind::OutOfMemory));
    }
    if heap.is_armed() {
        writeln!(writer, "memory was not asked for")?;
    }
    Ok(())
}

/// Executes the lines after a sweep.
fn step_each<W: Write + Drop>(
    driver: &mut Played<'_>,
    lines: &str,
    writer: &mut BufWriter<W>,
) -> io::Result<()> {
    for line in lines.lines() {
        step(driver, line, writer)?;
    }
    Ok(())
}

/// Executes a line after a sweep, if it isn't an answer of the wire. For `still N`, prints whether
/// nothing becomes due within N milliseconds; for `played`, whether the scenario is at its end; for
/// `script`, what the journal has written. For `stimulus S`, hands the stimulus S in, or prints
/// that the server doesn't accept it.
fn step<W: Write + Drop>(
    driver: &mut Played<'_>,
    line: &str,
    writer: &mut BufWriter<W>,
) -> io::Result<()> {
    let (word, rest) = cut(line);
    let so = match word {
        "still" => driver.is_still(number(rest)?.min(u64::from(u32::MAX)) as u32),
        "played" => driver.is_played(),
        "script" => return writer.write_all(driver.journal().writer()),
        "stimulus" => return stimulate(driver, rest, writer),
        _ => return Ok(()),
    };
    writeln!(writer, "{line}: {so}")
}

/// Hands a stimulus in, or prints that the server doesn't accept it.
fn stimulate<W: Write + Drop>(
    driver: &mut Played<'_>,
    line: &str,
    writer: &mut BufWriter<W>,
) -> io::Result<()> {
    match read_stimulus(line.as_bytes()) {
        Some(stimulus) => {
            driver.stimulate(stimulus);
            Ok(())
        }
        None => writeln!(writer, "{line}: no stimulus"),
    }
}

/// Makes each sweep of a row.
fn sweep_each<W: Write + Drop>(
    heap: &FailingAllocator<Global>,
    driver: &mut Played<'_>,
    row: &str,
    writer: &mut BufWriter<W>,
) -> io::Result<()> {
    let mut place = 0usize;
    for section in row.split("\nsweep ") {
        if place > 0 {
            let (line, behind) = section.split_once('\n').unwrap_or((section, ""));
            sweep(heap, driver, place, line, writer)?;
            step_each(driver, behind, writer)?;
        }
        place = place.saturating_add(1);
    }
    Ok(())
}

/// Plays the sweeps of a row, whose first line is its kind, or prints `memory` if there was no
/// memory for the row's driver.
pub(crate) fn play<W: Write + Drop>(
    alloc: Global,
    row: &str,
    writer: &mut BufWriter<W>,
) -> io::Result<()> {
    let heap = FailingAllocator::new(alloc);
    match made(alloc, &heap, row) {
        Ok(mut driver) => sweep_each(&heap, &mut driver, row, writer),
        Err(fault) => told(fault, writer),
    }
}

/// Prints `memory` if the fault is that memory was refused. Returns any other fault.
fn told<W: Write + Drop>(fault: Error, writer: &mut BufWriter<W>) -> io::Result<()> {
    match fault.kind() {
        ErrorKind::OutOfMemory => writeln!(writer, "memory"),
        _ => Err(fault),
    }
}
