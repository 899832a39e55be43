//! Replays scripts with a reader that gives few bytes or fails, with a writer that takes few bytes
//! or fails, or with memory that is refused. Explains scripts.

use crate::streams::{Manner, Sink, Source};
use crate::turns::each;
use crate::words::{bad, cut, number, value_of};
use failing_alloc::FailingAllocator;
use std::alloc::Global;
use std::io::{self, BufWriter, Write};
use sv_replay::{Mode, Ports, RunFault, run_script};

/// In a `! reads` row, one run of the replay reads from its input fewer times than this.
const MOST_READS: u64 = 1_000;

/// How the reader and the writer of a replay behave, as these words say. The words stand after `! `
/// in the first line of the row's text.
fn manner_of(words: &str) -> io::Result<Manner> {
    let ample = Manner::ample();
    if let Some(count) = words.strip_prefix("output takes ") {
        let room = number(count)? as usize;
        return Ok(Manner { room, ..ample });
    }
    if let Some(count) = words.strip_prefix("output stops at ") {
        let room = number(count)? as usize;
        let is_silent = true;
        return Ok(Manner {
            room,
            is_silent,
            ..ample
        });
    }
    if let Some(ports) = words.strip_prefix("ports ") {
        let (core, abort) = cut(ports);
        let ports = Ports {
            core: value_of(core)?,
            abort: value_of(abort)?,
        };
        return Ok(Manner { ports, ..ample });
    }
    match words {
        "singly" => Ok(Manner {
            singly: true,
            ..ample
        }),
        "input fails" => Ok(Manner {
            input_fails: true,
            ..ample
        }),
        "explain" => Ok(Manner {
            mode: Mode::Explained,
            ..ample
        }),
        "memory" => Ok(ample),
        _ => Err(bad()),
    }
}

/// Returns the text that the test prints for a replay. If `narrow` is true, this text begins with
/// how many bytes the writer took. Then come these bytes. If the replay failed, the fault follows
/// on a line of its own.
fn told(
    alloc: Global,
    taken: &[u8],
    narrow: bool,
    answer: Result<(), RunFault>,
) -> io::Result<String> {
    let Ok(text) = str::from_utf8(taken) else {
        return Err(bad());
    };
    let mut outcome = String::new(alloc);
    if narrow {
        let count = format!(in alloc; "{} bytes\n", taken.len())?;
        outcome.push_str(&count)?;
    }
    outcome.push_str(text)?;
    if let Err(fault) = answer {
        if !text.is_empty() && !text.ends_with('\n') {
            outcome.push('\n')?;
        }
        let fault = format!(in alloc; "{fault}\n")?;
        outcome.push_str(&fault)?;
    }
    Ok(outcome)
}

/// Runs a replay of a script. Returns what the replay prints, and the fault if the replay fails.
fn outcome(
    alloc: Global,
    heap: &FailingAllocator<Global>,
    manner: Manner,
    script: &str,
) -> io::Result<String> {
    Ok(read_out(alloc, heap, manner, script)?.0)
}

/// Runs a replay of a script. Returns two values: what the replay prints, with the fault if the
/// replay fails; and how many times the replay read from its input.
fn read_out(
    alloc: Global,
    heap: &FailingAllocator<Global>,
    manner: Manner,
    script: &str,
) -> io::Result<(String, u64)> {
    let mut source = Source {
        rest: script.as_bytes(),
        manner,
        was_interrupted: false,
        reads: 0,
    };
    let sink = Sink {
        taken: Vec::new(alloc),
        manner,
        was_interrupted: false,
    };
    let mut writer = BufWriter::new(alloc, sink)?;
    let answer = run_script(heap, manner.ports, manner.mode, &mut source, &mut writer);
    let narrow = manner.room < usize::MAX;
    let told = told(alloc, writer.get_ref().taken.as_slice(), narrow, answer)?;
    Ok((told, source.reads))
}

/// Replays a script with a reader and a writer that behave as these words say. Prints the output of
/// the replay, and the fault if the replay fails. For `memory`, does so for each allocation that
/// can be refused.
pub(crate) fn play<W: Write + Drop>(
    alloc: Global,
    words: &str,
    script: &str,
    writer: &mut BufWriter<W>,
) -> io::Result<()> {
    match words.strip_prefix("memory") {
        Some(rest) => {
            let manner = manner_of(rest.strip_prefix(", ").unwrap_or("memory"))?;
            each(alloc, |heap| outcome(alloc, heap, manner, script), writer)
        }
        None => {
            let heap = FailingAllocator::new(alloc);
            let outcome = outcome(alloc, &heap, manner_of(words)?, script)?;
            write!(writer, "{outcome}")
        }
    }
}

/// Replays a script, or explains it. Prints the lines of the output, except those that end in
/// `ending`.
pub(crate) fn play_without<W: Write + Drop>(
    alloc: Global,
    mode: Mode,
    ending: &str,
    script: &str,
    writer: &mut BufWriter<W>,
) -> io::Result<()> {
    let heap = FailingAllocator::new(alloc);
    let manner = Manner {
        mode,
        ..Manner::ample()
    };
    let outcome = outcome(alloc, &heap, manner, script)?;
    for line in outcome.lines() {
        if !line.ends_with(ending) {
            writeln!(writer, "{line}")?;
        }
    }
    Ok(())
}

/// The script with one more line after its first `place` lines: this line closes connection `conn`.
fn closed(alloc: Global, script: &str, conn: u8, place: usize) -> io::Result<String> {
    let mut made = String::new(alloc);
    for (number, line) in script.lines().enumerate() {
        if number == place {
            let close = format!(in alloc; "close c{conn}\n")?;
            made.push_str(&close)?;
        }
        made.push_str(line)?;
        made.push('\n')?;
    }
    Ok(made)
}

/// For each n: plays the script with this connection closed after the first n lines, and prints the
/// output.
fn play_closes<W: Write + Drop>(
    alloc: Global,
    script: &str,
    conn: u8,
    writer: &mut BufWriter<W>,
) -> io::Result<()> {
    for place in 0..script.lines().count() {
        let heap = FailingAllocator::new(alloc);
        let made = closed(alloc, script, conn, place)?;
        let outcome = outcome(alloc, &heap, Manner::ample(), &made)?;
        write!(writer, "close c{conn} behind {place}\n{outcome}")?;
    }
    Ok(())
}

/// For each of three connections and each n: plays the script with that connection closed after the
/// first n lines, and prints the output.
pub(crate) fn play_closed<W: Write + Drop>(
    alloc: Global,
    script: &str,
    writer: &mut BufWriter<W>,
) -> io::Result<()> {
    for conn in 0..3 {
        play_closes(alloc, script, conn, writer)?;
    }
    Ok(())
}

/// Plays a script again and again: first its first read fails, then its second, and so on; at last
/// no read fails. For each run, prints the number of reads and the output.
pub(crate) fn play_reads<W: Write + Drop>(
    alloc: Global,
    script: &str,
    writer: &mut BufWriter<W>,
) -> io::Result<()> {
    for fails_at in 1..MOST_READS {
        let heap = FailingAllocator::new(alloc);
        let singly = true;
        let manner = Manner {
            singly,
            fails_at,
            ..Manner::ample()
        };
        let (outcome, reads) = read_out(alloc, &heap, manner, script)?;
        write!(writer, "{reads} reads\n{outcome}")?;
        if reads < fails_at {
            return Ok(());
        }
    }
    Err(bad())
}
