//! The run of a replay: the lines of a text, one after the other.

ghost use Rattle.std.specs.Prelude.{◌≡◌, ◌≢◌, ◌⊎◌, ℕ, ◌-◌, ◌^◌, ◌<◌, List, [], length, Err, None, IfOk, IfErr, OnOk};
ghost use Rattle.std.specs.Io.Buffered.{writer_buffer, writer_contents};
ghost use Rattle.std.specs.Io.KnownBytes.{Consumes, Appends, Keeps, IsAtEnd};
ghost use Rattle.sv_print.specs.TakenByWriter.{IsTakenByWriter};
ghost use Rattle.sv_history.specs.declared.event.Config.{Config};
ghost use Rattle.sv_history.specs.Act.{Act};
ghost use Rattle.sv_history.specs.Event.{PlainEvent};
ghost use Rattle.sv_history.specs.History.{IsLogOf};
ghost use Rattle.sv_explain.specs.Steps.{end_line};
ghost use Rattle.sv_server.specs.Explain.Telling.{clock_at};
ghost use Rattle.sv_server.specs.Server.State.{StandsFor};
ghost use Rattle.sv_replay.specs.Text.{first_end, nothing_held};
ghost use Rattle.sv_replay.specs.Run.{config_of, RunsIn};
ghost use Rattle.sv_replay.specs.Reads.{Turns, IsReadOut, OnInput};
ghost use Rattle.sv_replay.specs.Stage.{LineRuns, WhileGoing, Progress, Moves, StepsRun, ScriptRuns};

use crate::fault::RunFault;
use crate::input::Source;
use crate::line::read_line;
use crate::mode::Mode;
use crate::perform::perform;
use crate::ports::Ports;
use crate::run_state::{Run, start};
use crate::text::LONGEST_LINE;
use std::alloc::Allocator;
use std::io::{BufWriter, Write};
use sv_server::Server;

/// Runs a script on a new server with these ports: reads the script line by line, and prints to the
/// writer what `mode` says. In the mode `Explained`, the last line tells the clock, unless a fault
/// stops the run. The writer is flushed before each read. So a peer that waits for an answer before
/// it sends more gets the answer. The writer is also flushed at the end, whatever stopped the run.
///
/// # Errors
/// The first fault that happens is returned. `Memory`: memory was refused at the start or for an
/// event. `Input`: the reader failed, or was read 4,294,967,294 times. `BadLine`: a line isn't a
/// line of a replay, or has more than 65,536 bytes. `Output`: the writer failed. But if the final
/// flush fails, `Output` is returned in place of an earlier fault.
pub fn run_script<A: Allocator + Copy, R: Source, W: Write + Drop, B: Allocator>(
    alloc: A,
    ports: Ports,
    mode: Mode,
    reader: &mut R,
    writer: &mut BufWriter<W, B>,
) -> Result<(), RunFault>
    ensures runs { (read text : List ℕ)
        × Consumes (R.remaining reader.old) (R.remaining reader.new) read
        × Appends (writer_contents W.contents writer.old)
        (writer_contents W.contents writer.new) text
        × RunsIn (config_of ports) mode read (R.remaining reader.new) result text }
    ensures end { OnOk result (IsAtEnd (R.remaining reader.new)) }
    // The reader is read at most 4,294,967,294 times. The fault `Input` means that the last read
    // failed, or that the reader was read that many times.
    ensures reads { IsReadOut R.gives reader.old reader.new result }
    // Unless the output failed, no printed byte remains in the writer's buffer.
    ensures flushed { result ≢ Err RunFault.Output → writer_buffer writer.new ≡ [] }
{
    let answer = run_lines(alloc, ports, mode, reader, writer);
    pass_on(writer, answer)
}

/// Flushes the writer. Returns `answer`, or `Output` if the flush fails.
fn pass_on<W: Write + Drop, B: Allocator>(
    writer: &mut BufWriter<W, B>,
    answer: Result<(), RunFault>,
) -> Result<(), RunFault>
    ensures kept { Keeps (writer_contents W.contents writer.old)
        (writer_contents W.contents writer.new) }
    ensures answer { (result ≡ answer) ⊎ (result ≡ Err RunFault.Output) }
    ensures flushed { result ≢ Err RunFault.Output → writer_buffer writer.new ≡ [] }
{
    match writer.flush() {
        Ok(()) => answer,
        Err(_) => Err(RunFault::Output),
    }
}

/// Runs the replay to its end, but doesn't flush the writer after the last lines.
fn run_lines<A: Allocator + Copy, R: Source, W: Write>(
    alloc: A,
    ports: Ports,
    mode: Mode,
    reader: &mut R,
    writer: &mut W,
) -> Result<(), RunFault>
    ensures runs { ScriptRuns (config_of ports) mode (R.remaining reader.old)
        (R.remaining reader.new) (W.contents writer.old) (W.contents writer.new) result }
    ensures end { OnOk result (IsAtEnd (R.remaining reader.new)) }
    ensures reads { IsReadOut R.gives reader.old reader.new result }
{
    let mut run = start(alloc, ports, mode)?;
    run.play(reader, writer)
}

/// Writes the last line of an explained script.
fn put_end<A: Allocator, W: Write>(server: &Server<A>, writer: &mut W) -> Result<(), RunFault>
    ensures taken { (config : Config) (history : List PlainEvent) (log : List Act)
        → StandsFor server.now config history → IsLogOf config history log
        → IsTakenByWriter (W.contents writer.old) (W.contents writer.new) result
        (end_line (clock_at config log)) }
    ensures fault { IfErr result (λ fault. fault ≡ RunFault.Output) }
{
    match server.explain_end(writer) {
        Ok(()) => Ok(()),
        Err(_) => Err(RunFault::Output),
    }
}

/// Flushes the writer.
fn flush<W: Write>(writer: &mut W) -> Result<(), RunFault>
    ensures kept { Keeps (W.contents writer.old) (W.contents writer.new) }
    ensures fault { IfErr result (λ fault. fault ≡ RunFault.Output) }
{
    match writer.flush() {
        Ok(()) => Ok(()),
        Err(_) => Err(RunFault::Output),
    }
}

/// Executes a line. The bytes of a `bytes` line are stored in `bytes`.
fn do_line<A: Allocator, W: Write>(
    server: &mut Server<A>,
    line: &[u8],
    number: u64,
    mode: Mode,
    bytes: &mut [u8],
    writer: &mut W,
) -> Result<(), RunFault>
    requires { length bytes.old ≡ 65536 }
    ensures input { OnInput result ⊥ }
    ensures runs { (config : Config) (history : List PlainEvent)
        → StandsFor server.old config history
        → (text : List ℕ) × (after : List PlainEvent)
        × LineRuns config mode line.now number history result text after
        × StandsFor server.new config after
        × Appends (W.contents writer.old) (W.contents writer.new) text }
{
    if line.len() > LONGEST_LINE {
        return Err(RunFault::BadLine(number));
    }
    match read_line(line, bytes) {
        Some(said) => {
            perform(server, said, mode, number, writer)?;
            Ok(())
        }
        None => Err(RunFault::BadLine(number)),
    }
}

impl<A: Allocator> Run<A> {
    /// Runs a script to its end, but doesn't flush the writer after the last line.
    fn play<R: Source, W: Write>(&mut self, reader: &mut R, writer: &mut W) -> Result<(), RunFault>
        requires { (config : Config) × StandsFor self.old.server config []
            × (self.old.text ≡ nothing_held) × (self.old.lines ≡ 0) }
        ensures runs { (config : Config) → StandsFor self.old.server config []
            → ScriptRuns config self.old.mode (R.remaining reader.old) (R.remaining reader.new)
            (W.contents writer.old) (W.contents writer.new) result }
        ensures end { OnOk result (IsAtEnd (R.remaining reader.new)) }
        ensures reads { IsReadOut R.gives reader.old reader.new result }
    {
        let mode = self.mode;
        self.to_end(reader, writer)?;
        match mode {
            Mode::Plain => Ok(()),
            Mode::Explained => put_end(&self.server, writer),
        }
    }

    /// Executes the lines of a script up to its end, but doesn't flush the writer after the last
    /// lines.
    fn to_end<R: Source, W: Write>(
        &mut self,
        reader: &mut R,
        writer: &mut W,
    ) -> Result<(), RunFault>
        requires { (config : Config) × StandsFor self.old.server config []
            × (self.old.text ≡ nothing_held) × (self.old.lines ≡ 0) }
        ensures runs { (config : Config) → StandsFor self.old.server config []
            → StepsRun config self.old.mode self.new.server (R.remaining reader.old)
            (R.remaining reader.new) (W.contents writer.old) (W.contents writer.new) result }
        ensures end { OnOk result (IsAtEnd (R.remaining reader.new)) }
        ensures reads { IsReadOut R.gives reader.old reader.new result }
    {
        // The tries are counted, since a reader may be interrupted any number of times.
        for _ in 0..u64::MAX {
            if !self.turn(reader, writer)? {
                return Ok(());
            }
        }
        Err(RunFault::Input)
    }

    /// Executes the next line, or reads more if no line is complete. Returns false at the end of
    /// the script, else true.
    fn turn<R: Source, W: Write>(
        &mut self,
        reader: &mut R,
        writer: &mut W,
    ) -> Result<bool, RunFault>
        requires countable { self.old.lines < 2 ^ 64 - 1 }
        ensures goes { Moves self.old self.new (R.remaining reader.old) (R.remaining reader.new)
            (W.contents writer.old) (W.contents writer.new) result }
        ensures progress { WhileGoing result (Progress self.old self.new) }
        ensures heard { Turns R.gives reader.old reader.new self.old self.new result }
    {
        match self.text.whole_line() {
            Some(len) => {
                let line = self.text.front(len);
                do_line(
                    &mut self.server,
                    line,
                    self.lines + 1,
                    self.mode,
                    &mut self.bytes,
                    writer,
                )?;
                self.lines += 1;
                self.text.drop_front(len + 1);
                Ok(true)
            }
            None => self.read_on(reader, writer),
        }
    }

    /// Reads more, and returns true. At the reader's end, executes the last line and returns false.
    fn read_on<R: Source, W: Write>(
        &mut self,
        reader: &mut R,
        writer: &mut W,
    ) -> Result<bool, RunFault>
        requires { (first_end self.old.text.text ≡ None) × (self.old.lines < 2 ^ 64 - 1) }
        ensures goes { Moves self.old self.new (R.remaining reader.old) (R.remaining reader.new)
            (W.contents writer.old) (W.contents writer.new) result }
        ensures progress { WhileGoing result (Progress self.old self.new) }
        ensures heard { Turns R.gives reader.old reader.new self.old self.new result }
    {
        if self.text.len() > LONGEST_LINE {
            return Err(RunFault::BadLine(self.lines + 1));
        }
        flush(writer)?;
        if self.text.fill(reader)? {
            return Ok(true);
        }
        let line = self.text.front(self.text.len());
        do_line(
            &mut self.server,
            line,
            self.lines + 1,
            self.mode,
            &mut self.bytes,
            writer,
        )?;
        Ok(false)
    }
}
