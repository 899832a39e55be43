//! A journal that writes a script, which `scanvolt replay` replays.

ghost use Rattle.std.specs.Prelude.{◌≡◌, ◌++◌, ◌∷◌, ℕ, List, Option, false, not};
ghost use Rattle.sv_history.specs.Event.{PlainEvent, plain, Bytes, Close, Input, Tick};
ghost use Rattle.sv_print.specs.Parts.{parts_text};
ghost use Rattle.sv_recording.specs.Tape.{role_end, ok_end, numbered, event_line, ticks_line, pending, script, Writes};

use std::io::Write;
use std::marker::Model;
use sv_print::Part;
use sv_serve::Journal;
use sv_server::{Event, Port, Role};

/// The most milliseconds of one `tick` line.
const MOST_TICKS: u32 = 1_000_000;

/// A journal that writes each event as a line of a script. Milliseconds are counted, and written as
/// one line before the line of the next other event. What peers accepted has no line: a replay
/// sends everything at once. Once the writer has failed, nothing more is written.
#[derive(Drop)]
pub struct Tape<W: Write + Drop> {
    writer: W,
    /// How many milliseconds have passed since the last line.
    ticks: u32,
    /// Whether something was written since the last flush.
    written: bool,
    /// Whether the writer has failed.
    failed: bool,
}

impl<W: Write + Drop> Model for Tape<W> {
    ghost use Rattle.std.specs.Prelude.{◌<◌};
    ghost use Rattle.sv_recording.specs.Tape.{TapeState};

    ghost Value = { TapeState W };

    ghost view = { λ a. record {
      writer = a.writer;
      ticks = a.ticks;
      failed = a.failed;
    } };

    ghost invariant = { λ a. a.ticks < 1000000 };
}

/// Returns the end of the line of a connection that opens.
fn role_end(role: Role) -> &'static [u8]
    ensures { result.now ≡ role_end role }
{
    match role {
        Role::Core => b" core\n",
        Role::Abort => b" abort\n",
        Role::Portmap => b" portmap\n",
    }
}

/// Returns the end of the line of an interrupt channel whose peer was dialed.
fn ok_end(ok: bool) -> &'static [u8]
    ensures { result.now ≡ ok_end ok }
{
    match ok {
        true => b" ok\n",
        false => b" failed\n",
    }
}

impl<W: Write + Drop> Tape<W> {
    /// Makes a journal that writes to this writer. It has counted no millisecond yet.
    pub fn new(writer: W) -> Tape<W>
        ensures { result ≡ record { writer = writer; ticks = 0; failed = false } }
    {
        Tape {
            writer,
            ticks: 0,
            written: false,
            failed: false,
        }
    }

    /// Returns the writer.
    pub fn writer(&self) -> &W
        ensures { result.now ≡ self.now.writer }
    {
        &self.writer
    }

    /// Writes these parts, unless the writer has failed.
    fn put(&mut self, parts: &[Part<'_>])
        ensures { (first : Option (List ℕ)) (text : List ℕ) (ticks : ℕ)
            → Writes W.contents first text ticks self.old
            → Writes W.contents first (text ++ parts_text parts.now) ticks self.new }
    {
        self.written = true;
        sv_print::put(&mut self.writer, &mut self.failed, parts);
    }

    /// Writes the line of an event. A Tick and a Took have no line.
    fn put_event(&mut self, event: Event<'_>)
        ensures { (first : Option (List ℕ)) (text : List ℕ) (ticks : ℕ)
            → Writes W.contents first text ticks self.old
            → Writes W.contents first (text ++ event_line (plain event.entry)) ticks self.new }
    {
        match event {
            Event::Open { conn, role } => self.put_plain(b"open ", conn, role_end(role)),
            Event::Bytes { conn, piece } => self.put_bytes(conn, piece),
            Event::Turn { conn } => self.put_plain(b"turn ", conn, b"\n"),
            Event::Refuse { conn } => self.put_plain(b"refuse ", conn, b"\n"),
            Event::Took { .. } => {}
            Event::Close { port } => self.put_close(port),
            Event::Dialed { conn, ok } => self.put_plain(b"dialed ", conn, ok_end(ok)),
            Event::Input {
                channel,
                microvolts,
            } => self.put_input(channel, microvolts),
            Event::External => self.put(&[Part::Bytes(b"external\n")]),
            Event::Tick => {}
        }
    }

    /// Writes a line of a word, the number of a connection and the end of the line.
    fn put_plain<'a>(&mut self, word: &'a [u8], conn: u8, end: &'a [u8])
        ensures { (first : Option (List ℕ)) (text : List ℕ) (ticks : ℕ)
            → Writes W.contents first text ticks self.old
            → Writes W.contents first (text ++ numbered word.now conn end.now) ticks self.new }
    {
        self.put(&[
            Part::Bytes(word),
            Part::Number(u64::from(conn)),
            Part::Bytes(end),
        ]);
    }

    /// Writes the line of bytes that came on a connection.
    fn put_bytes(&mut self, conn: u8, piece: &[u8])
        ensures { (first : Option (List ℕ)) (text : List ℕ) (ticks : ℕ)
            → Writes W.contents first text ticks self.old
            → Writes W.contents first (text ++ event_line (Bytes conn piece.now)) ticks self.new }
    {
        self.put(&[
            Part::Bytes(b"bytes "),
            Part::Number(u64::from(conn)),
            Part::Bytes(b" "),
            Part::Hex(piece),
            Part::Bytes(b"\n"),
        ]);
    }

    /// Writes the line of an input whose voltage changes.
    fn put_input(&mut self, channel: u8, microvolts: i64)
        ensures { (first : Option (List ℕ)) (text : List ℕ) (ticks : ℕ)
            → Writes W.contents first text ticks self.old
            → Writes W.contents first (text ++ event_line (Input channel microvolts)) ticks
            self.new }
    {
        self.put(&[
            Part::Bytes(b"input "),
            Part::Number(u64::from(channel)),
            Part::Bytes(b" "),
            Part::Signed(microvolts),
            Part::Bytes(b"\n"),
        ]);
    }

    /// Writes the line of a port that closes.
    fn put_close(&mut self, port: Port)
        ensures { (first : Option (List ℕ)) (text : List ℕ) (ticks : ℕ)
            → Writes W.contents first text ticks self.old
            → Writes W.contents first (text ++ event_line (Close port)) ticks self.new }
    {
        match port {
            Port::Conn(conn) => self.put_plain(b"close c", conn, b"\n"),
            Port::Intr(conn) => self.put_plain(b"close i", conn, b"\n"),
        }
    }

    /// Writes the line of the milliseconds since the last line, if there are any, and counts from 0
    /// again.
    fn put_ticks(&mut self)
        ensures { (first : Option (List ℕ)) (text : List ℕ) (ticks : ℕ)
            → Writes W.contents first text ticks self.old
            → Writes W.contents first (text ++ ticks_line ticks) 0 self.new }
    {
        if self.failed {
            return;
        }
        self.put_count(self.ticks);
        self.ticks = 0;
    }

    /// Writes the line of this number of milliseconds, if it isn't 0.
    fn put_count(&mut self, count: u32)
        ensures { (first : Option (List ℕ)) (text : List ℕ) (ticks : ℕ)
            → Writes W.contents first text ticks self.old
            → Writes W.contents first (text ++ ticks_line count) ticks self.new }
    {
        if count > 0 {
            self.put(&[
                Part::Bytes(b"tick "),
                Part::Number(u64::from(count)),
                Part::Bytes(b"\n"),
            ]);
        }
    }

    /// Writes the milliseconds since the last line, and then the line of an event.
    fn put_line(&mut self, event: Event<'_>)
        ensures { (first : Option (List ℕ)) (text : List ℕ) (ticks : ℕ)
            → Writes W.contents first text ticks self.old
            → Writes W.contents first ((text ++ ticks_line ticks) ++ event_line (plain event.entry))
            0 self.new }
    {
        self.put_ticks();
        self.put_event(event);
    }

    /// Counts a millisecond. At the most that a line can have, writes the line.
    fn count(&mut self)
        ensures { (first : Option (List ℕ)) (history : List PlainEvent)
            → Writes W.contents first (script history) (pending history) self.old
            → Writes W.contents first (script (Tick ∷ history)) (pending (Tick ∷ history))
            self.new }
    {
        if self.failed {
            return;
        }
        if self.ticks + 1 == MOST_TICKS {
            self.put_count(MOST_TICKS);
            self.ticks = 0;
        } else {
            self.ticks += 1;
        }
    }

    /// Writes the milliseconds since the last line, and flushes the writer. Returns whether all was
    /// written.
    pub fn end(&mut self) -> bool
        ensures text { (first : Option (List ℕ)) (text : List ℕ) (ticks : ℕ)
            → Writes W.contents first text ticks self.old
            → Writes W.contents first (text ++ ticks_line ticks) 0 self.new }
        ensures whole { result ≡ not self.new.failed }
    {
        self.put_ticks();
        self.pass_on();
        !self.failed
    }

    /// Flushes the writer, if something was written since the last flush.
    fn pass_on(&mut self)
        ensures { (first : Option (List ℕ)) (text : List ℕ) (ticks : ℕ)
            → Writes W.contents first text ticks self.old
            → Writes W.contents first text ticks self.new }
    {
        if self.written {
            self.written = false;
            match self.writer.flush() {
                Ok(()) => {}
                Err(_) => self.failed = true,
            }
        }
    }
}

impl<W: Write + Drop> Journal for Tape<W> {
    ghost use Rattle.sv_recording.specs.Tape.{Notes};

    ghost notes = { Notes W.contents };

    ghost lost = { λ tape. tape.failed };

    fn note(&mut self, event: Event<'_>) {
        match event {
            Event::Tick => self.count(),
            Event::Took { .. } => {}
            Event::Open { .. } => self.put_line(event),
            Event::Bytes { .. } => self.put_line(event),
            Event::Turn { .. } => self.put_line(event),
            Event::Refuse { .. } => self.put_line(event),
            Event::Close { .. } => self.put_line(event),
            Event::Dialed { .. } => self.put_line(event),
            Event::Input { .. } => self.put_line(event),
            Event::External => self.put_line(event),
        }
    }

    fn flush(&mut self) {
        self.pass_on();
    }

    fn is_lost(&self) -> bool {
        self.failed
    }
}
