//! The explained replay of an event: it prints what `replay` prints, and before that which call the
//! event takes, which steps follow, and what each of them changes.

ghost use Rattle.std.specs.Prelude.{◌≡◌, ◌↔◌, ◌<◌, ℕ, List, IsTrue, true};
ghost use Rattle.std.specs.Io.KnownBytes.{Appends};
ghost use Rattle.sv_print.specs.Printed.{Prints};
ghost use Rattle.sv_print.specs.TakenByWriter.{IsTakenByWriter};
ghost use Rattle.sv_links.specs.Queue.{queue_measure};
ghost use Rattle.sv_history.specs.declared.event.Config.{Config};
ghost use Rattle.sv_history.specs.Act.{Act};
ghost use Rattle.sv_history.specs.Event.{PlainEvent, Bytes, Turn, IsEvent, plain};
ghost use Rattle.sv_history.specs.History.{IsLogOf};
ghost use Rattle.sv_explain.specs.Shown.{IsShown};
ghost use Rattle.sv_explain.specs.Steps.{end_line};
ghost use Rattle.sv_server.specs.Server.State.{Represents, StandsFor};
ghost use Rattle.sv_server.specs.Explain.Telling.{Explains, IsStillTick, Tells, ToldOf, clock_at};
ghost use Rattle.sv_server.specs.Explain.Inside.Steps.{Ends, IsActed, TellsSome, lines_before, tick_line};

mod conns;
mod due;
mod shown;
mod tell;

use crate::conn::Conn;
use crate::replay::ReplayFault;
use crate::server::Server;
use crate::server::settling::Stepped;
use std::alloc::Allocator;
use std::io::Write;
use sv_explain::{Shown, put_call, put_conn, put_end, put_head, put_step};
use sv_history::{Did, Event, Refused};
use sv_print::WriteFault;

impl<A: Allocator> Server<A> {
    /// Applies an event, and writes what `replay` writes. Before that, writes a line `@` with
    /// `line` and the clock, the call that the event takes, what the event itself changed, and each
    /// step that followed with what it changed. A millisecond that changes only the clock has none
    /// of these lines.
    ///
    /// # Errors
    /// As for `replay`. If the writer fails in the lines that come before, the event is applied,
    /// and no byte counts as taken.
    #[inline(always)]
    pub fn explain<W: Write>(
        &mut self,
        event: Event<'_>,
        line: u64,
        writer: &mut W,
    ) -> Result<(), ReplayFault>
        ensures { (config : Config) (history : List PlainEvent) → StandsFor self.old config history
            → (text : List ℕ) × (after : List PlainEvent)
            × Explains config line history (plain event.entry) result text after
            × StandsFor self.new config after
            × Appends (W.contents writer.old) (W.contents writer.new) text }
    {
        if self.is_still_tick(event) {
            return self.replay(event, writer);
        }
        let mut failed = false;
        let done = self.tell_event(event, line, writer, &mut failed);
        if failed {
            return Err(ReplayFault::Write);
        }
        self.print(done, writer)
    }

    /// Applies bytes that came on a connection, takes the steps that are due, and tells what
    /// changed of the connection.
    fn bytes_aloud<W: Write>(
        &mut self,
        conn: Conn,
        piece: &[u8],
        line: u64,
        writer: &mut W,
        failed: &mut bool,
    ) -> Result<Did, Refused>
        ensures within { IsEvent (Bytes conn.number «piece».now) }
        ensures told { (config : Config) (log : List Act) → Represents self.old config log
            → IsActed config (Bytes conn.number «piece».now) log result self.old self.new
            × ((told : List ℕ)
            × Tells line config (Bytes conn.number «piece».now) log result told
            × Prints (W.contents writer.old) failed.old (W.contents writer.new) failed.new told) }
    {
        put_head(writer, failed, line, self.device.time());
        let before = self.conn_shown(conn);
        let conn_number = conn.number;
        let done = self.act(Event::Bytes {
            conn: conn_number,
            piece,
        });
        match done {
            Ok(_) => {
                let after = self.conn_shown(conn);
                put_conn(writer, failed, conn_number, before, after);
                self.settle();
            }
            Err(_) => {}
        }
        done
    }

    /// Whether the event is a millisecond in which nothing is due.
    fn is_still_tick(&self, event: Event<'_>) -> bool
        ensures { (config : Config) (log : List Act) → Represents self.now config log
            → (result ≡ true) ↔ IsStillTick config (plain event.entry) log }
    {
        match event {
            Event::Tick => self.device.is_still(1),
            _ => false,
        }
    }

    /// Writes the last line of an explained script: the clock, in milliseconds.
    ///
    /// # Errors
    /// If the writer fails.
    pub fn explain_end<W: Write>(&self, writer: &mut W) -> Result<(), WriteFault>
        ensures { (config : Config) (history : List PlainEvent) (log : List Act)
            → StandsFor self.now config history → IsLogOf config history log
            → IsTakenByWriter (W.contents writer.old) (W.contents writer.new) result
            (end_line (clock_at config log)) }
    {
        put_end(writer, self.device.time())
    }

    /// Applies an event, takes the steps that are due, and tells all this.
    fn tell_event<W: Write>(
        &mut self,
        event: Event<'_>,
        line: u64,
        writer: &mut W,
        failed: &mut bool,
    ) -> Result<Did, Refused>
        ensures within { IsEvent (plain event.entry) }
        ensures told { (config : Config) (log : List Act) → Represents self.old config log
            → IsActed config (plain event.entry) log result self.old self.new
            × ((told : List ℕ) × Tells line config (plain event.entry) log result told
            × Prints (W.contents writer.old) failed.old (W.contents writer.new) failed.new told) }
    {
        match event {
            Event::Bytes { conn, piece } => match Conn::new(conn) {
                Some(conn) => self.bytes_aloud(conn, piece, line, writer, failed),
                None => self.act_aloud(event, line, writer, failed),
            },
            _ => self.act_aloud(event, line, writer, failed),
        }
    }

    /// Applies an event, takes the steps that are due, and tells all that changed.
    fn act_aloud<W: Write>(
        &mut self,
        event: Event<'_>,
        line: u64,
        writer: &mut W,
        failed: &mut bool,
    ) -> Result<Did, Refused>
        ensures within { IsEvent (plain event.entry) }
        ensures told { (config : Config) (log : List Act) → Represents self.old config log
            → IsActed config (plain event.entry) log result self.old self.new
            × ((told : List ℕ) × ToldOf line config (plain event.entry) log result told
            × Prints (W.contents writer.old) failed.old (W.contents writer.new) failed.new told) }
    {
        let mut shown = self.unlisted();
        self.list_all(&mut shown);
        self.tell_before(event, line, writer, failed);
        let done = self.act(event);
        self.tell_tick(event, line, writer, failed);
        match done {
            Ok(_) => {
                self.tell(&mut shown, writer, failed);
                self.tell_settling(&mut shown, writer, failed);
            }
            Err(_) => {}
        }
        done
    }

    /// Writes the lines that come before an event is applied: its own, and that of the call that it
    /// takes. Nothing of a Tick, which moves the clock.
    fn tell_before<W: Write>(&self, event: Event<'_>, line: u64, writer: &mut W, failed: &mut bool)
        ensures { (config : Config) (log : List Act) → Represents self.now config log
            → Prints (W.contents writer.old) failed.old (W.contents writer.new) failed.new
            (lines_before line config (plain event.entry) log) }
    {
        match event {
            Event::Tick => {}
            Event::Turn { conn } => self.tell_taken(conn, line, writer, failed),
            Event::Refuse { conn } => self.tell_taken(conn, line, writer, failed),
            _ => put_head(writer, failed, line, self.device.time()),
        }
    }

    /// Writes the line of an event that takes the next call of this connection, and that of the
    /// call, if there is one.
    fn tell_taken<W: Write>(&self, conn: u8, line: u64, writer: &mut W, failed: &mut bool)
        ensures { (config : Config) (log : List Act) → Represents self.now config log
            → Prints (W.contents writer.old) failed.old (W.contents writer.new) failed.new
            (lines_before line config (Turn conn) log) }
    {
        put_head(writer, failed, line, self.device.time());
        match self.connection(conn) {
            Some(connection) => match connection.next_call() {
                Some(record) => put_call(writer, failed, conn, record),
                None => {}
            },
            None => {}
        }
    }

    /// Writes the line of a Tick, which has been applied.
    fn tell_tick<W: Write>(&self, event: Event<'_>, line: u64, writer: &mut W, failed: &mut bool)
        ensures { Prints (W.contents writer.old) failed.old (W.contents writer.new) failed.new
            (tick_line line self.now.device.clock (plain event.entry)) }
    {
        match event {
            Event::Tick => put_head(writer, failed, line, self.device.time()),
            _ => {}
        }
    }

    /// Takes steps until no step is due, and writes what each changed.
    fn tell_settling<W: Write>(&mut self, shown: &mut Shown, writer: &mut W, failed: &mut bool)
        ensures { (config : Config) (log : List Act) → Represents self.old config log
            → IsShown shown.old log → (text : List ℕ) × Ends config log shown.old text self.new
            × Prints (W.contents writer.old) failed.old (W.contents writer.new) failed.new text }
    {
        while self.tell_to_call(shown, writer, failed) {}
    }

    /// Takes the steps that are due, up to and including the first step in which a call resumes or
    /// times out, and writes what each changed. Returns whether a call resumed or timed out.
    fn tell_to_call<W: Write>(
        &mut self,
        shown: &mut Shown,
        writer: &mut W,
        failed: &mut bool,
    ) -> bool
        ensures tells { (config : Config) (log : List Act) → Represents self.old config log
            → IsShown shown.old log
            → (text : List ℕ) × TellsSome result config log shown.old shown.new text self.new
            × Prints (W.contents writer.old) failed.old (W.contents writer.new) failed.new text }
        ensures measure { IsTrue result
            → queue_measure self.new.device.waiting < queue_measure self.old.device.waiting }
    {
        loop {
            put_step(writer, failed, self.due());
            match self.step() {
                Stepped::Instrument => self.tell(shown, writer, failed),
                Stepped::Call => {
                    self.tell(shown, writer, failed);
                    return true;
                }
                Stepped::Nothing => return false,
            }
        }
    }
}
