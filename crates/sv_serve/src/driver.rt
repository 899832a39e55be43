//! A driver: it joins a server, a wire, and a scenario.

ghost use Rattle.std.specs.Prelude.{◌≡◌, ◌≤◌, ℕ, replicate, None, IfOk, true, List};
ghost use Rattle.sv_history.specs.declared.event.Config.{Config};
ghost use Rattle.sv_history.specs.Event.{PlainEvent, plain};
ghost use Rattle.sv_server.specs.Server.State.{StandsFor};
ghost use Rattle.sv_serve.specs.Asked.{NoneUsed};
ghost use Rattle.sv_serve.specs.DriverView.{Steps, Unchanged, driver_view};
ghost use Rattle.sv_serve.specs.Steps.{Given, IsApplied, dialed_of};
ghost use Rattle.sv_serve.specs.Premises.{From, IsSuited};

use crate::journal::{Journal, note};
use crate::wire::Wire;
use std::alloc::{AllocError, Allocator, Global};
use std::marker::Model;
use sv_replay::Entry;
use sv_server::{Dial, Did, Event, Refused, Server};

/// How many connections can be open.
pub(crate) const CONNECTIONS: u8 = 16;
/// How many bytes one read returns at most.
const PIECE: usize = 16_384;

/// A server, the wire to its peers, a scenario whose entries are applied to the server, and a
/// journal that is told each event that the server has applied.
#[derive(Drop)]
pub struct Driver<W: Wire + Drop, A: Allocator = Global, J: Journal + Drop = ()> {
    pub(crate) server: Server<A>,
    pub(crate) wire: W,
    /// For each connection, the peer that was dialed for its interrupt channel; `None` if no peer
    /// is dialed.
    pub(crate) dials: [Option<Dial>; 16],
    /// No peer was ever dialed for a connection with this number or a higher one.
    pub(crate) dial_limit: u8,
    pub(crate) scenario: Vec<Entry, A>,
    /// How many entries of the scenario were applied.
    pub(crate) next: usize,
    /// How many milliseconds have passed.
    pub(crate) ticks: u64,
    /// The buffer into which the wire reads the bytes of a connection.
    pub(crate) buffer: Vec<u8, A>,
    pub(crate) journal: J,
}

impl<W: Wire + Drop, A: Allocator, J: Journal + Drop> Model for Driver<W, A, J> {
    ghost use Rattle.sv_serve.specs.DriverView.{DriverState};
    ghost use Rattle.std.specs.Prelude.{◌≡◌, ◌≤◌, ℕ, drop, length, slice_index_or, None};

    ghost Value = { DriverState W J };

    ghost view = { λ a. record {
      server = a.server;
      wire = a.wire;
      dials = a.dials;
      ahead = drop a.next a.scenario.items;
      ticks = a.ticks;
      journal = a.journal;
    } };

    ghost invariant = { λ a. (length a.dials ≡ 16) × (a.next ≤ length a.scenario.items)
        × ((c : ℕ) → a.dial_limit ≤ c → slice_index_or a.dials c None ≡ None)
        × (length a.buffer.items ≡ 16384) };
}

impl<W: Wire + Drop, A: Allocator> Driver<W, A> {
    /// Makes a driver that is at the beginning of its scenario and has dialed no peer yet.
    /// Allocates the read buffer.
    ///
    /// # Errors
    /// If memory is refused.
    pub fn new(
        alloc: A,
        server: Server<A>,
        wire: W,
        scenario: Vec<Entry, A>,
    ) -> Result<Driver<W, A>, AllocError>
        ensures { IfOk result (λ driver. driver ≡ record {
          server = server;
          wire = wire;
          dials = replicate 16 None;
          ahead = scenario.items;
          ticks = 0;
          journal = tt;
        }) }
    {
        Driver::with_journal(alloc, server, wire, scenario, ())
    }
}

impl<W: Wire + Drop, A: Allocator, J: Journal + Drop> Driver<W, A, J> {
    /// Makes a driver with a journal. It is at the beginning of its scenario and has dialed no peer
    /// yet. Allocates the read buffer.
    ///
    /// # Errors
    /// If memory is refused.
    pub fn with_journal(
        alloc: A,
        server: Server<A>,
        wire: W,
        scenario: Vec<Entry, A>,
        journal: J,
    ) -> Result<Driver<W, A, J>, AllocError>
        ensures { IfOk result (λ driver. driver ≡ record {
          server = server;
          wire = wire;
          dials = replicate 16 None;
          ahead = scenario.items;
          ticks = 0;
          journal = journal;
        }) }
    {
        Ok(Driver {
            server,
            wire,
            dials: [None; 16],
            dial_limit: 0,
            scenario,
            next: 0,
            ticks: 0,
            buffer: vec![in alloc; 0; PIECE]?,
            journal,
        })
    }

    /// Returns the journal of the driver.
    pub fn journal(&self) -> &J
        ensures { result.now ≡ self.now.journal }
    {
        &self.journal
    }

    /// Ends the driver, and returns its journal.
    pub fn into_journal(self) -> J
        ensures { result ≡ self.journal }
    {
        self.journal
    }

    /// Returns the wire of the driver.
    pub fn wire(&self) -> &W
        ensures { result.now ≡ self.now.wire }
    {
        &self.wire
    }

    /// Returns the server of the driver.
    pub fn server(&self) -> &Server<A>
        ensures { result.now ≡ self.now.server }
    {
        &self.server
    }

    /// Whether no connection with this number or a higher one was ever opened.
    pub(crate) fn is_unused(&self, conn: u8) -> bool
        ensures { result ≡ true → (config : Config) (history : List PlainEvent)
            → StandsFor self.now.server config history
            → NoneUsed conn config (driver_view self.now history) }
    {
        conn >= self.server.connections_used()
    }

    /// Whether dialing has nothing to do for connections with this number or a higher one: no peer
    /// has to be dialed, and no socket of a dialed peer has to be closed.
    pub(crate) fn is_past_dials(&self, conn: u8) -> bool
        ensures { result ≡ true → (config : Config) (history : List PlainEvent)
            → StandsFor self.now.server config history
            → NoneUsed conn config (driver_view self.now history)
            × ((c : ℕ) → conn ≤ c → dialed_of c (driver_view self.now history) ≡ None) }
    {
        self.is_unused(conn) && conn >= self.dial_limit
    }

    /// Applies an event to the server. The caller must know from the server's query functions that
    /// the server doesn't refuse the event now.
    #[inline(always)]
    pub(crate) fn apply(&mut self, event: Event<'_>)
        ensures { From J.notes (IsSuited (plain event.entry)) (IsApplied (plain event.entry))
            self.old self.new }
    {
        let answer = self.server.apply(event);
        note(&mut self.journal, event, answer);
    }

    /// Gives the server an event that it can refuse, and returns the server's answer.
    #[inline(always)]
    pub(crate) fn give(&mut self, event: Event<'_>) -> Result<Did, Refused>
        ensures { Steps J.notes (Given (plain event.entry) result) self.old self.new }
    {
        let answer = self.server.apply(event);
        note(&mut self.journal, event, answer);
        answer
    }

    /// Tells the journal that a sweep has ended.
    pub(crate) fn flush(&mut self)
        ensures { Steps J.notes Unchanged self.old self.new }
    {
        self.journal.flush();
    }
}
