//! The device, which all connections share: links, the lock, suspended calls, interrupt channels,
//! the instrument and the clock. The submodules execute calls. Of each call, the device gets only
//! the number of the call's connection and the call's arguments.

ghost use Rattle.std.specs.Prelude.{◌≡◌, ◌↔◌, ◌+◌, ◌<◌, ◌≤◌, ℕ, List, [], ◌∷◌, ◌++◌, length, map, option_map, Some, None, is_some, IfOk, IfSome, IsTrue, ◌==◌, true, false};
ghost use Rattle.sv_links.specs.Links.{closing};
ghost use Rattle.sv_links.specs.Waiting.{Left, IsExpired, IsOldest};
ghost use Rattle.sv_links.specs.Queue.{IsEntry, creates, creations, without};
ghost use Rattle.sv_scan.specs.declared.acts.ScanAct.TheVariants.{Input};
ghost use Rattle.sv_layers.specs.Act.{Scanned};
ghost use Rattle.sv_instrument.specs.Stimulus.{IsFired, external_acts, tick_acts};
ghost use Rattle.sv_instrument.specs.Step.{IsStep};
ghost use Rattle.sv_instrument.specs.Looking.{IsNoneDue};
ghost use Rattle.sv_instrument.specs.Representation.{instrument_measure};
ghost use Rattle.sv_history.specs.declared.event.Config.{Config};
ghost use Rattle.sv_links.specs.Channels.{ChannelClosed};
ghost use Rattle.sv_history.specs.Act.{DeviceAct, Linked, Waited, Channel, Applied, Ticked, link_acts, wait_acts, instrument_acts, ticks};
ghost use Rattle.sv_history.specs.Settling.{CanResume};
ghost use Rattle.sv_history.specs.Still.{IsStill};
ghost use Rattle.sv_server.specs.Device.Inside.WaitingCall.{IsKept};
ghost use Rattle.sv_server.specs.Device.Inside.Outcome.{InstrumentSteps};
ghost use Rattle.sv_layers.specs.Act.{Act as InstrumentAct};
ghost use Rattle.sv_instrument.specs.RequestCount.{Raise};
ghost use Rattle.sv_server.specs.Device.Representation.{IsDevice, HasDone};

pub mod abort_channel;
pub mod admission;
pub mod admitted;
mod arguments;
mod core_channel;
pub mod error_results;
mod interrupts;
pub mod looking;
pub mod resuming;

use crate::conn::Conn;
use std::alloc::{AllocError, Allocator};
use std::marker::Model;
use sv_history::Config;
use sv_instrument::Instrument;
use sv_links::{Entry, Intr, Links, Waiting};
use sv_rpc::Ports;

/// The last value of the clock, in milliseconds.
const LAST_CLOCK: u64 = 9_223_372_036_854_775_807;

/// The device: the state that all connections share.
#[derive(Drop)]
pub struct Device<A: Allocator> {
    links: Links<A>,
    waiting: Waiting<A>,
    intr: Intr<A>,
    instrument: Instrument<A>,
    config: Config,
    clock: u64,
}

impl<A: Allocator> Model for Device<A> {
    ghost use Rattle.sv_server.specs.Device.Representation.{Device};

    ghost Value = { Device };

    ghost use Rattle.std.specs.Prelude.{◌≤◌};

    ghost view = { λ a. record {
      links = a.links;
      waiting = a.waiting;
      intr = a.intr;
      instrument = a.instrument;
      config = a.config;
      clock = a.clock;
    } };

    ghost invariant = { λ a. a.clock ≤ 9223372036854775807 };
}

impl<A: Allocator + Copy> Device<A> {
    /// Makes a device with no link, no suspended call, no interrupt channel and no bytes of a
    /// message. Its clock begins at the configured value.
    pub fn new(alloc: A, config: Config) -> Result<Device<A>, AllocError>
        requires { config.clock ≤ 9223372036854775807 }
        ensures stands { IfOk result (λ device. IsDevice device config []) }
        ensures waiting { IfOk result (λ device. device.waiting ≡ []) }
    {
        Ok(Device {
            links: Links::new(alloc),
            waiting: Waiting::new(alloc)?,
            intr: Intr::new(alloc)?,
            instrument: Instrument::new(alloc)?,
            config,
            clock: config.clock,
        })
    }
}

impl<A: Allocator> Device<A> {
    /// The clock, in milliseconds.
    fn clock(&self) -> u64
        ensures value { result ≡ self.now.clock }
        ensures bounded { result ≤ 9223372036854775807 }
    {
        self.clock
    }

    /// Whether the clock is at its last value.
    pub fn is_at_end(&self) -> bool
        ensures value { result ≡ (self.now.clock == 9223372036854775807) }
        ensures answer { (config : Config) (acts : List DeviceAct) → IsDevice self.now config acts
            → result ≡ (config.clock + ticks acts == 9223372036854775807) }
    {
        self.clock == LAST_CLOCK
    }

    /// Whether nothing becomes due within this number of milliseconds: no scan is under way, and no
    /// suspended call reaches its deadline.
    pub fn is_still(&self, ticks: u32) -> bool
        ensures { (config : Config) (acts : List DeviceAct) → IsDevice self.now config acts
            → (result ≡ true) ↔ IsStill ticks config acts }
    {
        let last = self.clock + u64::from(ticks);
        !self.instrument.is_scanning() && self.waiting.expired(last).is_none()
    }

    /// Lets a millisecond pass: if a scan is under way, its next channel is read.
    pub fn tick(&mut self)
        requires { (self.old.clock == 9223372036854775807) ≡ false }
        ensures stands { (config : Config) (acts : List DeviceAct) → IsDevice self.old config acts
            → IsDevice self.new config
            (map Applied (tick_acts (instrument_acts acts)) ++ Ticked ∷ acts) }
        ensures waiting { self.new.waiting ≡ self.old.waiting }
    {
        self.clock += 1;
        let raised = self.instrument.tick();
        self.raise(raised);
    }

    /// Sets the simulated voltage at the input of a channel.
    pub fn input(&mut self, channel: u8, microvolts: i64)
        ensures stands { (config : Config) (acts : List DeviceAct) → IsDevice self.old config acts
            → IsDevice self.new config (Applied (Scanned (Input channel microvolts)) ∷ acts) }
        ensures waiting { self.new.waiting ≡ self.old.waiting }
    {
        let raised = self.instrument.input(channel, microvolts);
        self.raise(raised);
    }

    /// Applies a trigger at the instrument's trigger input.
    pub fn external(&mut self)
        ensures stands { (config : Config) (acts : List DeviceAct) → IsDevice self.old config acts
            → IsDevice self.new config
            (map Applied (external_acts (instrument_acts acts)) ++ acts) }
        ensures waiting { self.new.waiting ≡ self.old.waiting }
    {
        let raised = self.instrument.external();
        self.raise(raised);
    }

    /// The TCP ports of the core and the abort channel, as configured.
    pub fn ports(&self) -> Ports
        ensures { (config : Config) (acts : List DeviceAct) → IsDevice self.now config acts
            → result ≡ record { core = config.core; abort = config.abort } }
    {
        Ports {
            core: self.config.core,
            abort: self.config.abort,
        }
    }

    /// Drops a connection's suspended call, destroys its links, and closes its interrupt channel.
    pub fn close_connection(&mut self, conn: Conn)
        ensures stands { (config : Config) (acts : List DeviceAct) → IsDevice self.old config acts
            → IsDevice self.new config
            (Channel (ChannelClosed conn.number) ∷ map Linked (closing conn.number (link_acts acts))
            ++ Waited (Left conn.number) ∷ acts) }
        ensures waiting { self.new.waiting ≡ without conn.number self.old.waiting }
    {
        self.waiting.leave(conn.number);
        self.intr.disable_connection(conn.number);
        self.links.close_connection(conn.number);
        self.intr.cancel(conn.number);
        self.close_channel(conn);
    }

    /// The oldest suspended call that can resume; `None` if no call can resume.
    #[inline(always)]
    pub fn oldest_able(&self) -> Option<Entry>
        ensures answer { (config : Config) (acts : List DeviceAct) → IsDevice self.now config acts
            → IsOldest (wait_acts acts) (CanResume acts) (option_map (λ entry. entry.conn) result) }
        ensures entry { (config : Config) (acts : List DeviceAct) → IsDevice self.now config acts
            → IfSome result (λ entry. IsEntry (wait_acts acts) entry) }
        ensures kept { IfSome result (λ entry. IsKept entry self.now.waiting) }
        ensures fewer { IfSome result (λ entry. creates entry ≡ true
            → creations (without entry.conn self.now.waiting) < creations self.now.waiting) }
    {
        self.waiting.oldest_able(
            self.links.holder(),
            self.instrument.can_write(),
            self.instrument.can_read(),
        )
    }

    /// The oldest suspended call whose deadline has come; `None` if no deadline has come.
    pub fn expired(&self) -> Option<Entry>
        ensures answer { (config : Config) (acts : List DeviceAct) → IsDevice self.now config acts
            → IsOldest (wait_acts acts) (IsExpired (config.clock + ticks acts) (wait_acts acts))
            (option_map (λ entry. entry.conn) result) }
        ensures entry { (config : Config) (acts : List DeviceAct) → IsDevice self.now config acts
            → IfSome result (λ entry. IsEntry (wait_acts acts) entry) }
        ensures kept { IfSome result (λ entry. IsKept entry self.now.waiting) }
    {
        self.waiting.expired(self.clock)
    }

    /// Takes the suspended call of a connection out of the queue.
    pub fn end_wait(&mut self, conn: Conn)
        ensures stands { (config : Config) (acts : List DeviceAct) → IsDevice self.old config acts
            → IsDevice self.new config (Waited (Left conn.number) ∷ acts) }
        ensures waiting { self.new.waiting ≡ without conn.number self.old.waiting }
    {
        self.waiting.leave(conn.number);
    }

    /// Sends service requests on the interrupt channels, for the requests for service that the
    /// instrument raised. `raised` is the number of these requests.
    fn raise(&mut self, raised: u8)
        ensures stands { (config : Config) (acts : List DeviceAct) (adds : List InstrumentAct)
            → HasDone adds self.old config acts → Raise adds (instrument_acts acts) raised
            → IsDevice self.new config (map Applied adds ++ acts) }
        ensures waiting { self.new.waiting ≡ self.old.waiting }
        ensures instrument { self.new.instrument ≡ self.old.instrument }
    {
        for _ in 0..raised {
            self.intr.raise();
        }
    }

    /// Sends service requests on the interrupt channels after a step of the instrument. `raised` is
    /// the number of requests for service that the step raised, or `None` if the instrument took no
    /// step. Returns whether the instrument took a step.
    fn raise_if(&mut self, raised: Option<u8>) -> bool
        ensures some { (count : ℕ) → raised ≡ Some count → (config : Config)
            (acts : List DeviceAct) (adds : List InstrumentAct)
            → HasDone adds self.old config acts → Raise adds (instrument_acts acts) count
            → IsDevice self.new config (map Applied adds ++ acts) }
        ensures none { raised ≡ None → self.new ≡ self.old }
        ensures answer { result ≡ is_some raised }
        ensures waiting { self.new.waiting ≡ self.old.waiting }
        ensures instrument { self.new.instrument ≡ self.old.instrument }
    {
        match raised {
            Some(count) => {
                self.raise(count);
                true
            }
            None => false,
        }
    }

    /// Applies an immediate trigger, if a trigger is due. Returns whether a trigger was applied.
    pub fn fire(&mut self) -> bool
        ensures steps { (config : Config) (acts : List DeviceAct) → IsDevice self.old config acts
            → InstrumentSteps IsFired result config acts self.old self.new }
        ensures idle { result ≡ false → self.new ≡ self.old }
        ensures measure { IsTrue result
            → instrument_measure self.new.instrument < instrument_measure self.old.instrument }
        ensures waiting { self.new.waiting ≡ self.old.waiting }
    {
        let fired = self.instrument.fire();
        self.raise_if(fired)
    }

    /// Takes a step of message exchange, if such a step is due. Returns whether a step was taken.
    pub fn exchange(&mut self) -> bool
        ensures steps { (config : Config) (acts : List DeviceAct) → IsDevice self.old config acts
            → InstrumentSteps IsStep result config acts self.old self.new }
        ensures none { (config : Config) (acts : List DeviceAct) → IsDevice self.old config acts
            → result ≡ false → IsNoneDue (instrument_acts acts) }
        ensures idle { result ≡ false → self.new ≡ self.old }
        ensures measure { IsTrue result
            → instrument_measure self.new.instrument < instrument_measure self.old.instrument }
        ensures waiting { self.new.waiting ≡ self.old.waiting }
    {
        let stepped = self.instrument.step();
        self.raise_if(stepped)
    }
}
