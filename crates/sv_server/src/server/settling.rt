//! Settling: taking the steps that are due after an event, until no step is due.

ghost use Rattle.std.specs.Prelude.{◌≡◌, ◌≢◌, ◌<◌, ◌≤◌, ◌++◌, ℕ, List, Some, None, true, false, IsTrue};
ghost use Rattle.sv_links.specs.Waiting.{waits};
ghost use Rattle.sv_links.specs.Queue.{IsEntry, creates, creations, without, queue_measure};
ghost use Rattle.sv_instrument.specs.Stimulus.{IsFired};
ghost use Rattle.sv_instrument.specs.Step.{IsStep};
ghost use Rattle.sv_instrument.specs.Looking.{IsNoneDue};
ghost use Rattle.sv_instrument.specs.Representation.{instrument_measure};
ghost use Rattle.sv_history.specs.declared.event.Config.{Config};
ghost use Rattle.sv_history.specs.Event.{plain};
ghost use Rattle.sv_history.specs.Act.{Act, of, device_acts, wait_acts, instrument_acts};
ghost use Rattle.sv_history.specs.Connection.{pending_call};
ghost use Rattle.sv_history.specs.Request.{core_call_in};
ghost use Rattle.sv_history.specs.PolledStatus.{IsPolled};
ghost use Rattle.sv_history.specs.Effect.{acts_of};
ghost use Rattle.sv_history.specs.Resuming.{resume_effect, failure_effect, late as late_error};
ghost use Rattle.sv_history.specs.Settling.{CanResume, InstrumentDoes, Resumes, TimesOut, IsSettled};
ghost use Rattle.sv_explain.specs.declared.step.Due.TheVariants as due;
ghost use Rattle.sv_server.specs.Server.State.{Represents};
ghost use Rattle.sv_server.specs.Explain.Telling.{Names, NextToResume, NextToExpire};
ghost use Rattle.sv_server.specs.Device.Inside.WaitingCall.{IsKept};
ghost use Rattle.sv_server.specs.Server.Inside.Acting.{TakesStep, Steps, GoesTo, Settled, is_quiet};

use crate::conn::Conn;
use crate::device::resuming::WakeReason;
use crate::server::Server;
use crate::server::resuming::continue_call;
use std::alloc::Allocator;
use sv_history::Event;
use sv_links::{Entry, Wait};
use sv_vxi::ErrorCode;

/// Which step was taken.
#[derive(Clone, Copy)]
pub(crate) enum Stepped {
    /// No step was due.
    Nothing,
    /// The instrument took a step: an immediate trigger, or a step of message exchange.
    Instrument,
    /// A suspended call resumed or timed out.
    Call,
}

/// Whether this is an event after which no step is due: a connection opens, bytes come, or a peer
/// takes bytes.
pub(crate) fn is_quiet(event: Event<'_>) -> bool
    ensures { result ≡ is_quiet (plain event.entry) }
{
    matches!(
        event,
        Event::Open { .. } | Event::Bytes { .. } | Event::Took { .. }
    )
}

/// The error of a call that times out while it waits for `wait`.
fn late(wait: Wait) -> ErrorCode
    ensures { result ≡ late_error wait }
{
    match wait {
        Wait::Lock => ErrorCode::Locked,
        Wait::Input | Wait::Response | Wait::Dial => ErrorCode::IoTimeout,
    }
}

impl<A: Allocator> Server<A> {
    /// Resumes a suspended call: it is executed, or suspended anew.
    fn resume(&mut self, entry: Entry)
        requires { IsKept entry self.old.device.waiting }
        ensures stands { (config : Config) (polled : ℕ) (log : List Act)
            → Represents self.old config log → IsPolled polled (device_acts log)
            → CanResume (device_acts log) entry.conn → IsEntry (wait_acts (device_acts log)) entry
            → (creates entry ≡ true → creations (without entry.conn self.old.device.waiting)
            < creations self.old.device.waiting)
            → Represents self.new config (acts_of entry.conn (resume_effect config polled entry.conn
            entry.wait (core_call_in (pending_call (of entry.conn log)))
            (device_acts log)) ++ log) }
        ensures measure { queue_measure self.new.device.waiting
            < queue_measure self.old.device.waiting }
    {
        let conn = Conn { number: entry.conn };
        let connection = &mut self.connections[conn.index()];
        continue_call(
            connection,
            &mut self.device,
            conn,
            WakeReason::Able(entry.wait),
        );
    }

    /// Ends a suspended call with this error.
    pub(crate) fn give_up(&mut self, conn: Conn, error: ErrorCode)
        ensures stands { (config : Config) (log : List Act) → Represents self.old config log
            → (waits conn.number (wait_acts (device_acts log)) ≡ None → ⊥)
            → Represents self.new config (acts_of conn.number
            (failure_effect error conn.number
            (core_call_in (pending_call (of conn.number log)))) ++ log) }
        ensures waiting { self.new.device.waiting ≡ without conn.number self.old.device.waiting }
    {
        let connection = &mut self.connections[conn.index()];
        continue_call(
            connection,
            &mut self.device,
            conn,
            WakeReason::Failed(error),
        );
    }

    /// Applies an immediate trigger, if a trigger is due. Returns whether a trigger was applied.
    #[inline(always)]
    fn fire(&mut self) -> bool
        ensures steps { (config : Config) (log : List Act) → Represents self.old config log
            → TakesStep (λ config. InstrumentDoes IsFired) result config log self.old self.new }
        ensures idle { result ≡ false → self.new ≡ self.old }
        ensures measure { IsTrue result
            → instrument_measure self.new.device.instrument
            < instrument_measure self.old.device.instrument }
        ensures waiting { self.new.device.waiting ≡ self.old.device.waiting }
    {
        self.device.fire()
    }

    /// Takes a step of message exchange, if such a step is due. Returns whether a step was taken.
    #[inline(always)]
    fn exchange(&mut self) -> bool
        ensures steps { (config : Config) (log : List Act) → Represents self.old config log
            → TakesStep (λ config. InstrumentDoes IsStep) result config log self.old self.new }
        ensures none { (config : Config) (log : List Act) → Represents self.old config log
            → result ≡ false → IsNoneDue (instrument_acts (device_acts log)) }
        ensures idle { result ≡ false → self.new ≡ self.old }
        ensures measure { IsTrue result
            → instrument_measure self.new.device.instrument
            < instrument_measure self.old.device.instrument }
        ensures waiting { self.new.device.waiting ≡ self.old.device.waiting }
    {
        self.device.exchange()
    }

    /// Resumes the oldest suspended call that can resume. Returns whether there was such a call.
    #[inline(always)]
    fn resume_oldest(&mut self) -> bool
        ensures steps { (config : Config) (log : List Act) → Represents self.old config log
            → TakesStep Resumes result config log self.old self.new }
        ensures none { (config : Config) (log : List Act) → Represents self.old config log
            → result ≡ false → NextToResume log None }
        ensures idle { result ≡ false → self.new ≡ self.old }
        ensures measure { IsTrue result
            → queue_measure self.new.device.waiting < queue_measure self.old.device.waiting }
    {
        match self.device.oldest_able() {
            Some(entry) => {
                self.resume(entry);
                true
            }
            None => false,
        }
    }

    /// Times out the oldest suspended call whose deadline has come. Returns whether there was such
    /// a call.
    #[inline(always)]
    fn give_up_oldest(&mut self) -> bool
        ensures steps { (config : Config) (log : List Act) → Represents self.old config log
            → TakesStep TimesOut result config log self.old self.new }
        ensures none { (config : Config) (log : List Act) → Represents self.old config log
            → result ≡ false → NextToExpire config log None }
        ensures idle { result ≡ false → self.new ≡ self.old }
        ensures measure { IsTrue result
            → queue_measure self.new.device.waiting < queue_measure self.old.device.waiting }
    {
        match self.device.expired() {
            Some(entry) => {
                self.give_up(Conn { number: entry.conn }, late(entry.wait));
                true
            }
            None => false,
        }
    }

    /// Takes the step that is due, if a step is due.
    #[inline(always)]
    pub(crate) fn step(&mut self) -> Stepped
        ensures steps { (config : Config) (log : List Act) → Represents self.old config log
            → Steps result config log self.new }
        ensures nothing { (config : Config) (log : List Act) → Represents self.old config log
            → result ≡ Stepped.Nothing → Names due.Nothing config log }
        ensures instrument { result ≡ Stepped.Instrument
            → instrument_measure self.new.device.instrument
            < instrument_measure self.old.device.instrument }
        ensures waiting { (result ≡ Stepped.Call → ⊥)
            → self.new.device.waiting ≡ self.old.device.waiting }
        ensures call { result ≡ Stepped.Call
            → queue_measure self.new.device.waiting < queue_measure self.old.device.waiting }
    {
        if self.fire() {
            return Stepped::Instrument;
        }
        if self.resume_oldest() {
            return Stepped::Call;
        }
        if self.exchange() {
            return Stepped::Instrument;
        }
        if self.give_up_oldest() {
            return Stepped::Call;
        }
        Stepped::Nothing
    }

    /// Takes the steps that are due, up to and including the first step in which a call resumes or
    /// times out. Returns whether a call resumed or timed out.
    #[inline(always)]
    fn settle_to_call(&mut self) -> bool
        ensures goes { (config : Config) (log : List Act) → Represents self.old config log
            → GoesTo config log (λ mid. result ≡ false → IsSettled config mid) self.new }
        ensures measure { IsTrue result
            → queue_measure self.new.device.waiting < queue_measure self.old.device.waiting }
    {
        loop {
            match self.step() {
                Stepped::Instrument => {}
                Stepped::Call => return true,
                Stepped::Nothing => return false,
            }
        }
    }

    /// Takes the steps that are due after an event, unless `quiet` is true.
    #[inline(always)]
    pub(crate) fn settle_unless(&mut self, quiet: bool)
        ensures settled { (config : Config) (log : List Act) → Represents self.old config log
            → quiet ≡ false → Settled config log self.new }
        ensures unchanged { quiet ≡ true → self.new ≡ self.old }
    {
        if quiet {
            return;
        }
        self.settle();
    }

    /// Takes steps until no step is due.
    #[inline(always)]
    pub(crate) fn settle(&mut self)
        ensures { (config : Config) (log : List Act) → Represents self.old config log
            → Settled config log self.new }
    {
        while self.settle_to_call() {}
    }
}
