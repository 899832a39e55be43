//! What each call of the core channel does if nothing stops it (VXI-11 revision 1.0, B.6).

ghost use Rattle.std.specs.Prelude.{◌≡◌, ◌<◌, ◌≤◌, ◌^◌, ◌||◌, ℕ, pos, List, [], ◌∷◌, length, map, Some, None, true, false, IsTrue};
ghost use Rattle.sv_vxi.specs.Arguments.{Generic};
ghost use Rattle.sv_vxi.specs.Reading.{plain_call};
ghost use Rattle.sv_vxi.specs.declared.error_code.ErrorCode.TheVariants.{NoError};
ghost use Rattle.sv_vxi.specs.Results.{Link, Status, Plain, plain_result, data_of};
ghost use Rattle.sv_layers.specs.Act.{Exchanged, Polled, Purged};
ghost use Rattle.sv_exchange.specs.Exchange.{ResponseRead, response, has_ended, is_something};
ghost use Rattle.sv_exchange.specs.ReadGiven.{IsReadOf};
ghost use Rattle.sv_exchange.specs.Contents.{shown_by, is_open};
ghost use Rattle.sv_instrument.specs.Step.{is_answerable};
ghost use Rattle.sv_instrument.specs.Stimulus.{trigger_acts};
ghost use Rattle.sv_history.specs.declared.event.Config.{Config as Configured};
ghost use Rattle.sv_links.specs.Links.{Destroyed, holder, is_locked_out};
ghost use Rattle.sv_exchange.specs.Limits.{max_message, max_read};
ghost use Rattle.sv_history.specs.Act.{ConnAct, DeviceAct, Linked, Applied, link_acts, instrument_acts, exchange_acts};
ghost use Rattle.sv_history.specs.CallOutcome.{answer_with};
ghost use Rattle.sv_history.specs.CoreCall.{is_too_long};
ghost use Rattle.sv_history.specs.Connection.{is_busy};
ghost use Rattle.sv_history.specs.Effect.{call_effect};
ghost use Rattle.sv_server.specs.Connection.Representation.{IsConnection};
ghost use Rattle.sv_server.specs.Server.Inside.Ending.{Concludes};
ghost use Rattle.sv_server.specs.Device.Representation.{IsDevice, HasPlace};
ghost use Rattle.sv_history.specs.Admission.{device_wait};
ghost use Rattle.sv_history.specs.CoreChannel.{term_of, owns, make_link, device_lock, device_unlock, device_read, reads, link_call};
ghost use Rattle.sv_server.specs.Device.Inside.Outcome.{IsDeviceAt, GivesResult, OutcomeIs, IsBrief, IsReadyFor, CanExecute, IsFree, executed};

use crate::conn::Conn;
use crate::connection::Connection;
use crate::device::Device;
use crate::device::admitted::Admitted;
use crate::device::error_results::{call_failure, no_link, nothing_read, plain, written};
use crate::outcome::{Answer, Outcome};
use std::alloc::Allocator;
use sv_exchange::MAX_MESSAGE;
use sv_vxi::{ErrorCode, Flags, GenericCall, LinkCall, Reason, VxiResult};

impl<A: Allocator> Device<A> {
    /// Whether a link was made by this connection.
    pub(super) fn owns(&self, conn: Conn, lid: u32) -> bool
        ensures { (config : Configured) (acts : List DeviceAct) → IsDevice self.now config acts
            → result ≡ owns conn.number (Some lid) acts }
    {
        self.links.owner(lid) == Some(conn.number)
    }

    /// The result of a create_link that made the link `lid`.
    fn told_link(&self, lid: u32) -> VxiResult<'static>
        requires { lid < 2 ^ 31 }
        ensures told { plain_result result
            ≡ Link NoError (pos lid) self.now.config.abort max_message }
        ensures short { data_of (plain_result result) ≡ [] }
    {
        VxiResult::Link {
            error: ErrorCode::NoError,
            lid: lid as i32,
            abort_port: self.config.abort,
            max_recv_size: MAX_MESSAGE as u32,
        }
    }

    /// Makes a link. A place and memory for it must already be reserved.
    fn make_free(&mut self, conn: Conn) -> VxiResult<'static>
        ensures ends { (config : Configured) (acts : List DeviceAct) → IsDevice self.old config acts
            → HasPlace self.old acts
            → GivesResult result self.new config acts (make_link config conn.number false acts) }
        ensures short { data_of (plain_result result) ≡ [] }
        ensures waiting { self.new.waiting ≡ self.old.waiting }
    {
        let Ok(lid) = self.links.create(conn.number) else {
            return no_link(ErrorCode::OutOfResources);
        };
        self.told_link(lid)
    }

    /// Makes a link and gives it the lock, which no link holds. A place and memory for the link
    /// must already be reserved.
    fn make_locked(&mut self, conn: Conn) -> VxiResult<'static>
        ensures ends { (config : Configured) (acts : List DeviceAct) → IsDevice self.old config acts
            → HasPlace self.old acts → is_locked_out (holder (link_acts acts)) None ≡ false
            → GivesResult result self.new config acts (make_link config conn.number true acts) }
        ensures short { data_of (plain_result result) ≡ [] }
        ensures waiting { self.new.waiting ≡ self.old.waiting }
    {
        let Ok(lid) = self.links.create(conn.number) else {
            return no_link(ErrorCode::OutOfResources);
        };
        let _ = self.links.lock(lid);
        self.told_link(lid)
    }

    /// Makes a link, with the lock if the call asks for the lock.
    fn make_link(&mut self, conn: Conn, lock_device: bool) -> VxiResult<'static>
        ensures ends { (config : Configured) (acts : List DeviceAct) → IsDevice self.old config acts
            → HasPlace self.old acts
            → (lock_device ≡ true → is_locked_out (holder (link_acts acts)) None ≡ false)
            → GivesResult result self.new config acts
            (make_link config conn.number lock_device acts) }
        ensures short { data_of (plain_result result) ≡ [] }
        ensures waiting { self.new.waiting ≡ self.old.waiting }
    {
        if lock_device {
            return self.make_locked(conn);
        }
        self.make_free(conn)
    }

    /// destroy_link: destroys the link, and disables its service requests.
    fn destroy_link(&mut self, lid: u32) -> VxiResult<'static>
        ensures ends { (config : Configured) (acts : List DeviceAct) → IsDevice self.old config acts
            → GivesResult result self.new config acts
            (answer_with (Linked (Destroyed lid) ∷ []) (Plain NoError)) }
        ensures short { data_of (plain_result result) ≡ [] }
        ensures waiting { self.new.waiting ≡ self.old.waiting }
    {
        self.links.destroy(lid);
        self.intr.disable(lid);
        plain(ErrorCode::NoError)
    }

    /// device_lock: the link gets the lock, unless another link holds it.
    fn device_lock(&mut self, lid: u32) -> VxiResult<'static>
        ensures ends { (config : Configured) (acts : List DeviceAct) → IsDevice self.old config acts
            → GivesResult result self.new config acts (device_lock lid acts) }
        ensures short { data_of (plain_result result) ≡ [] }
        ensures waiting { self.new.waiting ≡ self.old.waiting }
    {
        if !self.links.lock(lid) {
            return plain(ErrorCode::Locked);
        }
        plain(ErrorCode::NoError)
    }

    /// device_unlock: the link frees the lock, if it holds the lock.
    fn device_unlock(&mut self, lid: u32) -> VxiResult<'static>
        ensures ends { (config : Configured) (acts : List DeviceAct) → IsDevice self.old config acts
            → GivesResult result self.new config acts (device_unlock lid acts) }
        ensures short { data_of (plain_result result) ≡ [] }
        ensures waiting { self.new.waiting ≡ self.old.waiting }
    {
        if !self.links.unlock(lid) {
            return plain(ErrorCode::NoLock);
        }
        plain(ErrorCode::NoError)
    }

    /// device_read: if the instrument has a response, the call is answered with bytes of it. If the
    /// flag termchrset is set, the low eight bits of `term_char` are the termination character. If
    /// no response can come without a further write, the result is a timeout, the bytes of the
    /// unfinished message are dropped, and the instrument's error -420 is reported.
    fn device_read(&mut self, most: u32, flags: Flags, term_char: u32) -> Outcome
        requires { IsTrue (is_something (shown_by self.old.instrument.layers.exchange)
            || is_open self.old.instrument.layers.exchange) }
        ensures ends { (config : Configured) (acts : List DeviceAct) → IsDevice self.old config acts
            → is_answerable (instrument_acts acts) ≡ true
            → OutcomeIs result self.new config acts
            (device_read most (term_of flags.0 term_char) acts) }
        ensures short { IsBrief result }
        ensures waiting { self.new.waiting ≡ self.old.waiting }
    {
        if self.instrument.readable() {
            let ends = flags.has_term_char();
            let term = ends.then_some((term_char % 256) as u8);
            return Outcome::Response { most, term };
        }
        let raised = self.instrument.unterminated();
        self.raise(raised);
        Outcome::Reply(Answer::Result(nothing_read(ErrorCode::IoTimeout)))
    }

    /// Answers the call that was taken, which is a read, with bytes of the response.
    pub fn answer_read(
        &mut self,
        xid: u32,
        most: u32,
        term: Option<u8>,
        connection: &mut Connection<A>,
    )
        ensures ends { (config : Configured) (acts : List ConnAct) (before : List DeviceAct)
            → IsConnection connection.old acts → is_busy acts ≡ true
            → IsDevice self.old config before
            → Concludes (call_effect xid (reads (response (exchange_acts before)) most term)) config
            acts before connection.new self.new }
        ensures waiting { self.new.waiting ≡ self.old.waiting }
    {
        let read = self.instrument.peek(most, term);
        let count = read.bytes.len();
        let given = VxiResult::Read {
            error: ErrorCode::NoError,
            reason: Reason {
                request_count: read.request_count,
                character: read.character,
                end: read.end,
            },
            bytes: read.bytes,
        };
        connection.answer(xid, &Answer::Result(given));
        let raised = self.instrument.take(count);
        self.raise(raised);
    }

    /// device_readstb: returns the status byte, and ends the request for service.
    fn device_readstb(&mut self) -> VxiResult<'static>
        ensures ends { (config : Configured) (polled : ℕ) (acts : List DeviceAct)
            → IsDeviceAt self.old config polled acts
            → GivesResult result self.new config acts
            (answer_with (Applied Polled ∷ []) (Status NoError polled)) }
        ensures short { data_of (plain_result result) ≡ [] }
        ensures waiting { self.new.waiting ≡ self.old.waiting }
    {
        VxiResult::Status {
            error: ErrorCode::NoError,
            stb: self.instrument.poll(),
        }
    }

    /// device_trigger: the instrument gets a trigger from the controller.
    fn device_trigger(&mut self) -> VxiResult<'static>
        ensures ends { (config : Configured) (acts : List DeviceAct) → IsDevice self.old config acts
            → GivesResult result self.new config acts
            (answer_with (map Applied (trigger_acts (instrument_acts acts))) (Plain NoError)) }
        ensures short { data_of (plain_result result) ≡ [] }
        ensures waiting { self.new.waiting ≡ self.old.waiting }
    {
        let raised = self.instrument.trigger();
        self.raise(raised);
        plain(ErrorCode::NoError)
    }

    /// device_clear: drops the bytes of messages that aren't executed yet, the held unit (which
    /// waits for the end of a measurement), and the response.
    fn device_clear(&mut self) -> VxiResult<'static>
        ensures ends { (config : Configured) (acts : List DeviceAct) → IsDevice self.old config acts
            → GivesResult result self.new config acts
            (answer_with (Applied Purged ∷ []) (Plain NoError)) }
        ensures short { data_of (plain_result result) ≡ [] }
        ensures waiting { self.new.waiting ≡ self.old.waiting }
    {
        let raised = self.instrument.clear();
        self.raise(raised);
        plain(ErrorCode::NoError)
    }

    /// Executes a call that nothing stops, on the link `lid`.
    fn link_call(&mut self, conn: Conn, lid: u32, call: &LinkCall<'_>) -> Outcome
        requires ready { IsReadyFor (plain_call call.now) self.old.instrument }
        requires within { is_too_long (plain_call call.now) ≡ false }
        ensures ends { (config : Configured) (polled : ℕ) (acts : List DeviceAct)
            → IsDeviceAt self.old config polled acts → device_wait (plain_call call.now) acts ≡ None
            → OutcomeIs result self.new config acts
            (link_call polled conn.number lid (plain_call call.now) acts) }
        ensures short { IsBrief result }
        ensures waiting { self.new.waiting ≡ self.old.waiting }
    {
        match *call {
            LinkCall::DeviceWrite { flags, bytes, .. } => {
                let raised = self.instrument.write(bytes, flags.has_end());
                self.raise(raised);
                let count = bytes.len() as u32;
                Outcome::Reply(Answer::Result(written(ErrorCode::NoError, count)))
            }
            LinkCall::DeviceRead {
                request_size,
                flags,
                term_char,
                ..
            } => self.device_read(request_size, flags, term_char),
            LinkCall::Generic { call, .. } => Outcome::Reply(Answer::Result(self.generic_call(
                call,
            ))),
            LinkCall::DeviceLock { .. } => Outcome::Reply(Answer::Result(self.device_lock(lid))),
            LinkCall::DeviceUnlock => Outcome::Reply(Answer::Result(self.device_unlock(lid))),
            LinkCall::DeviceEnableSrq { enable, handle } => {
                Outcome::Reply(Answer::Result(self.device_enable_srq(conn, lid, enable, handle)))
            }
            LinkCall::DestroyLink => Outcome::Reply(Answer::Result(self.destroy_link(lid))),
            LinkCall::DeviceAbort => Outcome::Reply(Answer::Result(plain(ErrorCode::NotSupported))),
            LinkCall::DeviceDocmd { .. } => {
                Outcome::Reply(Answer::Result(call_failure(call, ErrorCode::NotSupported)))
            }
        }
    }

    /// Executes one of the five calls whose arguments are Device_GenericParms.
    fn generic_call(&mut self, call: GenericCall) -> VxiResult<'static>
        ensures ends { (config : Configured) (polled : ℕ) (acts : List DeviceAct)
            → IsDeviceAt self.old config polled acts → (c lid flags lock_timeout io_timeout : ℕ)
            → GivesResult result self.new config acts
            (link_call polled c lid (Generic call flags lock_timeout io_timeout) acts) }
        ensures short { data_of (plain_result result) ≡ [] }
        ensures waiting { self.new.waiting ≡ self.old.waiting }
    {
        match call {
            GenericCall::Readstb => self.device_readstb(),
            GenericCall::Trigger => self.device_trigger(),
            GenericCall::Clear => self.device_clear(),
            GenericCall::Remote => plain(ErrorCode::NoError),
            GenericCall::Local => plain(ErrorCode::NoError),
        }
    }

    /// Executes a call that nothing stops.
    pub(super) fn execute(&mut self, conn: Conn, call: &Admitted<'_>) -> Outcome
        requires { CanExecute call.now self.old }
        ensures ends { (config : Configured) (polled : ℕ) (acts : List DeviceAct)
            → IsDeviceAt self.old config polled acts → IsFree call.now self.old acts
            → OutcomeIs result self.new config acts
            (executed config polled conn.number call.now acts) }
        ensures short { IsBrief result }
        ensures waiting { self.new.waiting ≡ self.old.waiting }
    {
        match *call {
            Admitted::CreateLink { lock_device } => Outcome::Reply(Answer::Result(self.make_link(
                conn,
                lock_device,
            ))),
            Admitted::OnLink { lid, call } => self.link_call(conn, lid, &call),
            Admitted::DestroyIntrChan => Outcome::Reply(Answer::Result(self.destroy_channel(conn))),
        }
    }
}
