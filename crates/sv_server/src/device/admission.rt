//! What is checked before a call of the core channel is executed (VXI-11 revision 1.0, B.4.4 and
//! B.6): the call's link, the size of a write, the lock, and whether the call has to wait.

ghost use Rattle.std.specs.Prelude.{◌≡◌, ◌&&◌, ◌||◌, ℕ, ℤ, List, ◌∷◌, Some, None, is_none, IfSome, IsTrue, OnOk, OnErr, true, false, Bool, if◌then◌else◌};
ghost use Rattle.sv_vxi.specs.Arguments.{Arguments, CreateLink, OnLink, CreateIntrChan, lock_wait};
ghost use Rattle.sv_vxi.specs.Reading.{plain_call, plain_arguments};
ghost use Rattle.sv_links.specs.Links.{holder, is_locked_out as is_out};
ghost use Rattle.sv_links.specs.Waiting.{Entered, is_lock};
ghost use Rattle.sv_links.specs.Queue.{wait_measure};
ghost use Rattle.sv_exchange.specs.Exchange.{has_ended, is_something};
ghost use Rattle.sv_exchange.specs.Contents.{is_open, shown_by};
ghost use Rattle.sv_instrument.specs.Step.{is_answerable};
ghost use Rattle.sv_history.specs.declared.event.Config.{Config as Configured};
ghost use Rattle.sv_history.specs.Act.{DeviceAct, Waited, link_acts, instrument_acts, exchange_acts};
ghost use Rattle.sv_history.specs.CoreCall.{lid_of as lid_for};
ghost use Rattle.sv_history.specs.Interrupts.{is_dial};
ghost use Rattle.sv_history.specs.Admission.{lock_stop as lock_stop_for, device_wait, may_make_more as may_make, link_stop as link_stop_for, channel_stop as channel_stop_for, call_stop, stop_of, deadline as deadline_for, Awaits};
ghost use Rattle.sv_server.specs.Device.Representation.{Device as Kept, IsDevice, HasPlace};
ghost use Rattle.sv_server.specs.Device.Inside.Outcome.{StopsAs, IsSound, IsReadyFor, CanExecute, IsCall, IsBehind, Admits, AdmitsAt};

use crate::conn::Conn;
use crate::device::Device;
use crate::device::admitted::Admitted;
use crate::device::arguments::{is_too_long, lid_of};
use crate::device::error_results::{call_failure, no_link, plain};
use crate::device::interrupts::is_peer;
use crate::outcome::{Answer, Outcome};
use std::alloc::{AllocError, Allocator};
use sv_links::{Entry, MAX_LINKS, Wait, is_locked_out};
use sv_vxi::{Args, ErrorCode, LinkCall, LockWait, VxiResult};

/// The most links that may exist at the same time, including those that suspended create_links will
/// make.
const MOST_LINKS: u8 = MAX_LINKS as u8;

/// Whether a call of the core channel is executed, suspended or refused.
#[derive(Clone, Copy)]
pub enum Admission<'a> {
    /// The call fails with this result.
    Refused(VxiResult<'static>),
    /// The call is suspended.
    Suspended {
        /// What the call waits for.
        wait: Wait,
        /// How long the call waits at most, in milliseconds; `None` if it waits without a deadline.
        timeout: Option<u32>,
    },
    /// Nothing stops the call.
    Admitted(Admitted<'a>),
}

/// Whether a call waits while another link holds the lock, or fails: `lock` says which.
fn lock_admission(lock: LockWait, call: &LinkCall<'_>) -> Admission<'static>
    ensures stops { (lid : ℤ) → StopsAs result (OnLink lid (plain_call call.now))
        (Some (lock_stop_for lock)) }
    ensures sound { (arguments : Arguments) (kept : Kept) → IsSound result arguments kept }
{
    if lock.waits {
        Admission::Suspended {
            wait: Wait::Lock,
            timeout: Some(lock.timeout),
        }
    } else {
        Admission::Refused(call_failure(call, ErrorCode::Locked))
    }
}

/// create_intr_chan fails if the connection's interrupt channel is already open (`there`), if
/// `prog_family` isn't TCP (0), or if the address or the port isn't allowed. Else it is suspended
/// until its peer is connected.
fn channel_admission(
    there: bool,
    host_addr: u32,
    host_port: u32,
    prog_family: u32,
) -> Admission<'static>
    ensures stops { (prog vers : ℕ)
        → StopsAs result (CreateIntrChan host_addr host_port prog vers prog_family)
        (Some (channel_stop_for there host_addr host_port prog_family)) }
    ensures sound { (arguments : Arguments) (kept : Kept) → IsSound result arguments kept }
{
    if there {
        return Admission::Refused(plain(ErrorCode::AlreadyEstablished));
    }
    if prog_family != 0 {
        return Admission::Refused(plain(ErrorCode::NotSupported));
    }
    if !is_peer(host_addr, host_port) {
        return Admission::Refused(plain(ErrorCode::InvalidAddress));
    }
    Admission::Suspended {
        wait: Wait::Dial,
        timeout: None,
    }
}

impl<A: Allocator> Device<A> {
    /// If another link than `lid` holds the lock that the call needs: how the call waits for it.
    fn awaited_lock(&self, lid: u32, call: &LinkCall<'_>) -> Option<LockWait>
        ensures { (config : Configured) (acts : List DeviceAct) → IsDevice self.now config acts
            → result ≡ (if is_out (holder (link_acts acts)) (Some lid)
            then lock_wait (plain_call call.now) else None) }
    {
        if is_locked_out(self.links.holder(), Some(lid)) {
            return call.lock_wait();
        }
        None
    }

    /// If a call has to wait for something other than the lock: what the call waits for, and its
    /// timeout in milliseconds. Else `None`. A device_write waits while the instrument hasn't
    /// finished a message that came completely. A device_read waits until the instrument can answer
    /// it.
    pub(super) fn device_wait(&self, call: &LinkCall<'_>) -> Option<(Wait, u32)>
        ensures answer { (config : Configured) (acts : List DeviceAct)
            → IsDevice self.now config acts
            → result ≡ device_wait (plain_call call.now) acts }
        ensures measure { IfSome result (λ wait. wait_measure wait.0 ≡ 1) }
        ensures plain { IfSome result (λ wait. is_dial (Some wait.0) ≡ false) }
        ensures ready { result ≡ None
            → IsReadyFor (plain_call call.now) self.now.instrument }
    {
        match *call {
            LinkCall::DeviceWrite { io_timeout, .. } => {
                if self.instrument.can_write() {
                    return None;
                }
                Some((Wait::Input, io_timeout))
            }
            LinkCall::DeviceRead { io_timeout, .. } => {
                if self.instrument.can_read() {
                    return None;
                }
                Some((Wait::Response, io_timeout))
            }
            _ => None,
        }
    }

    /// Whether one more link may be made, besides those that suspended create_links will make.
    fn may_make_more(&self) -> bool
        ensures { (config : Configured) (acts : List DeviceAct) → IsDevice self.now config acts
            → result ≡ may_make acts }
    {
        self.links.count() + self.waiting.creating() < MOST_LINKS && self.links.lids_left()
    }

    /// create_link fails for an unknown device name, and if there are too many links. If
    /// `lock_device` asks for the lock, it waits while a link holds the lock.
    fn link_admission(&self, lock_device: bool, timeout: u32, device: &[u8]) -> Admission<'static>
        ensures stops { (config : Configured) (acts : List DeviceAct)
            → IsDevice self.now config acts → (client : ℤ)
            → StopsAs result (CreateLink client lock_device timeout device.now)
            (link_stop_for lock_device timeout device.now acts) }
        ensures sound { (client : ℤ)
            → IsSound result (CreateLink client lock_device timeout device.now) self.now }
    {
        if device != b"inst0".as_slice() {
            return Admission::Refused(no_link(ErrorCode::NotAccessible));
        }
        if !self.may_make_more() {
            return Admission::Refused(no_link(ErrorCode::OutOfResources));
        }
        if lock_device && is_locked_out(self.links.holder(), None) {
            return Admission::Suspended {
                wait: Wait::Lock,
                timeout: Some(timeout),
            };
        }
        Admission::Admitted(Admitted::CreateLink { lock_device })
    }

    /// Whether a call on a link is executed. The first of these that applies stops the call: the
    /// connection has no such link; the call is a write of too many bytes; another link holds the
    /// lock that the call needs; the call has to wait for the device.
    fn call_admission<'a>(&self, conn: Conn, lid: i32, call: &LinkCall<'a>) -> Admission<'a>
        ensures stops { (config : Configured) (acts : List DeviceAct)
            → IsDevice self.now config acts
            → StopsAs result (OnLink lid (plain_call call.now))
            (call_stop conn.number (lid_for (Some lid)) (plain_call call.now) acts) }
        ensures sound { IsSound result (OnLink lid (plain_call call.now)) self.now }
    {
        let Some(lid) = lid_of(Some(lid)) else {
            return Admission::Refused(call_failure(call, ErrorCode::InvalidLink));
        };
        if !self.owns(conn, lid) {
            return Admission::Refused(call_failure(call, ErrorCode::InvalidLink));
        }
        if is_too_long(call) {
            return Admission::Refused(call_failure(call, ErrorCode::ParameterError));
        }
        if let Some(lock) = self.awaited_lock(lid, call) {
            return lock_admission(lock, call);
        }
        if let Some((wait, timeout)) = self.device_wait(call) {
            return Admission::Suspended {
                wait,
                timeout: Some(timeout),
            };
        }
        Admission::Admitted(Admitted::OnLink { lid, call: *call })
    }

    /// Whether a call is executed, suspended or refused.
    fn admission<'a>(&self, conn: Conn, args: &Args<'a>) -> Admission<'a>
        ensures stops { (config : Configured) (acts : List DeviceAct)
            → IsDevice self.now config acts
            → StopsAs result (plain_arguments args.now)
            (stop_of conn.number (plain_arguments args.now) acts) }
        ensures sound { IsSound result (plain_arguments args.now) self.now }
    {
        match *args {
            Args::CreateLink {
                lock_device,
                lock_timeout,
                device,
                ..
            } => self.link_admission(lock_device, lock_timeout, device),
            Args::OnLink { lid, call } => self.call_admission(conn, lid, &call),
            Args::CreateIntrChan {
                host_addr,
                host_port,
                prog_family,
                ..
            } => channel_admission(self.has_channel(conn), host_addr, host_port, prog_family),
            Args::DestroyIntrChan => Admission::Admitted(Admitted::DestroyIntrChan),
        }
    }

    /// For a call that is suspended at this moment with this timeout: the value of the clock at
    /// which the call times out. `None` if the timeout is `None`.
    pub(super) fn deadline(&self, timeout: Option<u32>) -> Option<u64>
        ensures { (config : Configured) (acts : List DeviceAct) → IsDevice self.now config acts
            → result ≡ deadline_for config timeout acts }
    {
        Some(self.clock() + u64::from(timeout?))
    }

    /// Allocates the memory for one more link, if `makes_link` says so.
    fn reserve(&mut self, makes_link: bool) -> Result<(), AllocError>
        ensures ok { (config : Configured) (acts : List DeviceAct) → IsDevice self.old config acts
            → OnOk result (IsDevice self.new config acts
            × (makes_link ≡ true → may_make acts ≡ true → HasPlace self.new acts)) }
        ensures waiting { OnOk result (self.new.waiting ≡ self.old.waiting) }
        ensures same { self.new.instrument ≡ self.old.instrument }
        ensures err { OnErr result ((self.new ≡ self.old) × (makes_link ≡ true)) }
    {
        if !makes_link {
            return Ok(());
        }
        self.links.reserve(self.waiting.creating() + 1)
    }

    /// Suspends a call that waits for the lock or the device.
    fn enter(&mut self, conn: Conn, lid: Option<u32>, wait: Wait, timeout: Option<u32>)
        requires { is_dial (Some wait) ≡ false }
        ensures stands { (config : Configured) (acts : List DeviceAct)
            → IsDevice self.old config acts
            → ((is_lock (Some wait) && is_none lid) ≡ true → HasPlace self.old acts)
            → IsDevice self.new config (Waited (Entered conn.number lid wait
            (deadline_for config timeout acts)) ∷ acts) }
        ensures waits { (makes : Bool)
            → (makes ≡ true → (is_lock (Some wait) && is_none lid) ≡ true)
            → IsBehind conn.number makes self.old.waiting self.new.waiting }
    {
        let deadline = self.deadline(timeout);
        self.waiting.enter(Entry {
            conn: conn.number,
            lid,
            wait,
            deadline,
        });
    }

    /// Suspends a create_intr_chan until its peer is connected. Allocates the memory for the
    /// interrupt channel.
    fn await_peer(
        &mut self,
        conn: Conn,
        args: &Args<'_>,
        timeout: Option<u32>,
    ) -> Result<Outcome, AllocError>
        ensures { AdmitsAt (Some (Awaits Wait.Dial timeout)) result conn.number
            (plain_arguments args.now) self.old self.new }
    {
        self.intr.prepare(conn.number)?;
        let deadline = self.deadline(timeout);
        self.waiting.enter(Entry {
            conn: conn.number,
            lid: lid_of(args.link()),
            wait: Wait::Dial,
            deadline,
        });
        Ok(Outcome::Suspended)
    }

    /// Suspends a call that waits for the lock or the device. If the call is create_link, allocates
    /// the memory for its link.
    fn await_device(
        &mut self,
        conn: Conn,
        args: &Args<'_>,
        wait: Wait,
        timeout: Option<u32>,
    ) -> Result<Outcome, AllocError>
        requires { is_dial (Some wait) ≡ false }
        ensures { AdmitsAt (Some (Awaits wait timeout)) result conn.number
            (plain_arguments args.now) self.old self.new }
    {
        self.reserve(args.is_create_link())?;
        self.enter(conn, lid_of(args.link()), wait, timeout);
        Ok(Outcome::Suspended)
    }

    /// Suspends a call.
    fn suspend(
        &mut self,
        conn: Conn,
        args: &Args<'_>,
        wait: Wait,
        timeout: Option<u32>,
    ) -> Result<Outcome, AllocError>
        ensures { AdmitsAt (Some (Awaits wait timeout)) result conn.number
            (plain_arguments args.now) self.old self.new }
    {
        match wait {
            Wait::Dial => self.await_peer(conn, args, timeout),
            Wait::Lock => self.await_device(conn, args, Wait::Lock, timeout),
            Wait::Input => self.await_device(conn, args, Wait::Input, timeout),
            Wait::Response => self.await_device(conn, args, Wait::Response, timeout),
        }
    }

    /// Executes a call with these arguments. If something stops the call, it fails or is suspended.
    pub fn admit(&mut self, conn: Conn, args: &Args<'_>) -> Result<Outcome, AllocError>
        ensures { Admits result conn.number (plain_arguments args.now) self.old self.new }
    {
        match self.admission(conn, args) {
            Admission::Refused(given) => Ok(Outcome::Reply(Answer::Result(given))),
            Admission::Suspended { wait, timeout } => self.suspend(conn, args, wait, timeout),
            Admission::Admitted(call) => {
                self.reserve(call.is_create_link())?;
                Ok(self.execute(conn, &call))
            }
        }
    }
}
