//! A suspended call resumes, times out, or ends with another error.

ghost use Rattle.std.specs.Prelude.{◌≡◌, ◌+◌, ◌<◌, ◌≤◌, ℕ, List, [], Some, None, IfSome, IfOk, true, false, ◌∷◌};
ghost use Rattle.sv_vxi.specs.Arguments.{OnLink, is_create_link as makes_link};
ghost use Rattle.sv_vxi.specs.Reading.{plain_call, plain_arguments};
ghost use Rattle.sv_vxi.specs.Results.{plain_result, data_of};
ghost use Rattle.sv_links.specs.Waiting.{Left, waits};
ghost use Rattle.sv_links.specs.Queue.{without, queue_measure, wait_measure};
ghost use Rattle.sv_history.specs.declared.event.Config.{Config};
ghost use Rattle.sv_history.specs.Act.{DeviceAct, Waited, wait_acts};
ghost use Rattle.sv_history.specs.CallOutcome.{only};
ghost use Rattle.sv_history.specs.CoreCall.{failure as failed};
ghost use Rattle.sv_history.specs.Interrupts.{is_dial};
ghost use Rattle.sv_history.specs.Resuming.{next_wait};
ghost use Rattle.sv_server.specs.Device.Representation.{IsDevice};
ghost use Rattle.sv_server.specs.declared.outcome.Outcome.TheVariants as outcomes;
ghost use Rattle.sv_server.specs.Device.Inside.Outcome.{IsDeviceAt, MayMake, MayResume, ContinuesAs, GivesResult, IsReady, CanExecute, ResumedAs, MayWaitAnew, IsBrief, IsNearer, is_able};

use crate::conn::Conn;
use crate::device::Device;
use crate::device::admitted::Admitted;
use crate::device::arguments::{is_too_long, lid_of};
use crate::device::error_results::failure;
use crate::outcome::{Answer, Outcome};
use std::alloc::Allocator;
use sv_links::Wait;
use sv_vxi::{Args, ErrorCode, LinkCall, VxiResult};

/// Why a suspended call continues or ends.
#[derive(Clone, Copy)]
pub enum WakeReason {
    /// The call can resume, because it got what it waits for.
    Able(Wait),
    /// The attempt to connect to the call's peer succeeded (`true`) or failed (`false`).
    Dialed(bool),
    /// The call fails with this error.
    Failed(ErrorCode),
}

impl<A: Allocator> Device<A> {
    /// Continues a suspended call: executes it, suspends it anew, or ends it. `reason` says why the
    /// call continues.
    pub fn continue_call(&mut self, conn: Conn, reason: WakeReason, args: &Args<'_>) -> Outcome
        requires { IsNearer reason conn.number self.old.waiting }
        ensures ends { (config : Config) (polled : ℕ) (acts : List DeviceAct)
            → IsDeviceAt self.old config polled acts
            → MayResume reason conn.number (MayMake (plain_arguments args.now) conn.number
            self.old acts) acts
            → ContinuesAs reason result self.new config polled conn.number
            (plain_arguments args.now) acts }
        ensures short { IsBrief result }
        ensures waiting { MayWaitAnew (result ≡ outcomes.Suspended) conn.number
            (makes_link (plain_arguments args.now))
            self.old.waiting self.new.waiting }
        ensures left { is_able reason ≡ false
            → self.new.waiting ≡ without conn.number self.old.waiting }
        ensures measure { is_able reason ≡ true → queue_measure self.new.waiting
            < queue_measure self.old.waiting }
    {
        match reason {
            WakeReason::Able(wait) => self.resume(conn, wait, args),
            WakeReason::Dialed(ok) => Outcome::Reply(Answer::Result(self.end_dial(conn, ok, args))),
            WakeReason::Failed(error) => Outcome::Reply(Answer::Result(self.give_up(
                conn, error, args,
            ))),
        }
    }

    /// Resumes a call that waited for `wait`, and executes it. But if the call waited for the lock
    /// and now has to wait for the device, it is suspended anew: it keeps its place in the queue,
    /// and its new timeout begins now.
    fn resume(&mut self, conn: Conn, wait: Wait, args: &Args<'_>) -> Outcome
        requires { queue_measure (without conn.number self.old.waiting) + wait_measure wait
            ≤ queue_measure self.old.waiting }
        ensures resumes { (config : Config) (polled : ℕ) (acts : List DeviceAct)
            → IsDeviceAt self.old config polled acts
            → (waits conn.number (wait_acts acts) ≡ None → ⊥)
            → MayMake (plain_arguments args.now) conn.number self.old acts
            → ResumedAs (next_wait wait (plain_arguments args.now) acts) result self.new config
            polled conn.number (plain_arguments args.now) acts }
        ensures short { IsBrief result }
        ensures waiting { MayWaitAnew (result ≡ outcomes.Suspended) conn.number
            (makes_link (plain_arguments args.now))
            self.old.waiting self.new.waiting }
        ensures measure { queue_measure self.new.waiting < queue_measure self.old.waiting }
    {
        match wait {
            Wait::Lock => self.resume_after_lock(conn, args),
            Wait::Input | Wait::Response | Wait::Dial => self.finish_wait(conn, args),
        }
    }

    /// If a call that waited for the lock has to wait again: what it waits for next, and its
    /// timeout in milliseconds. Else `None`.
    fn next_wait(&self, args: &Args<'_>) -> Option<(Wait, u32)>
        ensures answer { (config : Config) (acts : List DeviceAct) → IsDevice self.now config acts
            → result ≡ next_wait Wait.Lock (plain_arguments args.now) acts }
        ensures measure { IfSome result (λ wait. wait_measure wait.0 ≡ 1) }
        ensures plain { IfSome result (λ wait. is_dial (Some wait.0) ≡ false) }
        ensures other { IfSome result (λ wait. makes_link (plain_arguments args.now) ≡ false) }
    {
        match *args {
            Args::OnLink { call, .. } => self.device_wait(&call),
            Args::CreateLink { .. } | Args::CreateIntrChan { .. } | Args::DestroyIntrChan => None,
        }
    }

    /// Resumes a call that waited for the lock: executes it, or suspends it anew.
    fn resume_after_lock(&mut self, conn: Conn, args: &Args<'_>) -> Outcome
        requires { queue_measure (without conn.number self.old.waiting) + 2
            ≤ queue_measure self.old.waiting }
        ensures resumes { (config : Config) (polled : ℕ) (acts : List DeviceAct)
            → IsDeviceAt self.old config polled acts
            → (waits conn.number (wait_acts acts) ≡ None → ⊥)
            → MayMake (plain_arguments args.now) conn.number self.old acts
            → ResumedAs (next_wait Wait.Lock (plain_arguments args.now) acts) result self.new config
            polled conn.number (plain_arguments args.now) acts }
        ensures short { IsBrief result }
        ensures waiting { MayWaitAnew (result ≡ outcomes.Suspended) conn.number
            (makes_link (plain_arguments args.now))
            self.old.waiting self.new.waiting }
        ensures measure { queue_measure self.new.waiting < queue_measure self.old.waiting }
    {
        if let Some((wait, timeout)) = self.next_wait(args) {
            let deadline = self.deadline(Some(timeout));
            self.waiting.again(conn.number, wait, deadline);
            return Outcome::Suspended;
        }
        self.finish_wait(conn, args)
    }

    /// A suspended call on a link, as it is executed now; else the error with which it fails.
    fn ready_link_call<'a>(&self, lid: i32, call: LinkCall<'a>) -> Result<Admitted<'a>, ErrorCode>
        ensures answer { (config : Config) (acts : List DeviceAct) → IsDevice self.now config acts
            → IsReady result (OnLink lid (plain_call call.entry)) acts }
        ensures ready { IfOk result (λ call. CanExecute call self.now) }
    {
        let Some(lid) = lid_of(Some(lid)) else {
            return Err(ErrorCode::InvalidLink);
        };
        if is_too_long(&call) {
            return Err(ErrorCode::ParameterError);
        }
        if self.device_wait(&call).is_some() {
            return Err(ErrorCode::IoTimeout);
        }
        Ok(Admitted::OnLink { lid, call })
    }

    /// A suspended call, as it is executed now; else the error with which it fails.
    fn ready_call<'a>(&self, args: &Args<'a>) -> Result<Admitted<'a>, ErrorCode>
        ensures answer { (config : Config) (acts : List DeviceAct) → IsDevice self.now config acts
            → IsReady result (plain_arguments args.now) acts }
        ensures ready { IfOk result (λ call. CanExecute call self.now) }
    {
        match *args {
            Args::CreateLink { lock_device, .. } => Ok(Admitted::CreateLink { lock_device }),
            Args::OnLink { lid, call } => self.ready_link_call(lid, call),
            Args::DestroyIntrChan => Ok(Admitted::DestroyIntrChan),
            Args::CreateIntrChan { .. } => Err(ErrorCode::NotSupported),
        }
    }

    /// Takes a suspended call out of the queue, and executes it.
    fn finish_wait(&mut self, conn: Conn, args: &Args<'_>) -> Outcome
        ensures ends { (config : Config) (polled : ℕ) (acts : List DeviceAct)
            → IsDeviceAt self.old config polled acts
            → MayMake (plain_arguments args.now) conn.number self.old acts
            → ResumedAs None result self.new config polled conn.number
            (plain_arguments args.now) acts }
        ensures short { IsBrief result }
        ensures waiting { self.new.waiting ≡ without conn.number self.old.waiting }
    {
        self.waiting.leave(conn.number);
        match self.ready_call(args) {
            Ok(call) => self.execute(conn, &call),
            Err(error) => Outcome::Reply(Answer::Result(failure(args, error))),
        }
    }

    /// Ends a suspended call with this error.
    fn give_up(&mut self, conn: Conn, error: ErrorCode, args: &Args<'_>) -> VxiResult<'static>
        ensures ends { (config : Config) (acts : List DeviceAct) → IsDevice self.old config acts
            → GivesResult result self.new config (Waited (Left conn.number) ∷ acts)
            (only (failed (plain_arguments args.now) error)) }
        ensures short { data_of (plain_result result) ≡ [] }
        ensures waiting { self.new.waiting ≡ without conn.number self.old.waiting }
    {
        self.end_wait(conn);
        failure(args, error)
    }
}
