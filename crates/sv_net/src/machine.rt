//! The clock and the waits of a loop of sweeps.

ghost use Rattle.std.specs.Prelude.{IfOk, IfSome, OnErr};
ghost use Rattle.sv_replay.specs.Entry.{IsAccepted};

use crate::control::Control;
use crate::net::Net;
use crate::stream::Stream;
use crate::watch::Watch;
use mio::net::TcpStream;
use std::alloc::Allocator;
use std::io;
use std::net::Net as Network;
use std::time::{Clock, Duration, Instant};
use sv_replay::Stimulus;

/// A clock, a way to wait for the system's reports that sockets are ready, and a source of stimuli.
/// The loop of sweeps learns the time from its machine alone ([`serve`](crate::serve)).
pub trait Machine<S: Stream> {
    ghost use Rattle.std.specs.declared.time.Duration.{Duration};
    ghost use Rattle.sv_net.specs.Serving.{Doing, Waited, Told, Asked};
    ghost use Rattle.std.specs.Prelude.{List, Option, ⊤};

    /// How a wait that doesn't fail, the passing of its reports, or a question for a stimulus
    /// changes the machine. By default this relation says nothing; the machine of a real system
    /// uses this default.
    ghost answers: { Self → Doing (List (Option S)) → Self → Type 0 } = { λ before doing after. ⊤ };

    /// How a wait with this limit that fails changes the machine. By default this relation says
    /// nothing.
    ghost fails: { Self → Option Duration → Self → Type 0 } = { λ before limit after. ⊤ };

    /// Waits until something is reported about a socket, or until the time `limit` has passed. If
    /// `limit` is `None`, only a report ends the wait. Returns whether something was reported, and
    /// when the wait ended, in nanoseconds since the machine was made.
    ///
    /// # Errors
    /// If the system's clock can't be read, or the wait fails.
    fn wait(&mut self, limit: Option<Duration>) -> io::Result<(bool, u64)>
        ensures ok { IfOk result (λ ended.
            answers self.old (Waited limit ended.0 ended.1) self.new) }
        ensures err { OnErr result (fails self.old limit self.new) };

    /// Passes the reports of the last wait to the sockets.
    fn report<N: Network + Drop, B: Allocator>(&mut self, net: &Net<N, B, S>)
        ensures { answers self.old (Told net.now) self.new };

    /// Returns the next stimulus that came from outside; `None` if there is none now.
    fn stimulus(&mut self) -> Option<Stimulus>
        ensures accepted { IfSome result IsAccepted }
        ensures asked { answers self.old (Asked result) self.new };

    /// Whether [`stimulus`](Machine::stimulus) has something to do even if no report comes.
    fn is_busy(&self) -> bool;
}

/// The machine of a real system: its clock, the time of the clock's first reading, the watch that
/// waits for reports about sockets, and the control port, if there is one. The control port gets
/// its reports as soon as a wait ends: before it closes a client, and gives the client's place and
/// token to another.
#[derive(Drop)]
pub struct System<'a, C: Clock, A: Allocator, S: Stream = TcpStream> {
    clock: &'a C,
    start: Instant,
    watch: &'a mut Watch<A>,
    control: &'a mut Option<Control<A, S>>,
}

impl<'a, C: Clock, A: Allocator, S: Stream> System<'a, C, A, S> {
    /// Makes a machine whose time begins now. Its stimuli come from the clients of the control
    /// port; without a control port there are none.
    ///
    /// # Errors
    /// If the system's clock can't be read.
    pub fn begin(
        clock: &'a C,
        watch: &'a mut Watch<A>,
        control: &'a mut Option<Control<A, S>>,
    ) -> io::Result<System<'a, C, A, S>> {
        let start = Instant::now(clock)?;
        Ok(System {
            clock,
            start,
            watch,
            control,
        })
    }
}

/// Returns the next stimulus of the control port, if there is one.
fn stimulus_of<A: Allocator, S: Stream>(control: &mut Option<Control<A, S>>) -> Option<Stimulus>
    ensures { IfSome result IsAccepted }
{
    match control {
        Some(control) => control.stimulus(),
        None => None,
    }
}

/// Whether the control port has something to do even if no report comes.
fn is_busy_at<A: Allocator, S: Stream>(control: &Option<Control<A, S>>) -> bool {
    match control {
        Some(control) => control.is_busy(),
        None => false,
    }
}

/// Returns how long to wait at most: as long as `limit` says, or less if the control port has to
/// look for a client before that.
fn limit_at<A: Allocator, S: Stream>(
    control: &Option<Control<A, S>>,
    limit: Option<Duration>,
) -> Option<Duration> {
    match control {
        Some(control) => control.limit(limit),
        None => limit,
    }
}

impl<C: Clock, A: Allocator, S: Stream> Machine<S> for System<'_, C, A, S> {
    fn wait(&mut self, limit: Option<Duration>) -> io::Result<(bool, u64)> {
        let limit = limit_at(self.control, limit);
        let reported = self.watch.wait(limit)?;
        self.watch.report_control(self.control);
        let passed = self.start.elapsed(self.clock)?;
        Ok((reported, passed.as_nanos().min(u128::from(u64::MAX)) as u64))
    }

    fn report<N: Network + Drop, B: Allocator>(&mut self, net: &Net<N, B, S>) {
        self.watch.report(net);
    }

    fn stimulus(&mut self) -> Option<Stimulus> {
        stimulus_of(self.control)
    }

    fn is_busy(&self) -> bool {
        is_busy_at(self.control)
    }
}
