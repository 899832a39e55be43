//! Waiting until the system reports something about a socket.

ghost use Rattle.std.specs.Prelude.{◌≡◌, None, IfOk, replicate};

use crate::control::Control;
use crate::net::Net;
use crate::stream::Stream;
use mio::{Events, Poll};
use std::alloc::{Allocator, Global};
use std::io;
use std::net::Net as Network;
use std::time::Duration;

/// How many reports one wait returns at most.
const REPORTS: usize = 64;

/// Waits for the system's reports about sockets, and stores them.
#[derive(Drop)]
pub struct Watch<A: Allocator = Global> {
    poll: Poll,
    events: Events<A>,
}

impl<A: Allocator + Copy> Watch<A> {
    /// Listens on three ports of 127.0.0.1: those of the core channel, the abort channel and the
    /// port mapper. Returns the watch that waits for reports, and the sockets. None of the sockets
    /// is connected yet.
    ///
    /// # Errors
    /// If a port can't be listened on, or memory is refused (`ErrorKind::OutOfMemory`).
    pub fn listen<N: Network + Drop>(
        network: N,
        alloc: A,
        ports: [u16; 3],
    ) -> io::Result<(Watch<A>, Net<N, A>)>
        ensures { IfOk result (λ made. made.1 ≡ replicate 32 None) }
    {
        let poll = Poll::new(&network)?;
        let net = Net::listen(network, alloc, &poll, ports)?;
        let events = Events::with_capacity(alloc, REPORTS)?;
        Ok((Watch { poll, events }, net))
    }

    /// Listens on a port of 127.0.0.1 for clients that hand in stimuli.
    ///
    /// # Errors
    /// If the port can't be listened on, or memory is refused (`ErrorKind::OutOfMemory`).
    pub fn control<N: Network>(&self, network: &N, alloc: A, port: u16) -> io::Result<Control<A>> {
        Control::listen(network, alloc, &self.poll, port)
    }
}

impl<A: Allocator> Watch<A> {
    /// Waits until something is reported about a socket, or until the time `limit` has passed. If
    /// `limit` is `None`, only a report ends the wait. Returns whether something was reported.
    ///
    /// # Errors
    /// If the wait fails.
    pub(crate) fn wait(&mut self, limit: Option<Duration>) -> io::Result<bool> {
        self.poll.poll(&mut self.events, limit)?;
        Ok(!self.events.is_empty())
    }

    /// Passes the reports of the last wait to the sockets.
    pub(crate) fn report<N: Network + Drop, B: Allocator, S: Stream>(&self, net: &Net<N, B, S>) {
        for event in self.events.iter() {
            net.report(event);
        }
    }

    /// Passes the reports of the last wait to the control port, if there is one.
    pub(crate) fn report_control<B: Allocator, S: Stream>(&self, control: &Option<Control<B, S>>) {
        match control {
            Some(control) => self.report_to(control),
            None => {}
        }
    }

    /// Passes the reports of the last wait to the control port.
    fn report_to<B: Allocator, S: Stream>(&self, control: &Control<B, S>) {
        for event in self.events.iter() {
            control.report(event);
        }
    }
}
