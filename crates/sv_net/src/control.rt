//! The control port: its clients hand in stimuli while the server runs.
//!
//! A client sends lines, each with a stimulus as in a script: `input CHANNEL MICROVOLTS` or
//! `external`. Each line is answered by `ok`, if its stimulus is handed in, or by `bad line`. A
//! line has at most 255 bytes; a carriage return before its newline is dropped.

ghost use Rattle.std.specs.Prelude.{IfSome};
ghost use Rattle.sv_replay.specs.Entry.{IsAccepted};

use crate::client::Client;
use crate::listener::Listener;
use crate::stream::Stream;
use mio::event::Event as Report;
use mio::net::TcpStream;
use mio::{Poll, Registry, Token};
use std::alloc::{AllocError, Allocator, Global};
use std::io;
use std::net::Net as Network;
use std::time::Duration;
use sv_replay::Stimulus;
use sv_serve::Answer;

/// The token of the port's listening socket. Those of its clients follow.
const FIRST: usize = 35;
/// How many clients there can be.
const CLIENTS: usize = 4;

/// The control port: a listening socket on a port of 127.0.0.1, and its clients.
#[derive(Drop)]
pub struct Control<A: Allocator = Global, S: Stream = TcpStream> {
    registry: Registry,
    listener: Listener,
    clients: Vec<Option<Client<S>>, A>,
    /// The place of the client that is served next.
    next: usize,
}

/// Serves the client of a place once, and drops it if it is done. Returns the stimulus that the
/// client sent, if it sent one.
fn serve_at<S: Stream>(place: &mut Option<Client<S>>) -> Option<Stimulus>
    ensures { IfSome result IsAccepted }
{
    match place {
        Some(client) => {
            let stimulus = client.serve();
            if client.is_done() {
                *place = None;
            }
            stimulus
        }
        None => None,
    }
}

/// Makes the places of the clients. No place has a client yet.
fn no_clients<A: Allocator, S: Stream>(alloc: A) -> Result<Vec<Option<Client<S>>, A>, AllocError> {
    let mut clients = Vec::with_capacity(alloc, CLIENTS)?;
    for _ in 0..CLIENTS {
        clients.push(None)?;
    }
    Ok(clients)
}

impl<A: Allocator, S: Stream> Control<A, S> {
    /// Listens on a port of 127.0.0.1.
    ///
    /// # Errors
    /// If the port can't be listened on, or memory is refused (`ErrorKind::OutOfMemory`).
    pub(crate) fn listen(
        network: &impl Network,
        alloc: A,
        poll: &Poll,
        port: u16,
    ) -> io::Result<Control<A, S>> {
        let registry = poll.registry().try_clone()?;
        let listener = Listener::listen(network, port, &registry, Token(FIRST))?;
        let clients = no_clients(alloc)?;
        Ok(Control {
            registry,
            listener,
            clients,
            next: 0,
        })
    }

    /// Records a report of the system, if it is about the listening socket or a client's socket.
    pub(crate) fn report(&self, event: &Report) {
        let Token(number) = event.token();
        if number == FIRST {
            self.listener.report();
        } else if number > FIRST {
            if let Some(Some(client)) = self.clients.get(number - FIRST - 1) {
                client.report(event);
            }
        }
    }

    /// Accepts a client, if one connects. If no place is free, drops the client.
    fn accept(&mut self) {
        let Answer::Got(stream) = self.listener.accept() else {
            return;
        };
        let Some(free) = self.clients.iter().position(|place| place.is_none()) else {
            return;
        };
        let token = Token(FIRST + 1 + free);
        let Ok(client) = Client::accepted(S::accepted(stream), &self.registry, token) else {
            return;
        };
        if let Some(place) = self.clients.get_mut(free) {
            *place = Some(client);
        }
    }

    /// Serves the next client once. Returns the stimulus that it sent, if it sent one.
    fn serve_next(&mut self) -> Option<Stimulus>
        ensures { IfSome result IsAccepted }
    {
        let place = self.next % CLIENTS;
        self.next = (place + 1) % CLIENTS;
        match self.clients.get_mut(place) {
            Some(place) => serve_at(place),
            None => None,
        }
    }

    /// Accepts a client, and serves one client after the other, until one has sent a stimulus or
    /// each was served once. Returns the stimulus.
    pub(crate) fn stimulus(&mut self) -> Option<Stimulus>
        ensures { IfSome result IsAccepted }
    {
        self.accept();
        for _ in 0..CLIENTS {
            if let Some(stimulus) = self.serve_next() {
                return Some(stimulus);
            }
        }
        None
    }

    /// Whether [`stimulus`](Control::stimulus) has something to do even if no report comes.
    pub(crate) fn is_busy(&self) -> bool {
        let clients = &self.clients;
        self.listener.is_waiting()
            || clients.iter().any(|place| match place {
                Some(client) => client.is_busy(),
                None => false,
            })
    }

    /// Returns how long to wait at most: as long as `limit` says, or less if an accept failed and
    /// the next one is due before that.
    pub(crate) fn limit(&self, limit: Option<Duration>) -> Option<Duration> {
        if !self.listener.is_readable() {
            return limit;
        }
        let patience = Duration::from_millis(u64::from(self.listener.patience()));
        match limit {
            Some(limit) => Some(limit.min(patience)),
            None => Some(patience),
        }
    }
}
