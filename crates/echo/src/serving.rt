//! Serves a port: accepts connections, and sends back the bytes that come.

use crate::connection::Connection;
use mio::net::TcpListener;
use mio::{Events, Interest, Poll, Registry, Token};
use std::alloc::{AllocError, Global};
use std::io;
use std::net::{Ipv4Addr, SocketAddr, SocketAddrV4};
use std::time::{Duration, Instant};
use sv_pace::{FEW, Pace, STILL};

/// How many connections there may be.
const CONNECTIONS: usize = 16;

/// Accepts the connections that have come, as long as fewer than 16 connections are open.
fn accept(
    listener: &TcpListener,
    poll: &Poll,
    connections: &mut Vec<Option<Connection>, Global>,
) -> io::Result<()> {
    for number in 0..connections.len() {
        let Some(place) = connections.get_mut(number) else {
            return Ok(());
        };
        if place.is_none() {
            let Ok((stream, _)) = listener.accept() else {
                return Ok(());
            };
            *place = Some(Connection::new(stream, poll.registry(), Token(number))?);
        }
    }
    Ok(())
}

/// Makes one read on the connection with this number, and sends the bytes back. Drops the
/// connection if it has to be closed.
fn echo(connections: &mut Vec<Option<Connection>, Global>, number: usize, buffer: &mut [u8]) {
    let Some(place) = connections.get_mut(number) else {
        return;
    };
    let stays = match place {
        Some(connection) => connection.echo(buffer),
        None => true,
    };
    if !stays {
        *place = None;
    }
}

/// Makes the places of the connections. No place has a connection yet.
fn no_connections(alloc: Global) -> Result<Vec<Option<Connection>, Global>, AllocError> {
    let mut connections = Vec::with_capacity(alloc, CONNECTIONS)?;
    for _ in 0..CONNECTIONS {
        connections.push(None)?;
    }
    Ok(connections)
}

/// Listens on a port, and registers the socket for the system's reports.
fn listener(rt: &HostRuntime, port: u16, registry: &Registry) -> io::Result<TcpListener> {
    let addr = SocketAddr::V4(SocketAddrV4::new(Ipv4Addr::LOCALHOST, port));
    let mut listener = TcpListener::bind(rt, addr)?;
    registry.register(&mut listener, Token(CONNECTIONS), Interest::READABLE)?;
    Ok(listener)
}

/// The state of the echo server.
#[derive(Drop)]
struct Served {
    poll: Poll,
    events: Events<Global>,
    listener: TcpListener,
    connections: Vec<Option<Connection>, Global>,
    buffer: Vec<u8, Global>,
}

impl Served {
    /// Listens on a port.
    fn listen(rt: &HostRuntime, port: u16) -> io::Result<Served> {
        let connections = no_connections(rt.alloc())?;
        let buffer = vec![in rt.alloc(); 0; 16_384]?;
        let events = Events::with_capacity(rt.alloc(), 64)?;
        let poll = Poll::new(rt)?;
        let listener = listener(rt, port, poll.registry())?;
        Ok(Served {
            poll,
            events,
            listener,
            connections,
            buffer,
        })
    }

    /// Polls once. The poll waits at most for the time `limit`. If `limit` is `None`, only an event
    /// ends the poll. Accepts connections, and sends back the bytes that came. Returns whether the
    /// poll reported anything.
    fn spin(&mut self, limit: Option<Duration>) -> io::Result<bool> {
        self.poll.poll(&mut self.events, limit)?;
        for event in self.events.iter() {
            let Token(number) = event.token();
            if number == CONNECTIONS {
                accept(&self.listener, &self.poll, &mut self.connections)?;
            } else {
                echo(&mut self.connections, number, &mut self.buffer);
            }
        }
        Ok(!self.events.is_empty())
    }
}

/// Listens on a port, and makes this number of polls.
pub(crate) fn serve(rt: &HostRuntime, port: u16, looks: u32) -> io::Result<()> {
    let mut served = Served::listen(rt, port)?;
    run(rt, &mut served, port, looks)
}

/// Prints `ready` and the port, and makes this number of polls.
fn run(rt: &HostRuntime, served: &mut Served, port: u16, looks: u32) -> io::Result<()> {
    println!(rt; "ready {port}")?;
    let start = Instant::now(rt)?;
    let mut pace = Pace::new();
    let mut tries = 0u32;
    for made in 0..looks {
        let now = start.elapsed(rt)?.as_nanos().min(u128::from(u64::MAX)) as u64;
        let _ = pace.ticks(now);
        let spinning = pace.is_spinning(now);
        let limit = if spinning {
            Some(Duration::ZERO)
        } else {
            sleep_time(&pace, now, looks - made)
        };
        let came = served.spin(limit)?;
        tries = keep(&mut pace, now, tries, spinning, came);
    }
    Ok(())
}

/// Returns how long the next poll may sleep if `left` polls remain. `None` means that there is no
/// limit: more than `FEW` polls remain.
fn sleep_time(pace: &Pace, now: u64, left: u32) -> Option<Duration> {
    if left > FEW {
        return None;
    }
    Some(Duration::from_nanos(pace.sleep_time(now, STILL)))
}

/// Records the result of a poll: `came` says whether the poll found something. Returns how many
/// polls without sleep have found nothing since the last wait ended.
fn keep(pace: &mut Pace, now: u64, tries: u32, spinning: bool, came: bool) -> u32 {
    if came {
        pace.work(now);
    }
    if spinning && !came {
        return tries.saturating_add(1);
    }
    pace.end(tries, spinning);
    0
}
