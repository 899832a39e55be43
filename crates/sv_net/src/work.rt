//! Whether the next sweep has something to do even if the system reports nothing about a socket.

use crate::net::Net;
use crate::socket::Socket;
use crate::stream::Stream;
use std::alloc::Allocator;
use std::net::Net as Network;
use sv_serve::{Driver, Journal};
use sv_server::Port;

/// Whether the next sweep has something to do on a connection even if no report comes: bytes wait
/// to be sent and can be written; no bytes wait to be sent and a call can be taken; the connection
/// has input; or there is something to do on the connection's interrupt channel.
fn has_work_on<N: Network + Drop, A: Allocator, S: Stream, J: Journal + Drop>(
    driver: &Driver<Net<N, A, S>, A, J>,
    conn: u8,
) -> bool {
    let (net, server) = (driver.wire(), driver.server());
    let Some(socket) = net.socket(Port::Conn(conn)) else {
        return false;
    };
    let goes_on = if server.waiting(Port::Conn(conn)).is_empty() {
        server.ready(conn)
    } else {
        socket.is_writable()
    };
    goes_on || has_input(driver, conn, socket) || has_work_for(driver, conn)
}

/// Whether the next sweep might find input on a connection: the socket is broken; or bytes might be
/// waiting, and the connection has room for them or discards them.
fn has_input<N: Network + Drop, A: Allocator, S: Stream, J: Journal + Drop>(
    driver: &Driver<Net<N, A, S>, A, J>,
    conn: u8,
    socket: &Socket<S>,
) -> bool {
    let server = driver.server();
    socket.is_broken() || socket.is_readable() && (server.room(conn) > 0 || server.overlong(conn))
}

/// Whether the next sweep has something to do on a connection's interrupt channel even if no report
/// comes: the socket might accept bytes or have finished connecting; and bytes wait to be sent, or
/// the channel still has to be connected.
fn has_work_for<N: Network + Drop, A: Allocator, S: Stream, J: Journal + Drop>(
    driver: &Driver<Net<N, A, S>, A, J>,
    conn: u8,
) -> bool {
    let server = driver.server();
    let Some(channel) = driver.wire().socket(Port::Intr(conn)) else {
        return false;
    };
    let wanted = server.dial(conn).is_some() || !server.waiting(Port::Intr(conn)).is_empty();
    channel.is_writable() && wanted
}

/// Whether the next sweep has something to do even if no report comes: an accept is due at once, or
/// there is something to do on a connection or its interrupt channel.
pub(crate) fn has_work<N: Network + Drop, A: Allocator, S: Stream, J: Journal + Drop>(
    driver: &Driver<Net<N, A, S>, A, J>,
) -> bool {
    let connections_used = driver.server().connections_used();
    driver.wire().is_accept_due() || (0..connections_used).any(|conn| has_work_on(driver, conn))
}
