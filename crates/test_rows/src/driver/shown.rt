//! Prints the calls that a driver makes to its wire, one on each line.

use crate::hexadecimal::show_bytes;
use std::io::{self, BufWriter, Write};
use sv_recording::Call;
use sv_server::{Port, Role};

/// The word for a role.
pub(crate) fn word(role: Role) -> &'static str {
    match role {
        Role::Core => "core",
        Role::Abort => "abort",
        Role::Portmap => "portmap",
    }
}

/// The letter and the number of a port.
pub(crate) fn name(port: Port) -> (char, u8) {
    match port {
        Port::Conn(conn) => ('c', conn),
        Port::Intr(conn) => ('i', conn),
    }
}

/// Prints a port, and the bytes that the driver asked the wire to write on this port.
fn show_written<W: Write + Drop>(
    port: Port,
    bytes: &[u8],
    writer: &mut BufWriter<W>,
) -> io::Result<()> {
    let (letter, number) = name(port);
    write!(writer, "write {letter}{number} ")?;
    show_bytes(bytes, writer)
}

/// Prints a call that the driver made to the wire.
pub(crate) fn show<W: Write + Drop>(call: &Call, writer: &mut BufWriter<W>) -> io::Result<()> {
    match call {
        Call::Accept { role, conn, .. } => match conn {
            Some(conn) => show_asked(word(*role), *conn, "", writer),
            None => writeln!(writer, "{} -", word(*role)),
        },
        Call::Read { conn, .. } => show_asked("read", *conn, "", writer),
        Call::Probe { conn, drops, .. } => {
            show_asked("probe", *conn, if *drops { " drops" } else { "" }, writer)
        }
        Call::Write { port, bytes, .. } => show_written(*port, bytes, writer),
        Call::Dial { conn, dial, .. } => {
            let (addr, port) = (dial.addr, dial.port);
            writeln!(writer, "dial {conn} {addr:08x}:{port}")
        }
        Call::Dialed { conn, .. } => show_asked("dialed", *conn, "", writer),
        Call::Close { port } => {
            let (letter, number) = name(*port);
            writeln!(writer, "close {letter}{number}")
        }
    }
}

/// Prints a call about a connection: its word, the connection, and what the wire answered.
fn show_asked<W: Write + Drop>(
    word: &str,
    conn: u8,
    answer: &str,
    writer: &mut BufWriter<W>,
) -> io::Result<()> {
    writeln!(writer, "{word} {conn}{answer}")
}
