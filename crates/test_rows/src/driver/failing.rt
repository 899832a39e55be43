//! Plays rows of the kind `peers N`. Prints what each peer gets, and whether the peer still gets
//! every byte if one call to the wire, such as a read or a write, fails.

use super::peers::{Call, Peer, Peers};
use crate::hexadecimal::show_bytes;
use crate::words::{bad, bytes_of, number};
use std::alloc::Global;
use std::io::{self, BufWriter, Write};
use sv_serve::Driver;
use sv_server::{Config, Server};

/// In one play of a row, the driver calls each function of the wire fewer times than this.
const MOST: u64 = 1_000;

/// A row: the number of its sweeps, and a line of hexadecimal for each of its peers.
#[derive(Clone, Copy)]
struct Row<'a> {
    sweeps: u64,
    lines: &'a str,
}

/// The driver with which a row is played.
type Played = Driver<Peers, Global>;

/// The functions of the wire that are made to fail, each with the word that is printed for it.
const CALLS: [(Call, &str); 5] = [
    (Call::Accept, "accept"),
    (Call::Read, "read"),
    (Call::Write, "write"),
    (Call::Dial, "dial"),
    (Call::Dialed, "dialed"),
];

/// Makes the peers of a row. Each line has the bytes that one peer sends, in hexadecimal.
fn peers(alloc: Global, lines: &str) -> io::Result<Vec<Peer>> {
    let mut peers = Vec::new(alloc);
    for line in lines.lines() {
        peers.push(Peer::new(alloc, bytes_of(alloc, line)?))?;
    }
    Ok(peers)
}

/// Makes a driver over this wire, and lets it make this number of sweeps. A millisecond passes in
/// each sweep.
fn played(alloc: Global, sweeps: u64, wire: Peers) -> io::Result<Played> {
    let config = Config {
        core: 4096,
        abort: 4097,
        clock: 0,
    };
    let server = Server::new(alloc, config)?;
    let mut driver = Driver::new(alloc, server, wire, Vec::new(alloc))?;
    for _ in 0..sweeps {
        driver.sweep(1);
    }
    Ok(driver)
}

/// Prints the bytes that a peer got on a port, if it got any.
fn show<W: Write + Drop>(
    letter: char,
    number: usize,
    bytes: &[u8],
    writer: &mut BufWriter<W>,
) -> io::Result<()> {
    if bytes.is_empty() {
        return Ok(());
    }
    write!(writer, "{letter}{number} ")?;
    show_bytes(bytes, writer)
}

/// The word for a peer's result in a run in which one call to the wire fails: `struck` if the call
/// was for this peer; else `whole` if the peer got the same bytes as in the run without a failure;
/// else `lacks bytes`. The argument `whole` is the peer in the run without a failure.
fn outcome(peer: &Peer, whole: &Peer) -> &'static str {
    if peer.struck {
        "struck"
    } else if peer.got == whole.got && peer.called == whole.called {
        "whole"
    } else {
        "lacks bytes"
    }
}

/// Prints the result for each peer: whether a call to the wire for this peer failed; if none
/// failed, whether the peer got every byte. If the call that is to fail wasn't made, prints nothing
/// and returns false; else returns true.
fn compare<W: Write + Drop>(
    peers: &Peers,
    whole: &Peers,
    (word, left): (&str, u64),
    writer: &mut BufWriter<W>,
) -> io::Result<bool> {
    if peers.is_whole() {
        return Ok(false);
    }
    write!(writer, "{word} {left}:")?;
    for (number, (peer, other)) in peers.peers.iter().zip(&whole.peers).enumerate() {
        write!(writer, " {number} {}", outcome(peer, other))?;
    }
    writeln!(writer)?;
    Ok(true)
}

/// Plays the row. One call that the driver makes to the wire fails. Prints the result for each
/// peer. Returns whether the call that is to fail was made.
fn fail_once<W: Write + Drop>(
    alloc: Global,
    row: Row<'_>,
    (call, word): (Call, &str),
    left: u64,
    whole: &Peers,
    writer: &mut BufWriter<W>,
) -> io::Result<bool> {
    let wire = Peers::new(peers(alloc, row.lines)?, call, left);
    let driver = played(alloc, row.sweeps, wire)?;
    compare(driver.wire(), whole, (word, left), writer)
}

/// Plays the row again for each call that the driver makes to this function of the wire. In each
/// run, that call fails.
fn fail_each<W: Write + Drop>(
    alloc: Global,
    row: Row<'_>,
    kind: (Call, &str),
    whole: &Peers,
    writer: &mut BufWriter<W>,
) -> io::Result<()> {
    for left in 1..MOST {
        if !fail_once(alloc, row, kind, left, whole, writer)? {
            return Ok(());
        }
    }
    Err(bad())
}

/// Plays the row again for each call that the driver makes to any of the wire's five functions that
/// can fail. In each run, that call fails.
fn fail_all<W: Write + Drop>(
    alloc: Global,
    row: Row<'_>,
    whole: &Peers,
    writer: &mut BufWriter<W>,
) -> io::Result<()> {
    for kind in CALLS {
        fail_each(alloc, row, kind, whole, writer)?;
    }
    Ok(())
}

/// Prints what each peer gets.
fn show_each<W: Write + Drop>(peers: &Peers, writer: &mut BufWriter<W>) -> io::Result<()> {
    for (number, peer) in peers.peers.iter().enumerate() {
        show('c', number, &peer.got, writer)?;
        show('i', number, &peer.called, writer)?;
    }
    Ok(())
}

/// Plays a row of the kind `peers N`, where `sweeps` is N, the number of sweeps. Prints what each
/// peer gets. Then prints, for each call that the driver makes to the wire, the result of a run in
/// which that call fails.
pub(crate) fn play<W: Write + Drop>(
    alloc: Global,
    sweeps: &str,
    lines: &str,
    writer: &mut BufWriter<W>,
) -> io::Result<()> {
    let row = Row {
        sweeps: number(sweeps)?,
        lines,
    };
    let wire = Peers::new(peers(alloc, lines)?, Call::Accept, 0);
    let whole = played(alloc, row.sweeps, wire)?;
    report(alloc, row, whole.wire(), writer)
}

/// Prints what each peer gets. Then prints, for each call that the driver makes to the wire, the
/// result of a run in which that call fails.
fn report<W: Write + Drop>(
    alloc: Global,
    row: Row<'_>,
    whole: &Peers,
    writer: &mut BufWriter<W>,
) -> io::Result<()> {
    show_each(whole, writer)?;
    fail_all(alloc, row, whole, writer)
}
