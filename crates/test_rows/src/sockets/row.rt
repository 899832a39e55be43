//! Plays a row: makes a server with the row's scenario, and executes the row's other lines.

use crate::hexadecimal::show_bytes;
use crate::sockets::peer::Peer;
use crate::sockets::pouring::{is_in_order, pour};
use crate::sockets::stage::{CONTROL, PORTS, Stage};
use crate::words::{bad, bytes_of, cut, value_of};
use std::alloc::Global;
use std::io::{self, BufWriter, Write};
use std::net::{Ipv4Addr, SocketAddr, SocketAddrV4};

/// How many sweeps the server makes for a line `a silent`, while nothing may come to peer a.
const SILENCE: u32 = 20;
/// How many sweeps the server makes for a line `a refused`, before the peer looks.
const REFUSAL: u32 = 2;
/// How many bytes of the first reply are printed when a peer drains many replies.
const SHOWN: usize = 64;

/// Reads bytes from hexadecimal digits, which may have blanks between them.
fn spaced_bytes(alloc: Global, text: &str) -> io::Result<Vec<u8>> {
    let mut digits = String::new(alloc);
    for word in text.split(' ') {
        digits.push_str(word)?;
    }
    bytes_of(alloc, digits.as_str())
}

/// The letter of a peer.
fn letter(text: &str) -> io::Result<char> {
    match text.chars().next() {
        Some(letter) => Ok(letter),
        None => Err(bad()),
    }
}

/// The word for a yes-or-no result: `yes` or `no`.
fn word(so: bool) -> &'static str {
    if so { "yes" } else { "no" }
}

/// Executes lines of the row.
fn run_steps<W: Write + Drop>(
    stage: &mut Stage,
    lines: &str,
    writer: &mut BufWriter<W>,
) -> io::Result<()> {
    for line in lines.lines() {
        step(stage, line, writer)?;
    }
    Ok(())
}

/// Plays a row. Prints the results of its lines.
pub(crate) fn play<W: Write + Drop>(
    rt: HostRuntime,
    lines: &str,
    writer: &mut BufWriter<W>,
) -> io::Result<()> {
    let (scenario, steps) = lines.split_once("\n\n").unwrap_or(("", lines));
    let mut stage = Stage::new(rt, scenario)?;
    run_steps(&mut stage, steps, writer)
}

/// Executes a line of the row, and prints the line's result, if it has one.
fn step<W: Write + Drop>(
    stage: &mut Stage,
    line: &str,
    writer: &mut BufWriter<W>,
) -> io::Result<()> {
    let (first, behind) = cut(line);
    match first {
        "" => Ok(()),
        "start" => stage.begin(),
        "control" => stage.open_control(),
        "passed" => {
            let so = stage.passed()? >= value_of::<u128>(behind)?;
            writeln!(writer, "{line}: {}", word(so))
        }
        "sleep" => stage.serve(value_of(behind)?),
        "sweeps" => {
            stage.sweeps = value_of(behind)?;
            Ok(())
        }
        _ => do_as(stage, letter(first)?, behind, writer),
    }
}

/// Executes a line that begins with the letter `name` of a peer.
fn do_as<W: Write + Drop>(
    stage: &mut Stage,
    name: char,
    line: &str,
    writer: &mut BufWriter<W>,
) -> io::Result<()> {
    let (verb, text) = cut(line);
    match verb {
        "core" => connect(stage, name, local(PORTS[0])),
        "abort" => connect(stage, name, local(PORTS[1])),
        "portmap" => connect(stage, name, local(PORTS[2])),
        "controls" => connect(stage, name, local(CONTROL)),
        "calls" => connect(stage, name, value_of(text)?),
        "listens" => listen(stage, name, text),
        "accepts" => stage.accept(name),
        "closes" => Ok(stage.peer(name)?.close()),
        "<" => send(stage, name, text),
        _ => show_of(stage, name, (verb, text), writer),
    }
}

/// The address of a port of 127.0.0.1.
fn local(port: u16) -> SocketAddr {
    SocketAddr::V4(SocketAddrV4::new(Ipv4Addr::LOCALHOST, port))
}

/// Makes a peer that connects to an address and port.
fn connect(stage: &mut Stage, name: char, addr: SocketAddr) -> io::Result<()> {
    let peer = Peer::connect(stage.rt, name, addr)?;
    Ok(stage.peers.push(peer)?)
}

/// Makes a peer that listens on an address and port.
fn listen(stage: &mut Stage, name: char, text: &str) -> io::Result<()> {
    let peer = Peer::listen(stage.rt, name, value_of(text)?)?;
    Ok(stage.peers.push(peer)?)
}

/// Appends bytes to those that a peer still has to send.
fn send(stage: &mut Stage, name: char, text: &str) -> io::Result<()> {
    let bytes = spaced_bytes(stage.rt.alloc(), text)?;
    let peer = stage.peer(name)?;
    peer.unsent.extend_from_slice(&bytes)?;
    peer.send()?;
    Ok(())
}

/// Executes a line that has a result, and prints the result. The line begins with `name`, the
/// letter of a peer.
fn show_of<W: Write + Drop>(
    stage: &mut Stage,
    name: char,
    (verb, text): (&str, &str),
    writer: &mut BufWriter<W>,
) -> io::Result<()> {
    let so = match verb {
        ">" => return show_came(stage, name, text, writer),
        "drains" => return drain(stage, name, text, writer),
        "before" => return compare(stage, (name, letter(text)?), writer),
        "ends" => ends(stage, name)?,
        "refused" => is_refused(stage, name)?,
        "silent" => is_silent(stage, name)?,
        "pours" => pours(stage, name, text)?,
        _ => return Err(bad()),
    };
    writeln!(writer, "{name} {verb}: {}", word(so))
}

/// Prints whether the peer `first` gets its next bytes no later than the peer `second`.
fn compare<W: Write + Drop>(
    stage: &mut Stage,
    (first, second): (char, char),
    writer: &mut BufWriter<W>,
) -> io::Result<()> {
    let so = stage.is_first(first, second)?;
    writeln!(writer, "{first} before {second}: {}", word(so))
}

/// Waits until this number of bytes has come to a peer, and prints them.
fn show_came<W: Write + Drop>(
    stage: &mut Stage,
    name: char,
    text: &str,
    writer: &mut BufWriter<W>,
) -> io::Result<()> {
    let count = value_of(text)?;
    stage.wait_for(name, count)?;
    let peer = stage.peer(name)?;
    write!(writer, "{name} ")?;
    show_bytes(peer.came.get(..count).unwrap_or(&peer.came), writer)?;
    let count = count.min(peer.came.len());
    peer.came.drain(..count);
    Ok(())
}

/// Whether a peer's stream ends before any further byte comes.
fn ends(stage: &mut Stage, name: char) -> io::Result<bool> {
    stage.wait_for(name, 1)?;
    let peer = stage.peer(name)?;
    Ok(peer.ended && peer.came.is_empty())
}

/// Whether a peer that tried to connect was refused.
fn is_refused(stage: &mut Stage, name: char) -> io::Result<bool> {
    stage.serve(REFUSAL)?;
    let peer = stage.peer(name)?;
    peer.hear()?;
    Ok(peer.refused)
}

/// Whether nothing comes to a peer during the next 20 sweeps, not even the end of its stream.
fn is_silent(stage: &mut Stage, name: char) -> io::Result<bool> {
    stage.serve(SILENCE)?;
    let peer = stage.peer(name)?;
    peer.hear()?;
    Ok(!peer.ended && peer.came.is_empty())
}

/// Lets a peer send calls many times, or until the sockets are full. Returns whether the sockets
/// got full.
fn pours(stage: &mut Stage, name: char, text: &str) -> io::Result<bool> {
    let (count, calls) = cut(text);
    let calls = spaced_bytes(stage.rt.alloc(), calls)?;
    pour(stage, name, &calls, value_of(count)?)
}

/// Receives a number of replies of equal length on a peer's stream. Prints how the first reply
/// begins, and whether all replies came in the order of their calls.
fn drain<W: Write + Drop>(
    stage: &mut Stage,
    name: char,
    text: &str,
    writer: &mut BufWriter<W>,
) -> io::Result<()> {
    let (count, length) = cut(text);
    let (count, length) = (value_of::<u32>(count)?, value_of::<usize>(length)?);
    stage.wait_for(name, (count as usize).saturating_mul(length))?;
    let so = is_in_order(stage, name, count)?;
    let peer = stage.peer(name)?;
    write!(
        writer,
        "{name} drains {}, in order: {}, ",
        peer.came.len(),
        word(so)
    )?;
    show_bytes(peer.came.get(..SHOWN).unwrap_or(&[]), writer)?;
    peer.came.clear();
    Ok(())
}
