//! Sends calls without reading any reply, until the sockets are full.

use crate::sockets::stage::Stage;
use crate::words::bad;
use std::alloc::Global;
use std::io;

/// The sockets count as full after this many successive tries that sent no byte while bytes waited
/// in the server.
const STILL: u32 = 20;
/// The most tries to send that one `pours` line makes.
const TRIES: u32 = 100_000;

/// Numbers calls or replies from 1 on. Each call or reply is a record of one fragment. Its number
/// replaces its xid, right after the record mark (RFC 5531, sections 9 and 11).
fn number_records(records: &mut Vec<u8>) -> io::Result<()> {
    let (mut place, mut number) = (0usize, 0u32);
    for _ in 0..records.len() {
        let Some(mark) = records.get(place..).unwrap_or(&[]).first_chunk::<4>() else {
            return Ok(());
        };
        let length = u32::from_be_bytes(*mark) & 0x7FFF_FFFF;
        let start = place.saturating_add(4);
        let all = records.as_mut_slice();
        let Some(place_of_number) = all.get_mut(start..start.saturating_add(4)) else {
            return Err(bad());
        };
        number = number.saturating_add(1);
        place_of_number.copy_from_slice(&number.to_be_bytes());
        place = start.saturating_add(length as usize);
    }
    Ok(())
}

/// Returns `count` copies of `records`, one after the other. Numbers all calls in the copies from 1
/// on.
fn repeated(alloc: Global, records: &[u8], count: u32) -> io::Result<Vec<u8>> {
    let mut all = Vec::new(alloc);
    for _ in 0..count {
        all.extend_from_slice(records)?;
    }
    number_records(&mut all)?;
    Ok(all)
}

/// Lets a peer send these calls `count` times, or until the sockets are full. The peer reads no
/// reply. Returns whether the sockets got full, so that bytes wait in the server.
pub(crate) fn pour(stage: &mut Stage, name: char, calls: &[u8], count: u32) -> io::Result<bool> {
    let calls = repeated(stage.rt.alloc(), calls, count)?;
    stage.peer(name)?.unsent.extend_from_slice(&calls)?;
    let mut still = 0u32;
    for _ in 0..TRIES {
        let moved = stage.peer(name)?.send()?;
        stage.serve(1)?;
        still = if moved == 0 && stage.waits() {
            still.saturating_add(1)
        } else {
            0
        };
        if still >= STILL {
            return Ok(true);
        }
    }
    Ok(false)
}

/// Whether the bytes that came to a peer are the same reply `count` times, with xids that count up
/// from 1.
pub(crate) fn is_in_order(stage: &mut Stage, name: char, count: u32) -> io::Result<bool> {
    let alloc = stage.rt.alloc();
    let peer = stage.peer(name)?;
    let length = peer.came.len().checked_div(count as usize).unwrap_or(0);
    let all = repeated(alloc, peer.came.get(..length).unwrap_or(&[]), count)?;
    Ok(all.as_slice() == peer.came.as_slice())
}
