//! Performs the acts of a test's lines on the error queue and the status registers, and prints the
//! answers.

use crate::parts::codes::code_of;
use crate::parts::line::put;
use crate::words::{bad, cut, value_of};
use std::alloc::Global;
use std::io;
use sv_errors::{ErrorQueue, Layer, QueueAct, act_each};
use sv_status::{Register, RegisterAct, StandardAct, StandardEvent, StatusAct, StatusByte};

/// The act on the error queue that a text describes.
fn queue_act(text: &str) -> io::Result<QueueAct> {
    match cut(text) {
        ("report", number) => Ok(QueueAct::Report(code_of(number)?)),
        ("take", "") => Ok(QueueAct::Take),
        ("clear", "") => Ok(QueueAct::Clear),
        _ => Err(bad()),
    }
}

/// Prints the error queue's answer to an act.
pub(crate) fn put_queue(out: &mut String, queue: &mut ErrorQueue, text: &str) -> io::Result<()> {
    match text {
        "count" => put(out, queue.count()),
        _ => put(out, queue.act(queue_act(text)?)),
    }
}

/// The act on a status register that a text describes.
fn register_act(text: &str) -> io::Result<RegisterAct> {
    match cut(text) {
        ("condition", word) => Ok(RegisterAct::Condition(value_of(word)?)),
        ("filter", words) => {
            let (rise, fall) = cut(words);
            Ok(RegisterAct::SetFilter {
                rise: value_of(rise)?,
                fall: value_of(fall)?,
            })
        }
        ("read", "") => Ok(RegisterAct::ReadEvent),
        _ => Err(bad()),
    }
}

/// Prints a status register's answer to an act.
pub(crate) fn put_register(
    out: &mut String,
    register: &mut Register,
    text: &str,
) -> io::Result<()> {
    put(out, register.act(register_act(text)?))
}

/// Performs acts on the error queue or on a status register, all in one call. The acts have `, `
/// between them.
pub(crate) fn act_together(
    alloc: Global,
    queue: &mut ErrorQueue,
    register: &mut Register,
    text: &str,
) -> io::Result<()> {
    let (name, text) = cut(text);
    let (mut reports, mut changes) = (Vec::new(alloc), Vec::new(alloc));
    for act in text.split(", ") {
        match name {
            "queue" => reports.push(queue_act(act)?)?,
            "register" => changes.push(register_act(act)?)?,
            _ => return Err(bad()),
        }
    }
    act_each(queue, &reports);
    act_each(register, &changes);
    Ok(())
}

/// Prints the standard event register's answer to an act.
pub(crate) fn put_standard(
    out: &mut String,
    standard: &mut StandardEvent,
    text: &str,
) -> io::Result<()> {
    let act = match cut(text) {
        ("occur", bits) => StandardAct::Occur(value_of(bits)?),
        ("enable", bits) => StandardAct::SetEnable(value_of(bits)?),
        ("read", "") => StandardAct::Read,
        ("summary", "") => return put(out, standard.summary()),
        _ => return Err(bad()),
    };
    put(out, standard.act(act))
}

/// Prints the status byte's answer to an act.
pub(crate) fn put_status(out: &mut String, status: &mut StatusByte, text: &str) -> io::Result<()> {
    let act = match cut(text) {
        ("update", words) => {
            let (bits, enable) = cut(words);
            StatusAct::Update {
                bits: value_of(bits)?,
                enable: value_of(enable)?,
            }
        }
        ("poll", "") => StatusAct::Poll,
        ("mss", "") => return put(out, status.mss()),
        ("rqs", "") => return put(out, status.rqs()),
        _ => return Err(bad()),
    };
    put(out, status.act(act))
}
