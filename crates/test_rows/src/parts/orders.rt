//! Prints what the units of a message ask for.

use crate::parts::line::put;
use bstr::ByteVec;
use std::alloc::{AllocError, Global};
use std::io;
use sv_errors::Code;
use sv_header::{Path, Table};
use sv_instrument::{Order, read_unit};
use sv_layers::{RegisterChange, StatusChange};
use sv_lexer::unit;
use sv_scan::{ScanList, Setting};
use sv_status::RegisterName;

/// Prints what each unit of a message asks for, or the unit's first fault.
pub(crate) fn put_orders(
    alloc: Global,
    out: &mut String,
    table: &Table,
    text: &str,
) -> io::Result<()> {
    let mut path = Path::root();
    for part in text.split(';') {
        put_part(alloc, out, table, &mut path, part)?;
    }
    Ok(())
}

/// Prints what a unit asks for, or the unit's first fault. `path` is the path that the units before
/// it left.
fn put_part(
    alloc: Global,
    out: &mut String,
    table: &Table,
    path: &mut Path,
    text: &str,
) -> io::Result<()> {
    let bytes = Vec::unescape_bytes(alloc, text)?;
    let order = read_unit(table, path, unit(bytes.as_slice()));
    put_order(out, &order)
}

/// Prints the order that a unit gives to the instrument, or the unit's fault.
fn put_order(out: &mut String, order: &Result<Order, Code>) -> io::Result<()> {
    match order {
        Ok(order) => Ok(put_given(out, order)?),
        Err(code) => put(out, Err::<(), Code>(*code)),
    }
}

/// Prints an order.
fn put_given(out: &mut String, order: &Order) -> Result<(), AllocError> {
    match order {
        Order::Do(action) => write!(out, " Ok(Do({action:?}))"),
        Order::Ask(question) => write!(out, " Ok(Ask({question:?}))"),
        Order::Set(setting) => put_setting(out, setting),
        Order::Configure(list) => put_list(out, "Configure", list),
        Order::Measure(list) => put_list(out, "Measure", list),
        Order::Apply(change) => put_change(out, *change),
    }
}

/// Prints an order that changes a setting.
fn put_setting(out: &mut String, setting: &Setting) -> Result<(), AllocError> {
    match setting {
        Setting::List(list) => write!(out, " Ok(Set(List({:?})))", list.channels()),
        Setting::Monitor(channel) => write!(out, " Ok(Set(Monitor({channel})))"),
        Setting::Range(microvolts) => write!(out, " Ok(Set(Range({microvolts})))"),
        Setting::Upper(microvolts) => write!(out, " Ok(Set(Upper({microvolts})))"),
        Setting::Lower(microvolts) => write!(out, " Ok(Set(Lower({microvolts})))"),
        Setting::Limits(on) => write!(out, " Ok(Set(Limits({on})))"),
        Setting::Source(source) => write!(out, " Ok(Set(Source({source:?})))"),
        Setting::Count(count) => write!(out, " Ok(Set(Count({count})))"),
    }
}

/// Prints an order that may have a list of channels. `word` is the order's name.
fn put_list(out: &mut String, word: &str, list: &Option<ScanList>) -> Result<(), AllocError> {
    match list {
        Some(list) => write!(out, " Ok({word}(Some({:?})))", list.channels()),
        None => write!(out, " Ok({word}(None))"),
    }
}

/// Prints an order that changes the status.
fn put_change(out: &mut String, change: StatusChange) -> Result<(), AllocError> {
    match change {
        StatusChange::ReadStandard => write!(out, " Ok(ReadStandard)"),
        StatusChange::EnableStandard(mask) => put_mask(out, "EnableStandard", mask),
        StatusChange::EnableService(mask) => put_mask(out, "EnableService", mask),
        StatusChange::Register(name, change) => put_register(out, name, change),
    }
}

/// Prints an order that changes a status register.
fn put_register(
    out: &mut String,
    name: RegisterName,
    change: RegisterChange,
) -> Result<(), AllocError> {
    match change {
        RegisterChange::ReadEvents => write!(out, " Ok(ReadEvents({name:?}))"),
        RegisterChange::Enable(mask) => put_filter(out, "Enable", name, mask),
        RegisterChange::SetRise(mask) => put_filter(out, "SetRise", name, mask),
        RegisterChange::SetFall(mask) => put_filter(out, "SetFall", name, mask),
    }
}

/// Prints an order that sets an enable mask. `word` is the order's name.
fn put_mask(out: &mut String, word: &str, mask: u8) -> Result<(), AllocError> {
    write!(out, " Ok({word}({mask}))")
}

/// Prints an order that sets a mask of a status register. `word` is the order's name.
fn put_filter(
    out: &mut String,
    word: &str,
    name: RegisterName,
    mask: u16,
) -> Result<(), AllocError> {
    write!(out, " Ok({word}({name:?}, {mask}))")
}
