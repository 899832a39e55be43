//! Reads and writes XDR fields, reads the headers of RPC calls, and prints the results.

use crate::parts::line::{put, put_bytes, put_text};
use crate::words::{bad, bytes_of, cut, value_of};
use std::alloc::Global;
use std::io;
use sv_rpc::{read_call, write_call};
use sv_xdr::{Reader, Writer, XdrFault};

/// Reads an XDR field. Prints the field, and how many bytes remain after it. If the kind of the
/// field is given as a number, the field is opaque data of at most that many bytes.
pub(crate) fn put_read(alloc: Global, out: &mut String, text: &str) -> io::Result<()> {
    let (kind, digits) = cut(text);
    let bytes = bytes_of(alloc, digits)?;
    let mut reader = Reader::new(bytes.as_slice());
    match kind {
        "u32" => put(out, reader.u32())?,
        "i32" => put(out, reader.i32())?,
        "boolean" => put(out, reader.boolean())?,
        most => match reader.opaque(value_of(most)?) {
            Ok(text) => put_text(out, text)?,
            Err(fault) => put(out, fault)?,
        },
    }
    put(out, reader.rest().len())
}

/// Writes an XDR field into a buffer of 12 bytes. Prints the written bytes, or the fault.
pub(crate) fn put_written(alloc: Global, out: &mut String, text: &str) -> io::Result<()> {
    let (kind, value) = cut(text);
    let mut buffer = [0xEE; 12];
    let mut writer = Writer::new(&mut buffer);
    match write_field(&mut writer, kind, value)? {
        Ok(()) => put_bytes(alloc, out, writer.text()),
        Err(fault) => put(out, fault),
    }
}

/// Writes an XDR field.
fn write_field(
    writer: &mut Writer<'_>,
    kind: &str,
    value: &str,
) -> io::Result<Result<(), XdrFault>> {
    match kind {
        "u32" => Ok(writer.u32(value_of(value)?)),
        "i32" => Ok(writer.i32(value_of(value)?)),
        "boolean" => Ok(writer.boolean(value_of(value)?)),
        "opaque" => Ok(writer.opaque(value.as_bytes())),
        _ => Err(bad()),
    }
}

/// Writes the header of an RPC call: its xid, program, version and procedure, after the room of the
/// buffer, which is at most 40 bytes. Prints the written bytes; or the fault, and how many bytes
/// were written before it.
pub(crate) fn put_header(alloc: Global, out: &mut String, text: &str) -> io::Result<()> {
    let (room, text) = cut(text);
    let (xid, program, version, procedure) = numbers(text)?;
    let mut buffer = [0xEE; 40];
    let Some(buffer) = buffer.get_mut(..value_of(room)?) else {
        return Err(bad());
    };
    let mut writer = Writer::new(buffer);
    match write_call(&mut writer, xid, program, version, procedure) {
        Ok(()) => put_bytes(alloc, out, writer.text()),
        Err(fault) => {
            put(out, fault)?;
            put(out, writer.written())
        }
    }
}

/// Reads four numbers.
fn numbers(text: &str) -> io::Result<(u32, u32, u32, u32)> {
    let (first, text) = cut(text);
    let (second, text) = cut(text);
    let (third, fourth) = cut(text);
    Ok((
        value_of(first)?,
        value_of(second)?,
        value_of(third)?,
        value_of(fourth)?,
    ))
}

/// Reads the header of an RPC call, and prints the header or the fault.
pub(crate) fn put_call(alloc: Global, out: &mut String, text: &str) -> io::Result<()> {
    let bytes = bytes_of(alloc, text)?;
    put(out, read_call(bytes.as_slice()))
}
