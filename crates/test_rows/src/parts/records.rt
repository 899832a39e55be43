//! Performs the acts of a test's lines on a buffer of records, and prints the answers.

use crate::parts::line::{put, put_bytes};
use crate::words::{bad, bytes_of, cut, value_of};
use std::alloc::Global;
use std::io;
use sv_rpc::RecordBuf;

/// Prints the answer of a buffer of records to an act. If the act changes the buffer, the answer is
/// how many more bytes the buffer then has room for.
pub(crate) fn put_records(
    alloc: Global,
    out: &mut String,
    records: &mut RecordBuf,
    text: &str,
) -> io::Result<()> {
    match cut(text) {
        ("push", digits) => push(records, bytes_of(alloc, digits)?.as_slice())?,
        ("zeros", count) => {
            let zeros = vec![in alloc; 0u8; value_of(count)?]?;
            push(records, zeros.as_slice())?;
        }
        ("next", "") => return put_next(alloc, out, records),
        ("drop", "") => drop_first(records)?,
        ("clear", "") => records.clear(),
        _ => return Err(bad()),
    }
    put(out, records.room())
}

/// Pushes bytes, for which there must be room.
fn push(records: &mut RecordBuf, bytes: &[u8]) -> io::Result<()> {
    if bytes.len() > records.room() {
        return Err(bad());
    }
    records.push(bytes);
    Ok(())
}

/// Drops the first record. The buffer must have a record.
fn drop_first(records: &mut RecordBuf) -> io::Result<()> {
    match records.next() {
        Ok(Some(_)) => {}
        Ok(None) | Err(_) => return Err(bad()),
    }
    records.drop_first();
    Ok(())
}

/// Prints the bytes of the next record; or `none`, if there is no record; or the fault.
fn put_next(alloc: Global, out: &mut String, records: &RecordBuf) -> io::Result<()> {
    match records.next() {
        Ok(Some(record)) => put_bytes(alloc, out, record),
        Ok(None) => Ok(out.push_str(" none")?),
        Err(fault) => put(out, fault),
    }
}
