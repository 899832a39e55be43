//! Bytes that a writer takes, however few it takes at a time.

ghost use Rattle.std.specs.Prelude.{◌≡◌, ◌≤◌, [], length, take, decimal, MatchResult, IfOk};
ghost use Rattle.std.specs.Io.KnownBytes.{Appends};
ghost use Rattle.hex.specs.Hex.{encode_lower};
ghost use Rattle.sv_print.specs.TakenByWriter.{IsTakenByWriter};

use std::io::{ErrorKind, Write};

/// The most bytes that are converted to hexadecimal at one time.
const PIECE: usize = 128;

/// The writer failed, or took no byte.
#[derive(Clone, Copy)]
pub struct WriteFault;

/// Writes a prefix of these bytes, and returns the prefix's length; 0 if a signal interrupted the
/// write.
#[inline(always)]
fn put_some<W: Write>(writer: &mut W, bytes: &[u8]) -> Result<usize, WriteFault>
    ensures within { IfOk result (λ n. n ≤ length bytes.now) }
    ensures taken { MatchResult result
        (λ n. Appends (W.contents writer.old) (W.contents writer.new) (take n bytes.now))
        (λ fault. Appends (W.contents writer.old) (W.contents writer.new) []) }
{
    match writer.write(bytes) {
        Ok(0) => Err(WriteFault),
        Ok(count) => Ok(count),
        Err(error) => match error.kind() {
            ErrorKind::Interrupted => Ok(0),
            _ => Err(WriteFault),
        },
    }
}

/// Writes all of these bytes.
#[inline(always)]
pub(crate) fn put_bytes<W: Write>(writer: &mut W, bytes: &[u8]) -> Result<(), WriteFault>
    ensures { IsTakenByWriter (W.contents writer.old) (W.contents writer.new) result bytes.now }
{
    let mut rest = bytes;
    // The tries are counted, since a writer may be interrupted any number of times.
    for _ in 0..u64::MAX {
        if rest.is_empty() {
            return Ok(());
        }
        let count = put_some(writer, rest)?;
        rest = &rest[count..];
    }
    Err(WriteFault)
}

/// Writes at most 128 bytes as two hexadecimal digits each, in lower case.
fn put_piece<W: Write>(writer: &mut W, piece: &[u8]) -> Result<(), WriteFault>
    requires { length piece.now ≤ 128 }
    ensures { IsTakenByWriter (W.contents writer.old) (W.contents writer.new) result
        (encode_lower piece.now) }
{
    let mut digits = [0; 2 * PIECE];
    let spelled = &mut digits[..2 * piece.len()];
    let _ = hex::encode_to_slice(piece, spelled);
    put_bytes(writer, spelled)
}

/// Writes bytes as two hexadecimal digits each, in lower case.
pub(crate) fn put_hex<W: Write>(writer: &mut W, bytes: &[u8]) -> Result<(), WriteFault>
    ensures { IsTakenByWriter (W.contents writer.old) (W.contents writer.new) result
        (encode_lower bytes.now) }
{
    let mut rest = bytes;
    while !rest.is_empty() {
        let (piece, others) = rest.split_at(rest.len().min(PIECE));
        put_piece(writer, piece)?;
        rest = others;
    }
    Ok(())
}
