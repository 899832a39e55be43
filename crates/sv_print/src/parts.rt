//! Text in parts.

ghost use Rattle.std.specs.Prelude.{◌≡◌, ◌++◌, true, decimal};
ghost use Rattle.sv_print.specs.TakenByWriter.{IsTakenByWriter};
ghost use Rattle.sv_print.specs.Parts.{part_text, parts_text};
ghost use Rattle.sv_print.specs.Printed.{Prints};

use crate::writing::{WriteFault, put_bytes, put_hex};
use arrayvec::ArrayVec;
use std::io::Write;

/// The most bytes of a text that is put together before it is written.
const SHORT: usize = 128;

/// A part of a text.
#[derive(Clone, Copy)]
pub enum Part<'a> {
    /// These bytes, as they are.
    Bytes(&'a [u8]),
    /// A number, in decimal.
    Number(u64),
    /// A number, in decimal, with a minus if it is negative.
    Signed(i64),
    /// These bytes, as two hexadecimal digits each, in lower case.
    Hex(&'a [u8]),
}

/// Writes a part.
#[inline(always)]
fn put_part<W: Write>(writer: &mut W, part: Part<'_>) -> Result<(), WriteFault>
    ensures { IsTakenByWriter (W.contents writer.old) (W.contents writer.new) result
        (part_text part.entry) }
{
    match part {
        Part::Bytes(bytes) => put_bytes(writer, bytes),
        Part::Number(number) => put_bytes(writer, itoa::Buffer::new().format(number).as_bytes()),
        Part::Signed(number) => put_bytes(writer, itoa::Buffer::new().format(number).as_bytes()),
        Part::Hex(bytes) => put_hex(writer, bytes),
    }
}

/// Writes these parts, one after the other. If the writer fails, it took a prefix of their text.
///
/// # Errors
/// If the writer fails, or takes no byte.
pub fn put_parts<W: Write>(writer: &mut W, parts: &[Part<'_>]) -> Result<(), WriteFault>
    ensures { IsTakenByWriter (W.contents writer.old) (W.contents writer.new) result
        (parts_text parts.now) }
{
    for part in parts {
        put_part(writer, *part)?;
    }
    Ok(())
}

/// Appends bytes to a text, one by one, as they are few. Returns false if there is no room.
#[inline(always)]
fn append_bytes(text: &mut ArrayVec<u8, SHORT>, bytes: &[u8]) -> bool
    ensures { result ≡ true → text.new.items ≡ text.old.items ++ bytes.now }
{
    for byte in bytes {
        match text.try_push(*byte) {
            Ok(()) => {}
            Err(_full) => return false,
        }
    }
    true
}

/// Appends a part to a text. Returns false if there is no room, or if the part is hexadecimal.
#[inline(always)]
fn append(text: &mut ArrayVec<u8, SHORT>, part: Part<'_>) -> bool
    ensures { result ≡ true → text.new.items ≡ text.old.items ++ part_text part.entry }
{
    match part {
        Part::Bytes(bytes) => append_bytes(text, bytes),
        Part::Number(number) => append_bytes(text, itoa::Buffer::new().format(number).as_bytes()),
        Part::Signed(number) => append_bytes(text, itoa::Buffer::new().format(number).as_bytes()),
        Part::Hex(_) => false,
    }
}

/// Appends parts to a text. Returns false if there is no room, or if a part is hexadecimal.
#[inline(always)]
fn append_all(text: &mut ArrayVec<u8, SHORT>, parts: &[Part<'_>]) -> bool
    ensures { result ≡ true → text.new.items ≡ text.old.items ++ parts_text parts.now }
{
    for part in parts {
        if !append(text, *part) {
            return false;
        }
    }
    true
}

/// Whether one of these parts is hexadecimal.
#[inline(always)]
fn has_hex(parts: &[Part<'_>]) -> bool {
    parts.iter().any(|part| matches!(part, Part::Hex(_)))
}

/// Writes two lists of parts: a short text without hexadecimal at once, and another one part by
/// part.
fn put_together<W: Write>(
    writer: &mut W,
    first: &[Part<'_>],
    second: &[Part<'_>],
) -> Result<(), WriteFault>
    ensures { IsTakenByWriter (W.contents writer.old) (W.contents writer.new) result
        (parts_text first.now ++ parts_text second.now) }
{
    let mut text = ArrayVec::new();
    let plain = !has_hex(first) && !has_hex(second);
    if plain && append_all(&mut text, first) && append_all(&mut text, second) {
        return put_bytes(writer, text.as_slice());
    }
    put_parts(writer, first)?;
    put_parts(writer, second)
}

/// Writes two lists of parts, unless the writer has failed before (`failed`). If it fails now, it
/// took a prefix of their text, and `failed` becomes true.
pub fn put_two<W: Write>(writer: &mut W, failed: &mut bool, first: &[Part<'_>], second: &[Part<'_>])
    ensures { Prints (W.contents writer.old) failed.old (W.contents writer.new) failed.new
        (parts_text first.now ++ parts_text second.now) }
{
    if *failed {
        return;
    }
    match put_together(writer, first, second) {
        Ok(()) => {}
        Err(_fault) => *failed = true,
    }
}

/// Writes these parts, unless the writer has failed before (`failed`). If it fails now, it took a
/// prefix of their text, and `failed` becomes true.
pub fn put<W: Write>(writer: &mut W, failed: &mut bool, parts: &[Part<'_>])
    ensures { Prints (W.contents writer.old) failed.old (W.contents writer.new) failed.new
        (parts_text parts.now) }
{
    put_two(writer, failed, parts, &[])
}
