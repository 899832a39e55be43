//! The lines of values that changed.

ghost use Rattle.std.specs.Prelude.{◌≡◌, ◌++◌, ◌∷◌, [], map, codes, decimal, if◌then◌else◌};
ghost use Rattle.std.specs.List.{concat};
ghost use Rattle.std.specs.Fmt.{signed_decimal};
ghost use Rattle.sv_print.specs.Parts.{part_text, parts_text};
ghost use Rattle.sv_print.specs.Printed.{Prints};
ghost use Rattle.sv_explain.specs.Value.{same_value, value_text};
ghost use Rattle.sv_explain.specs.Lines.{lines_of, numbers_line, numbers_text, value_line};
ghost use Rattle.sv_explain.specs.Inside.Names.{owner_text, texts_of};

use crate::text::{NOTHING, SPACE, value_parts};
use crate::value::Value;
use std::io::Write;
use sv_print::{Part, put, put_two};

/// What stands between the number of a connection and the name of its value.
const DOT: Part<'static> = Part::Bytes(b".");

/// Whose value a line shows. It stands before the value's name.
#[derive(Clone, Copy)]
pub(crate) enum Owner {
    /// The instrument's: nothing stands before the name.
    Instrument,
    /// The operation register's.
    Operation,
    /// The questionable register's.
    Questionable,
    /// The limit register's.
    Limit,
    /// A connection's.
    Conn(u8),
    /// The interrupt channel's of a connection.
    Channel(u8),
}

/// The parts of what stands before a value: a `=`, whose value it is, its name, and a space. A part
/// that isn't needed is empty.
#[inline(always)]
fn name_parts<'a>(owner: Owner, name: &'a [u8]) -> [Part<'a>; 5]
    ensures { parts_text result ≡ codes "= " ++ (owner_text owner ++ (name.now ++ 32 ∷ [])) }
{
    let name = Part::Bytes(name);
    match owner {
        Owner::Instrument => [Part::Bytes(b"= "), name, SPACE, NOTHING, NOTHING],
        Owner::Operation => [Part::Bytes(b"= oper."), name, SPACE, NOTHING, NOTHING],
        Owner::Questionable => [Part::Bytes(b"= ques."), name, SPACE, NOTHING, NOTHING],
        Owner::Limit => [Part::Bytes(b"= lim."), name, SPACE, NOTHING, NOTHING],
        Owner::Conn(conn) => [Part::Bytes(b"= c"), numbered(conn), DOT, name, SPACE],
        Owner::Channel(conn) => [Part::Bytes(b"= i"), numbered(conn), DOT, name, SPACE],
    }
}

/// The number of a connection, as a part.
#[inline(always)]
fn numbered(conn: u8) -> Part<'static>
    ensures { part_text result ≡ decimal conn }
{
    Part::Number(u64::from(conn))
}

/// Writes the line of a value.
fn put_line<W: Write>(writer: &mut W, failed: &mut bool, owner: Owner, name: &[u8], value: Value)
    ensures { Prints (W.contents writer.old) failed.old (W.contents writer.new) failed.new
        (value_line (owner_text owner ++ name.now) (value_text value)) }
{
    let (before, text) = (name_parts(owner, name), value_parts(value));
    put_two(writer, failed, &before, &text)
}

/// Writes the line of a value, if the value changed.
#[inline(always)]
fn put_value<W: Write>(
    writer: &mut W,
    failed: &mut bool,
    owner: Owner,
    name: &[u8],
    old: Value,
    new: Value,
)
    ensures { Prints (W.contents writer.old) failed.old (W.contents writer.new) failed.new
        (if same_value old new then []
        else value_line (owner_text owner ++ name.now) (value_text new)) }
{
    if !old.is_same(new) {
        put_line(writer, failed, owner, name, new)
    }
}

/// Writes the lines of those values that changed.
#[inline(always)]
pub(crate) fn put_values<W: Write>(
    writer: &mut W,
    failed: &mut bool,
    owner: Owner,
    names: &[&[u8]],
    old: &[Value],
    new: &[Value],
)
    ensures { Prints (W.contents writer.old) failed.old (W.contents writer.new) failed.new
        (lines_of (owner_text owner) (texts_of names.now) old.now new.now) }
{
    let count = names.len().min(old.len()).min(new.len());
    for index in 0..count {
        put_value(writer, failed, owner, names[index], old[index], new[index]);
    }
}

/// Writes a space and a number.
fn put_signed<W: Write>(writer: &mut W, failed: &mut bool, number: i16)
    ensures { Prints (W.contents writer.old) failed.old (W.contents writer.new) failed.new
        (32 ∷ signed_decimal number) }
{
    put(
        writer,
        failed,
        &[Part::Bytes(b" "), Part::Signed(i64::from(number))],
    )
}

/// Writes numbers, each with a space before it.
fn put_each<W: Write>(writer: &mut W, failed: &mut bool, numbers: &[i16])
    ensures { Prints (W.contents writer.old) failed.old (W.contents writer.new) failed.new
        (concat (map (λ n. 32 ∷ signed_decimal n) numbers.now)) }
{
    for number in numbers {
        put_signed(writer, failed, *number);
    }
}

/// Writes numbers, each with a space before it; ` none` without a number.
fn put_list<W: Write>(writer: &mut W, failed: &mut bool, numbers: &[i16])
    ensures { Prints (W.contents writer.old) failed.old (W.contents writer.new) failed.new
        (numbers_text numbers.now) }
{
    if numbers.is_empty() {
        put(writer, failed, &[Part::Bytes(b" none")])
    } else {
        put_each(writer, failed, numbers)
    }
}

/// Writes the line of a list of numbers, if the list changed.
pub(crate) fn put_numbers<W: Write>(
    writer: &mut W,
    failed: &mut bool,
    name: &[u8],
    old: &[i16],
    new: &[i16],
)
    ensures { Prints (W.contents writer.old) failed.old (W.contents writer.new) failed.new
        (numbers_line name.now old.now new.now) }
{
    if old != new {
        put(writer, failed, &[Part::Bytes(b"= "), Part::Bytes(name)]);
        put_list(writer, failed, new);
        put(writer, failed, &[Part::Bytes(b"\n")])
    }
}
