//! The text of a value, to the end of its line.

ghost use Rattle.std.specs.Prelude.{◌++◌, ◌∷◌, [], decimal};
ghost use Rattle.std.specs.Option.{option_map_or};
ghost use Rattle.std.specs.Prelude.{◌≡◌};
ghost use Rattle.sv_print.specs.Parts.{part_text, parts_text};
ghost use Rattle.sv_explain.specs.declared.value.Value.TheVariants.{Call};
ghost use Rattle.sv_explain.specs.Value.{value_text};

use crate::value::{Value, Word};
use sv_print::Part;

/// A part that isn't needed.
pub(crate) const NOTHING: Part<'static> = Part::Bytes(b"");

/// What stands between two parts.
pub(crate) const SPACE: Part<'static> = Part::Bytes(b" ");

/// What ends a line.
const END: Part<'static> = Part::Bytes(b"\n");

/// The parts of the text of a value, and the end of its line. A part that isn't needed is empty.
#[inline(always)]
pub(crate) fn value_parts(value: Value) -> [Part<'static>; 6]
    ensures { parts_text result ≡ value_text value ++ 10 ∷ [] }
{
    match value {
        Value::Number(number) => alone(Part::Number(number)),
        Value::Voltage(microvolts) => alone(Part::Signed(microvolts)),
        Value::Word(word) => alone(Part::Bytes(word.text())),
        Value::Share(done, whole) => share(done, whole),
        Value::Call(what, lid, deadline) => waiting(what, lid, deadline),
        Value::Reading(number, channel, microvolts) => {
            reading(number, channel, Part::Signed(microvolts))
        }
        Value::Overload(number, channel, word) => {
            reading(number, channel, Part::Bytes(word.text()))
        }
    }
}

/// A part, and the end of its line.
#[inline(always)]
fn alone(part: Part<'static>) -> [Part<'static>; 6]
    ensures { parts_text result ≡ part_text part.entry ++ 10 ∷ [] }
{
    [part, END, NOTHING, NOTHING, NOTHING, NOTHING]
}

/// So many of so many.
#[inline(always)]
fn share(done: u8, whole: u8) -> [Part<'static>; 6]
    ensures { parts_text result ≡ (decimal done ++ 32 ∷ decimal whole) ++ 10 ∷ [] }
{
    let (done, whole) = (
        Part::Number(u64::from(done)),
        Part::Number(u64::from(whole)),
    );
    [done, SPACE, whole, END, NOTHING, NOTHING]
}

/// A suspended call: what it waits for, the link that it names, and when it times out.
#[inline(always)]
fn waiting(what: Word, lid: Option<u64>, deadline: Option<u64>) -> [Part<'static>; 6]
    ensures { parts_text result ≡ value_text (Call what lid deadline) ++ 10 ∷ [] }
{
    let (lid, deadline) = (number_or(b"none", lid), number_or(b"never", deadline));
    [Part::Bytes(what.text()), SPACE, lid, SPACE, deadline, END]
}

/// A reading: its number, its channel, and its value.
#[inline(always)]
fn reading(number: u16, channel: u8, value: Part<'static>) -> [Part<'static>; 6]
    ensures { parts_text result
        ≡ (decimal number ++ 32 ∷ (decimal channel ++ 32 ∷ part_text value.entry)) ++ 10 ∷ [] }
{
    let (number, channel) = (
        Part::Number(u64::from(number)),
        Part::Number(u64::from(channel)),
    );
    [number, SPACE, channel, SPACE, value, END]
}

/// A number in decimal; else these bytes.
fn number_or(none: &'static [u8], number: Option<u64>) -> Part<'static>
    ensures { part_text result ≡ option_map_or decimal number none.now }
{
    match number {
        Some(number) => Part::Number(number),
        None => Part::Bytes(none),
    }
}
