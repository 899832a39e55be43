//! Channel lists.

ghost use Rattle.std.specs.Prelude.{◌≡◌, ◌<◌, ◌+◌, ◌-◌, [], ◌∷◌, ◌++◌, ℕ, List, true, false, min, length, is_some, Some, None, Result, Ok, Err, MatchOption, MatchResult};
ghost use Rattle.sv_errors.specs.Limits.{longest_list};
ghost use Rattle.std.specs.Char.{is_ascii_digit};
ghost use Rattle.std.specs.List.{list_all};
ghost use Rattle.sv_errors.specs.declared.code.Code.{Code as ErrorCode};
ghost use Rattle.sv_text.specs.Cut.{cut_at};
ghost use Rattle.sv_value.specs.Channels.{inner as inner_of, list_channels as listed_behind, next, read_list, channel_range, span as ends, span_of};
ghost use Rattle.sv_value.specs.Plain.{ends_up_to, number_up_to};

use crate::digits::value_after;
use arrayvec::ArrayVec;
use sv_errors::{Code, LONGEST_LIST, is_channel};
use sv_text::{first_part, trim};

/// The first and the last channel number of an item, each capped at a bound above every channel
/// number.
#[derive(Clone, Copy)]
struct Span {
    first: u64,
    last: u64,
}

/// Reads a channel list, and returns its channels or its error.
pub(crate) fn channels_of(text: &[u8]) -> Result<ArrayVec<u8, LONGEST_LIST>, Code>
    ensures { MatchResult result (λ list. read_list text.now ≡ Ok list.items)
        (λ code. read_list text.now ≡ Err code) }
{
    match inner(text) {
        Some(items) if are_spans(items) => listed(items),
        Some(_) | None => Err(Code::InvalidExpression),
    }
}

/// Returns the text between `(@` and `)`; `None` if the text doesn't have this form.
fn inner(text: &[u8]) -> Option<&[u8]>
    ensures { MatchOption result (inner_of text.now ≡ None)
        (λ found. inner_of text.now ≡ Some found.now) }
{
    match text {
        [b'(', b'@', inner @ .., b')'] => Some(inner),
        _ => None,
    }
}

/// Whether each part between commas has the form of an item, such as `3` or `3:7`.
fn are_spans(items: &[u8]) -> bool
    ensures { result ≡ list_all (λ item. is_some (ends item)) (cut_at 44 items.now) }
{
    let mut rest = items;
    while let (item, Some(behind)) = first_part(rest, b',') {
        if ends_of(item).is_none() {
            return false;
        }
        rest = behind;
    }
    ends_of(rest).is_some()
}

/// Returns the channels of all items, or the error of the first faulty item.
fn listed(items: &[u8]) -> Result<ArrayVec<u8, LONGEST_LIST>, Code>
    ensures { MatchResult result (λ list. listed_behind [] (cut_at 44 items.now) ≡ Ok list.items)
        (λ code. listed_behind [] (cut_at 44 items.now) ≡ Err code) }
{
    let mut list = ArrayVec::new();
    let mut rest = items;
    while let (item, Some(behind)) = first_part(rest, b',') {
        add(&mut list, item)?;
        rest = behind;
    }
    add(&mut list, rest)?;
    Ok(list)
}

/// Adds the channels of an item to the list, or returns the error of the item.
fn add(list: &mut ArrayVec<u8, LONGEST_LIST>, item: &[u8]) -> Result<(), Code>
    ensures { MatchResult result
        (λ done. (others : List ℕ → Result (List ℕ) ErrorCode)
        → next (ends item.now) list.old.items others ≡ others list.new.items)
        (λ code. (others : List ℕ → Result (List ℕ) ErrorCode)
        → next (ends item.now) list.old.items others ≡ Err code) }
{
    let Some(span) = ends_of(item) else {
        return Err(Code::InvalidExpression);
    };
    if !is_channel(span.first) || !is_channel(span.last) {
        return Err(Code::DataOutOfRange);
    }
    let (first, last) = (span.first as u8, span.last as u8);
    if list.len() + usize::from(first.abs_diff(last)) >= LONGEST_LIST {
        return Err(Code::TooMuchData);
    }
    push_run(list, first, last);
    Ok(())
}

/// Appends the channels from `first` to `last`, upwards or downwards.
fn push_run(list: &mut ArrayVec<u8, LONGEST_LIST>, first: u8, last: u8)
    requires { length list.old.items + (first - last) + (last - first) < longest_list }
    ensures { list.new.items ≡ list.old.items ++ channel_range first last }
{
    let mut channel = first;
    while channel != last {
        list.push(channel);
        if channel < last {
            channel += 1;
        } else {
            channel -= 1;
        }
    }
    list.push(channel);
}

/// Returns the first and the last number of an item such as `3` or `3:7`; `None` if the text
/// doesn't have the form of an item.
fn ends_of(item: &[u8]) -> Option<Span>
    ensures { result ≡ ends_up_to (ends item.now) }
{
    match first_part(item, b':') {
        (one, None) => {
            let first = number(one)?;
            Some(Span { first, last: first })
        }
        (front, Some(back)) => two_ends(front, back),
    }
}

/// Returns the first and the last number of an item such as `3:7`, given the texts before and after
/// its first colon; `None` if these texts aren't two numbers.
fn two_ends(front: &[u8], back: &[u8]) -> Option<Span>
    ensures { result ≡ ends_up_to (span_of (front.now ∷ cut_at 58 back.now)) }
{
    match first_part(back, b':') {
        (back, None) => {
            let first = number(front)?;
            let last = number(back)?;
            Some(Span { first, last })
        }
        (_, Some(_)) => None,
    }
}

/// Returns the value of digits, with or without white space around them; `None` for any other text.
fn number(text: &[u8]) -> Option<u64>
    ensures { result ≡ number_up_to text.now }
{
    let digits = trim(text);
    if digits.is_empty() || !are_digits(digits) {
        return None;
    }
    Some(value_after(10, 0, digits))
}

/// Whether all bytes are digits.
fn are_digits(bytes: &[u8]) -> bool
    ensures { result ≡ list_all is_ascii_digit bytes.now }
{
    bytes.iter().all(|byte| byte.is_ascii_digit())
}
