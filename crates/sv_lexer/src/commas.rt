//! Commas outside parentheses.

ghost use Rattle.std.specs.Prelude.{◌≡◌, ◌<◌, ◌≤◌, ◌+◌, ◌++◌, [], ◌∷◌, true, false, reverse, length, slice_index_or, MatchOption};
ghost use Rattle.std.specs.List.{list_any};
ghost use Rattle.sv_lexer.specs.Token.{StandsAt};
ghost use Rattle.sv_lexer.specs.Parameters.{cut_outside, is_blank as is_blank_part, is_open as is_open_behind, part_place, parts};

use sv_text::trim;

/// Whether a parenthesis is still open at the end of the text.
pub(crate) fn is_open(text: &[u8]) -> bool
    ensures { result ≡ is_open_behind (reverse text.now) }
{
    let mut rest = text;
    while let [front @ .., last] = rest {
        match last {
            b'(' => return true,
            b')' => return false,
            _ => rest = front,
        }
    }
    false
}

/// How many parts the text has between its commas outside parentheses; `None` if one of the parts
/// is blank.
pub(crate) fn filled(text: &[u8]) -> Option<usize>
    ensures { MatchOption result (list_any is_blank_part (parts text.now) ≡ true)
        (λ count. (list_any is_blank_part (parts text.now) ≡ false)
        × (count ≡ length (parts text.now))) }
{
    if text.is_empty() {
        return Some(0);
    }
    let mut rest = text;
    let mut count = 1;
    while let (part, Some(behind)) = first_outside(rest) {
        if trim(part).is_empty() {
            return None;
        }
        count += 1;
        rest = behind;
    }
    if trim(rest).is_empty() {
        None
    } else {
        Some(count)
    }
}

/// The part with this index, counted from 0, and its position in the text; `None` if the text has
/// fewer parts. Commas outside parentheses separate the parts.
pub(crate) fn part_at(text: &[u8], index: usize) -> Option<(&[u8], usize)>
    ensures { MatchOption result (length (cut_outside [] text.now) ≤ index)
        (λ found. (index < length (cut_outside [] text.now))
        × (found.0.now ≡ slice_index_or (cut_outside [] text.now) index [])
        × (found.1 ≡ part_place index (cut_outside [] text.now))
        × StandsAt text.now found.1 found.0.now) }
{
    let mut rest = text;
    let mut place = 0;
    let mut passed = 0;
    while passed < index {
        let (part, behind) = first_outside(rest);
        rest = behind?;
        place += part.len() + 1;
        passed += 1;
    }
    Some((first_outside(rest).0, place))
}

/// The part before the first comma outside parentheses, and the text after this comma. If there is
/// no such comma: the whole text, and `None`.
fn first_outside(text: &[u8]) -> (&[u8], Option<&[u8]>)
    ensures parts { MatchOption result.1 (cut_outside [] text.now ≡ result.0.now ∷ [])
        (λ behind. cut_outside [] text.now ≡ result.0.now ∷ cut_outside [] behind.now) }
    ensures whole { MatchOption result.1 (result.0.now ≡ text.now)
        (λ behind. text.now ≡ result.0.now ++ 44 ∷ behind.now) }
    ensures shorter { MatchOption result.1 (length result.0.now ≡ length text.now)
        (λ behind. length result.0.now + 1 + length behind.now ≡ length text.now) }
{
    let mut inside = false;
    let mut place = 0;
    let mut rest = text;
    while let [byte, behind @ ..] = rest {
        match byte {
            b',' if !inside => return (&text[..place], Some(behind)),
            b'(' => inside = true,
            b')' => inside = false,
            _ => {}
        }
        place += 1;
        rest = behind;
    }
    (text, None)
}
