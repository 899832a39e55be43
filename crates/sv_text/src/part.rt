//! The parts between separators.

ghost use Rattle.std.specs.Prelude.{◌≡◌, ◌+◌, [], ◌∷◌, ◌++◌, length, MatchOption};
ghost use Rattle.sv_text.specs.Cut.{cut_at};

use crate::place::place_of;

/// The part before the first separator, and the bytes after this separator. If there is no
/// separator: all bytes, and `None`.
pub fn first_part(bytes: &[u8], separator: u8) -> (&[u8], Option<&[u8]>)
    ensures parts { MatchOption result.1 (cut_at separator bytes.now ≡ result.0.now ∷ [])
        (λ behind. cut_at separator bytes.now ≡ result.0.now ∷ cut_at separator behind.now) }
    ensures whole { MatchOption result.1 (result.0.now ≡ bytes.now)
        (λ behind. bytes.now ≡ result.0.now ++ separator ∷ behind.now) }
    ensures shorter { MatchOption result.1 (length result.0.now ≡ length bytes.now)
        (λ behind. length result.0.now + 1 + length behind.now ≡ length bytes.now) }
{
    let size = place_of(bytes, separator);
    if size < bytes.len() {
        (&bytes[..size], Some(&bytes[size + 1..]))
    } else {
        (bytes, None)
    }
}
