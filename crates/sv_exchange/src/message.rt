//! Where a program message ends.

ghost use Rattle.std.specs.Prelude.{◌≡◌, ◌≤◌, ◌&&◌, ◌||◌, length};
ghost use Rattle.sv_exchange.specs.Fields.{first_size, second_at, has_line};

use sv_text::place_of;

/// Where the first message of some text ends.
#[derive(Clone, Copy)]
pub(crate) struct Cut {
    /// How many bytes the first message has, without the new line that ends it.
    pub(crate) size: usize,
    /// Where the second message begins.
    pub(crate) next_start: usize,
    /// Whether the first message has ended.
    pub(crate) ended: bool,
    /// Whether END comes after the text that follows the first message.
    pub(crate) end_pending: bool,
}

/// Finds the first message of `bytes`. A message ends at a new line or at END (IEEE 488.2, 7.5).
/// END comes with the last byte if `end_pending` is true.
pub(crate) fn first_message(bytes: &[u8], end_pending: bool) -> Cut
    ensures size { result.size ≡ first_size bytes.now }
    ensures next_start { result.next_start ≡ second_at bytes.now }
    ensures ended { result.ended ≡ (has_line bytes.now || end_pending) }
    ensures end_pending { result.end_pending ≡ (has_line bytes.now && end_pending) }
    ensures order { (result.size ≤ result.next_start) × (result.next_start ≤ length bytes.now) }
{
    let size = place_of(bytes, b'\n');
    if size < bytes.len() {
        Cut {
            size,
            next_start: size + 1,
            ended: true,
            end_pending,
        }
    } else {
        Cut {
            size,
            next_start: size,
            ended: end_pending,
            end_pending: false,
        }
    }
}
