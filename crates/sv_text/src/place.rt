//! The first position of a byte in text.

ghost use Rattle.std.specs.Prelude.{◌≡◌, ◌==◌, ◌≤◌, length};
ghost use Rattle.std.specs.List.{position_or_len};

/// The index of the first byte that equals `byte`; the length of `bytes` if no byte does.
pub fn place_of(bytes: &[u8], byte: u8) -> usize
    ensures value { result ≡ position_or_len (λ b. b == byte) bytes.now }
    ensures within { result ≤ length bytes.now }
{
    bytes
        .iter()
        .position(|other| *other == byte)
        .unwrap_or(bytes.len())
}
