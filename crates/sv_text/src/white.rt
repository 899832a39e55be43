//! White space around text.

ghost use Rattle.std.specs.Prelude.{◌≡◌};
ghost use Rattle.sv_text.specs.White.{is_white, trim as trimmed, trim_end, trim_start};

/// The bytes without white space at both ends.
pub fn trim(bytes: &[u8]) -> &[u8]
    ensures { result.now ≡ trimmed bytes.now }
{
    without_end(without_start(bytes))
}

/// The bytes without white space in front.
pub fn without_start(bytes: &[u8]) -> &[u8]
    ensures { result.now ≡ trim_start bytes.now }
{
    let mut rest = bytes;
    while let [first, behind @ ..] = rest {
        if !is_space(*first) {
            break;
        }
        rest = behind;
    }
    rest
}

/// The bytes without white space at the end.
pub fn without_end(bytes: &[u8]) -> &[u8]
    ensures { result.now ≡ trim_end bytes.now }
{
    let mut rest = bytes;
    while let [front @ .., last] = rest {
        if !is_space(*last) {
            break;
        }
        rest = front;
    }
    rest
}

/// Whether a byte is white space: 0 to 9 or 11 to 32 (IEEE 488.2, 7.4.1.2).
pub fn is_space(byte: u8) -> bool
    ensures { result ≡ is_white byte }
{
    byte < 33 && byte != b'\n'
}
