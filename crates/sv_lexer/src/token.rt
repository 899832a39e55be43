//! The tokens of a unit.

ghost use Rattle.std.specs.Prelude.{◌≡◌, min};
ghost use Rattle.sv_lexer.specs.Token.{kind_of, in_u32};

/// The kind of data of a token, determined by its first byte.
#[derive(Clone, Copy, Debug)]
pub enum Kind {
    /// A decimal number: a digit, a sign or a point begins it.
    Number,
    /// A number in another base: `#` begins it.
    Base,
    /// Character data: a letter begins it.
    Word,
    /// An expression: `(` begins it.
    Expression,
    /// Anything else.
    Other,
}

/// The header or a parameter of a unit: a slice of the unit, with its position and its kind of
/// data.
#[derive(Clone, Copy)]
pub struct Token<'a> {
    /// The bytes of the token, without white space around them.
    pub text: &'a [u8],
    /// The position of the token in the unit, in bytes; 4,294,967,295 for every position above that
    /// number.
    pub start: u32,
    /// The kind of data, determined by the first byte of the token.
    pub kind: Kind,
}

/// The token with this text, which begins at position `place` of its unit.
pub(crate) fn token_at(text: &[u8], place: usize) -> Token<'_>
    ensures text { result.text.now ≡ text.now }
    ensures start { result.start ≡ in_u32 place }
    ensures kind { result.kind ≡ kind_of text.now }
{
    let start = u32::try_from(place).unwrap_or(u32::MAX);
    let kind = match text {
        [b'0'..=b'9' | b'+' | b'-' | b'.', ..] => Kind::Number,
        [b'#', ..] => Kind::Base,
        [b'A'..=b'Z' | b'a'..=b'z', ..] => Kind::Word,
        [b'(', ..] => Kind::Expression,
        _ => Kind::Other,
    };
    Token { text, start, kind }
}
