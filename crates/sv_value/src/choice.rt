//! Character data: booleans and sources of triggers.

ghost use Rattle.std.specs.Prelude.{◌≡◌, IsTrue};
ghost use Rattle.std.specs.List.{list_all};
ghost use Rattle.sv_lexer.specs.Spelled.{is_word_byte};
ghost use Rattle.std.specs.Str.{str_eq_ignore_ascii_case};
ghost use Rattle.sv_value.specs.Choice.{read_keyword, read_switch};

use sv_errors::{Code, Source};

/// Returns the source of triggers that a word names, or the error.
pub(crate) fn keyword_of(text: &[u8]) -> Result<Source, Code>
    ensures { result ≡ read_keyword text.now }
{
    if !is_word(text) {
        return Err(Code::InvalidCharacterData);
    }
    if is_same(text, b"IMM") || is_same(text, b"IMMEDIATE") {
        return Ok(Source::Immediate);
    }
    if is_same(text, b"BUS") {
        return Ok(Source::Bus);
    }
    if is_same(text, b"EXT") || is_same(text, b"EXTERNAL") {
        return Ok(Source::External);
    }
    Err(Code::IllegalParameterValue)
}

/// Returns `true` for ON and `false` for OFF, or the error.
pub(crate) fn switch_of(text: &[u8]) -> Result<bool, Code>
    ensures { result ≡ read_switch text.now }
{
    if !is_word(text) {
        return Err(Code::InvalidCharacterData);
    }
    if is_same(text, b"ON") {
        return Ok(true);
    }
    if is_same(text, b"OFF") {
        return Ok(false);
    }
    Err(Code::IllegalParameterValue)
}

/// Whether two texts are equal, apart from upper and lower case.
pub(crate) fn is_same(text: &[u8], other: &[u8]) -> bool
    ensures { result ≡ str_eq_ignore_ascii_case text.now other.now }
{
    text.eq_ignore_ascii_case(other)
}

/// Whether all bytes are letters, digits or underscores.
fn is_word(text: &[u8]) -> bool
    ensures { result ≡ list_all is_word_byte text.now }
{
    text.iter()
        .all(|byte| byte.is_ascii_alphanumeric() | (*byte == b'_'))
}
