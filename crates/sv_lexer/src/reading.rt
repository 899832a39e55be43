//! Reading a unit.

ghost use Rattle.std.specs.Prelude.{◌≡◌, None, Some, MatchResult};
ghost use Rattle.sv_lexer.specs.Unit.{unit_fault};

use crate::partial::Partial;
use crate::parts::Unit;
use sv_errors::Code;

/// Reads a unit: its header ends before the first white space, and its parameters follow. White
/// space around the unit is ignored.
///
/// # Errors
/// The first that applies: [`Code::InvalidCharacter`] if a byte is neither white space nor from 33
/// to 126; [`Code::SyntaxError`] if the header isn't well-formed; [`Code::ProgramMnemonicTooLong`]
/// if one of its mnemonics has more than 12 characters.
pub fn unit(bytes: &[u8]) -> Result<Unit<'_>, Code>
    ensures { MatchResult result (λ unit. (unit ≡ bytes.now) × (unit_fault bytes.now ≡ None))
        (λ code. unit_fault bytes.now ≡ Some code) }
{
    let mut partial = Partial::new();
    partial.push_all(bytes);
    partial.finish(bytes)
}
