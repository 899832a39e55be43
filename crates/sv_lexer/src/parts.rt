//! A unit, split into its parts.

ghost use Rattle.std.specs.Prelude.{◌≡◌, None, Some, MatchResult};
ghost use Rattle.sv_lexer.specs.Token.{IsToken};
ghost use Rattle.sv_lexer.specs.Unit.{header as header_text, header_place};
ghost use Rattle.sv_lexer.specs.Parameters.{parameters_fault};

use crate::commas::{filled, is_open};
use crate::params::Params;
use crate::token::Token;
use std::marker::Model;
use sv_errors::Code;

/// A unit with a well-formed header. Contracts see a unit as the bytes that it was read from.
#[derive(Drop)]
pub struct Unit<'a> {
    /// The bytes that the unit was read from.
    pub(crate) bytes: &'a [u8],
    /// The header.
    pub(crate) header: Token<'a>,
    /// The text after the header, without white space around it.
    pub(crate) rest: &'a [u8],
    /// The position of `rest` in the unit, in bytes.
    pub(crate) place: usize,
}

impl<'a> Model for Unit<'a> {
    ghost use Rattle.std.specs.Prelude.{◌≡◌, ℕ, List};
    ghost use Rattle.sv_lexer.specs.Token.{IsToken, StandsAt};
    ghost use Rattle.sv_lexer.specs.Unit.{header as header_of, header_place, rest as rest_of, rest_place};

    ghost Value = { List ℕ };

    ghost view = { λ unit. unit.bytes.now };

    ghost invariant = { λ unit. IsToken unit.bytes.now (header_place unit.bytes.now)
        (header_of unit.bytes.now) unit.header × (unit.rest.now ≡ rest_of unit.bytes.now)
        × (unit.place ≡ rest_place unit.bytes.now)
        × StandsAt unit.bytes.now unit.place unit.rest.now };
}

impl<'a> Unit<'a> {
    /// The header, as it was sent.
    pub fn header(&self) -> Token<'a>
        ensures { IsToken self.now (header_place self.now) (header_text self.now) result }
    {
        self.header
    }

    /// The parameters after the header.
    ///
    /// # Errors
    /// The first that applies: [`Code::InvalidExpression`] if a parenthesis isn't closed;
    /// [`Code::SyntaxError`] if a parameter is empty.
    pub fn parameters(&self) -> Result<Params<'a>, Code>
        ensures { MatchResult result (λ params. (params ≡ self.now)
            × (parameters_fault self.now ≡ None)) (λ code. parameters_fault self.now ≡ Some code) }
    {
        if is_open(self.rest) {
            return Err(Code::InvalidExpression);
        }
        match filled(self.rest) {
            Some(count) => Ok(Params {
                bytes: self.bytes,
                text: self.rest,
                place: self.place,
                count,
            }),
            None => Err(Code::SyntaxError),
        }
    }
}
