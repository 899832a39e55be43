//! The parameters of a unit.

ghost use Rattle.std.specs.Prelude.{◌≡◌, ◌<◌, ◌≤◌, MatchOption};
ghost use Rattle.sv_lexer.specs.Token.{IsToken};
ghost use Rattle.sv_lexer.specs.Parameters.{count as count_of, parameter, parameter_place};

use crate::commas::part_at;
use crate::token::{Token, token_at};
use std::marker::Model;
use sv_text::{without_end, without_start};

/// The parameters of a unit: the parts between the commas that are outside parentheses. Contracts
/// see this value as the bytes of the unit.
#[derive(Drop)]
pub struct Params<'a> {
    /// The bytes of the unit.
    pub(crate) bytes: &'a [u8],
    /// The parameters and the commas between them.
    pub(crate) text: &'a [u8],
    /// The position of `text` in the unit.
    pub(crate) place: usize,
    /// How many parameters there are.
    pub(crate) count: usize,
}

impl<'a> Model for Params<'a> {
    ghost use Rattle.std.specs.Prelude.{◌≡◌, ℕ, List};
    ghost use Rattle.sv_lexer.specs.Unit.{rest, rest_place};
    ghost use Rattle.sv_lexer.specs.Token.{StandsAt};
    ghost use Rattle.sv_lexer.specs.Parameters.{count as count_of};

    ghost Value = { List ℕ };

    ghost view = { λ params. params.bytes.now };

    ghost invariant = { λ params. (params.text.now ≡ rest params.bytes.now)
        × (params.place ≡ rest_place params.bytes.now) × (params.count ≡ count_of params.bytes.now)
        × StandsAt params.bytes.now params.place params.text.now };
}

impl<'a> Params<'a> {
    /// How many parameters there are.
    pub fn count(&self) -> usize
        ensures { result ≡ count_of self.now }
    {
        self.count
    }

    /// The parameter with this index, counted from 0; `None` if the unit has fewer parameters.
    pub fn get(&self, index: usize) -> Option<Token<'a>>
        ensures { MatchOption result (count_of self.now ≤ index)
            (λ token. (index < count_of self.now)
            × IsToken self.now (parameter_place self.now index) (parameter self.now index) token) }
    {
        if index >= self.count {
            return None;
        }
        let (part, place) = part_at(self.text, index)?;
        let text = without_start(part);
        let space = part.len() - text.len();
        Some(token_at(without_end(text), self.place + place + space))
    }
}
