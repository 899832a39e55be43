//! A unit whose bytes come one by one.

ghost use Rattle.std.specs.Prelude.{◌≡◌, ◌≤◌, ℕ, List, [], ◌∷◌, ◌++◌, None, Some, MatchResult, length};
ghost use Rattle.sv_lexer.specs.Unit.{unit_fault};
ghost use Rattle.sv_lexer.specs.Inside.Finish.{IsCut, data_of, fault_of, length_fault_of};
ghost use Rattle.sv_lexer.specs.Inside.Moved.{progress_to};
ghost use Rattle.sv_lexer.specs.Partial.{Reads};

use crate::parts::Unit;
use crate::stage::{Stage, next};
use crate::token::token_at;
use std::marker::Model;
use sv_errors::Code;

/// The most characters that a mnemonic may have.
const MOST: usize = 12;

/// A unit whose bytes come one by one (IEEE 488.2, 7.3). The bytes aren't stored. The fields record
/// the stage that the bytes have reached, where the header and the program data begin and end, and
/// how long the mnemonics are.
#[derive(Drop)]
pub struct Partial {
    /// How far the unit was read: the part of the unit to which the last byte read belongs.
    stage: Stage,
    /// How many bytes the unit has so far.
    size: usize,
    /// Where the header begins, and where it ends.
    header_start: usize,
    header_end: usize,
    /// How many characters the last mnemonic has.
    mnemonic: usize,
    /// How many characters the longest mnemonic before the last one has.
    longest: usize,
    /// Where the program data begin, and where they end, without the white space after them.
    data_start: usize,
    data_end: usize,
}

impl Model for Partial {
    ghost use Rattle.sv_lexer.specs.Partial.{Progress};

    ghost Value = { Progress };

    ghost view = { λ p. record {
      stage = p.stage;
      size = p.size;
      header_start = p.header_start;
      header_end = p.header_end;
      mnemonic = p.mnemonic;
      longest = p.longest;
      data_start = p.data_start;
      data_end = p.data_end;
    } };
}

impl Partial {
    /// A unit of which no bytes have come.
    pub fn new() -> Partial
        ensures { Reads result [] }
    {
        Partial {
            stage: Stage::WhiteSpace,
            size: 0,
            header_start: 0,
            header_end: 0,
            mnemonic: 0,
            longest: 0,
            data_start: 0,
            data_end: 0,
        }
    }

    /// Reads the next bytes.
    pub fn push_all(&mut self, bytes: &[u8])
        ensures { (before : List ℕ) → Reads self.old before
            → Reads self.new (before ++ bytes.now) }
    {
        for byte in bytes {
            self.stage = next(self.stage, *byte);
            self.size = self.size.saturating_add(1);
            match self.stage {
                Stage::WhiteSpace => self.header_start = self.size,
                Stage::Asterisk | Stage::QuerySign => self.header_end = self.size,
                Stage::Colon => {
                    self.header_end = self.size;
                    self.longest = self.longest.max(self.mnemonic);
                    self.mnemonic = 0;
                }
                Stage::CommonMnemonic | Stage::Mnemonic => {
                    self.header_end = self.size;
                    self.mnemonic = self.mnemonic.saturating_add(1);
                }
                Stage::HeaderSeparator => self.data_start = self.size,
                Stage::ProgramData => self.data_end = self.size,
                Stage::DataSpace | Stage::Misspelled | Stage::Illegal => {}
            }
        }
    }

    /// Ends the unit and returns it. `text` must be the bytes that were pushed.
    ///
    /// # Errors
    /// The errors of [`unit`](crate::unit).
    pub fn finish<'a>(&self, text: &'a [u8]) -> Result<Unit<'a>, Code>
        requires { Reads self.now text.now }
        ensures { MatchResult result (λ unit. (unit ≡ text.now) × (unit_fault text.now ≡ None))
            (λ code. unit_fault text.now ≡ Some code) }
    {
        let (data_start, data_end) = match self.stage {
            Stage::WhiteSpace | Stage::Asterisk | Stage::Colon | Stage::Misspelled => {
                return Err(Code::SyntaxError);
            }
            Stage::Illegal => return Err(Code::InvalidCharacter),
            Stage::CommonMnemonic | Stage::Mnemonic | Stage::QuerySign | Stage::HeaderSeparator => {
                (self.header_end, self.header_end)
            }
            Stage::ProgramData | Stage::DataSpace => (self.data_start, self.data_end),
        };
        if self.longest.max(self.mnemonic) > MOST {
            return Err(Code::ProgramMnemonicTooLong);
        }
        Ok(Unit {
            bytes: text,
            header: token_at(&text[self.header_start..self.header_end], self.header_start),
            rest: &text[data_start..data_end],
            place: data_start,
        })
    }
}
