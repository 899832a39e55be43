//! The next unit of a message, read while the bytes of the message come.

ghost use Rattle.std.specs.Prelude.{◌≡◌, [], MatchOption};
ghost use Rattle.sv_exchange.specs.Exchange.{units};
ghost use Rattle.sv_exchange.specs.FirstUnit.{IsFirst};
ghost use Rattle.sv_exchange.specs.Ahead.{IsBegun, IsLooked};

use sv_lexer::Partial;
use sv_text::is_space;

/// The next unit of a message (IEEE 488.2, 7.3.2 and 7.4.1). The text is read up to the semicolon
/// after the unit, and no byte is read twice. Positions count from the start of the text.
#[derive(Drop)]
pub(crate) struct Ahead {
    /// Where the unit begins, and where it ends without the white space after it. Before the unit
    /// has begun, both are the number of bytes read.
    pub(crate) start: usize,
    pub(crate) end: usize,
    /// How many bytes of the text were read.
    looked: usize,
    /// Whether a semicolon came after the unit.
    closed: bool,
    /// The progress of reading the bytes of the unit one by one.
    pub(crate) partial: Partial,
}

impl Ahead {
    /// Reads the first unit of a text.
    pub(crate) fn of(text: &[u8]) -> Ahead
        ensures { IsLooked result text.now }
    {
        let mut ahead = Ahead {
            start: 0,
            end: 0,
            looked: 0,
            closed: false,
            partial: Partial::new(),
        };
        ahead.look(text);
        ahead
    }

    /// Reads the bytes of `text` that weren't read yet, up to the semicolon that ends the unit. A
    /// semicolon or white space before the unit is skipped. Any other byte belongs to the unit, as
    /// does the white space between such bytes.
    pub(crate) fn look(&mut self, text: &[u8])
        requires { IsBegun self.old text.now }
        ensures { IsLooked self.new text.now }
    {
        while self.looked < text.len() && !self.closed {
            let byte = text[self.looked];
            self.looked += 1;
            if byte != b';' && !is_space(byte) {
                self.partial.push_all(&text[self.end..self.looked]);
                self.end = self.looked;
            } else if self.start >= self.end {
                self.start = self.looked;
                self.end = self.looked;
            } else if byte == b';' {
                self.closed = true;
            }
        }
    }

    /// The unit, and how many bytes `text` has up to and including the semicolon after the unit. If
    /// no semicolon follows, these are all bytes of `text`. `None` if the text has only semicolons
    /// and white space. `text` must be the whole message.
    pub(crate) fn unit<'a>(&self, text: &'a [u8]) -> Option<(&'a [u8], usize)>
        requires { IsLooked self.now text.now }
        ensures { MatchOption result (units text.now ≡ [])
            (λ found. IsFirst text.now found.0.now found.1) }
    {
        if self.start < self.end {
            Some((&text[self.start..self.end], self.looked))
        } else {
            None
        }
    }
}
