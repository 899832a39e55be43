//! Reading fields from left to right.

ghost use Rattle.std.specs.Prelude.{◌≡◌, ◌<◌, ◌≤◌, ◌^◌, ℕ, ℤ, Bool, List, length, IfOk, IsOkAnd};
ghost use Rattle.sv_xdr.specs.Spelling.{Begins, Unsigned, Signed, Boolean, Opaque, pad_len as pad_len_of};
ghost use Rattle.sv_xdr.specs.Reader.{IsRead, unsigned_at, signed_at, boolean_at, opaque_at, padded_at};

use crate::fault::XdrFault;
use std::marker::Model;

/// A position in bytes, from which fields are read in order. Contracts see a reader as the bytes
/// from its position on.
#[derive(Drop)]
pub struct Reader<'a> {
    rest: &'a [u8],
}

impl<'a> Model for Reader<'a> {
    ghost use Rattle.std.specs.Prelude.{List, ℕ};

    ghost Value = { List ℕ };

    ghost view = { λ reader. reader.rest.now };
}

impl<'a> Reader<'a> {
    /// A reader at the front of these bytes.
    pub fn new(bytes: &'a [u8]) -> Reader<'a>
        ensures { result ≡ bytes.now }
    {
        Reader { rest: bytes }
    }

    /// The bytes from the reader's position on.
    pub fn rest(&self) -> &'a [u8]
        ensures { result.now ≡ self.now }
    {
        self.rest
    }

    /// Reads an unsigned integer (RFC 4506, section 4.2).
    ///
    /// # Errors
    /// `Short` if fewer than 4 bytes are left. The reader then doesn't move.
    pub fn u32(&mut self) -> Result<u32, XdrFault>
        // If the result is `Ok`, the bytes began with the encoding of the field that was read.
        ensures found { IfOk result (λ n. Begins self.old (Unsigned n) self.new) }
        // If the bytes begin with the encoding of a field of this kind, that field is read.
        ensures only { (n : ℕ) (after : List ℕ) → Begins self.old (Unsigned n) after
            → (result ≡ Ok n) × (self.new ≡ after) }
        // The result is what `unsigned_at` returns for the bytes. After a fault, the reader is
        // where it was.
        ensures exact { IsRead (λ n. n) result self.old self.new (unsigned_at self.old) }
    {
        if self.rest.len() < 4 {
            return Err(XdrFault::Short);
        }
        let (front, rest) = self.rest.split_at(4);
        *self = Reader { rest };
        Ok(u32::from_be_bytes([front[0], front[1], front[2], front[3]]))
    }

    /// Reads a signed integer (RFC 4506, section 4.1).
    ///
    /// # Errors
    /// `Short` if fewer than 4 bytes are left. The reader then doesn't move.
    #[tactic(auto, unfolding(crate::specs::Reader::signed_at))]
    pub fn i32(&mut self) -> Result<i32, XdrFault>
        ensures found { IfOk result (λ z. Begins self.old (Signed z) self.new) }
        ensures only { (z : ℤ) (after : List ℕ) → Begins self.old (Signed z) after
            → (result ≡ Ok z) × (self.new ≡ after) }
        ensures exact { IsRead (λ z. z) result self.old self.new (signed_at self.old) }
    {
        let word = self.u32()?;
        Ok(word.cast_signed())
    }

    /// Reads a boolean (RFC 4506, section 4.4).
    ///
    /// # Errors
    /// `Short` if fewer than 4 bytes are left; `BadBool` if the number in the first 4 bytes is
    /// neither 0 nor 1. The reader then doesn't move.
    #[tactic(auto, unfolding(crate::specs::Reader::boolean_at))]
    pub fn boolean(&mut self) -> Result<bool, XdrFault>
        ensures found { IfOk result (λ b. Begins self.old (Boolean b) self.new) }
        ensures only { (b : Bool) (after : List ℕ) → Begins self.old (Boolean b) after
            → (result ≡ Ok b) × (self.new ≡ after) }
        ensures exact { IsRead (λ b. b) result self.old self.new (boolean_at self.old) }
    {
        let mut ahead = Reader { rest: self.rest };
        let value = match ahead.u32()? {
            0 => false,
            1 => true,
            _ => return Err(XdrFault::BadBool),
        };
        *self = ahead;
        Ok(value)
    }

    /// Reads variable-length opaque data of at most `max` bytes (RFC 4506, section 4.10), or a
    /// string, which is encoded in the same way (section 4.11). The result is a slice of the bytes.
    ///
    /// # Errors
    /// The first that applies: `Short` if fewer than 4 bytes are left; `TooLong` if the length is
    /// above `max`; `Short` if data and padding aren't complete; `BadPad` if a byte of the padding
    /// isn't 0. The reader then doesn't move.
    #[tactic(auto, unfolding(crate::specs::Reader::opaque_at))]
    pub fn opaque(&mut self, max: u32) -> Result<&'a [u8], XdrFault>
        ensures found { IfOk result (λ text. Begins self.old (Opaque text.now) self.new
            × (length text.now ≤ max)) }
        ensures only { (text after : List ℕ) → Begins self.old (Opaque text) after
            → length text ≤ max
            → IsOkAnd result (λ found. found.now ≡ text) × (self.new ≡ after) }
        ensures exact { IsRead (λ text. text.now) result self.old self.new
            (opaque_at max self.old) }
    {
        let mut ahead = Reader { rest: self.rest };
        let size = ahead.u32()?;
        if max < size {
            return Err(XdrFault::TooLong);
        }
        let text = ahead.padded(size as usize)?;
        *self = ahead;
        Ok(text)
    }

    /// Reads `size` bytes of data and the padding after them.
    #[tactic(auto, unfolding(crate::specs::Reader::padded_at))]
    fn padded(&mut self, size: usize) -> Result<&'a [u8], XdrFault>
        requires { size < 2 ^ 32 }
        ensures { IsRead (λ text. text.now) result self.old self.new (padded_at size self.old) }
    {
        let pad = pad_len(size);
        if self.rest.len() < size + pad {
            return Err(XdrFault::Short);
        }
        let (text, after) = self.rest.split_at(size);
        let (zeros, after) = after.split_at(pad);
        if !zeros.iter().all(|byte| *byte == 0) {
            return Err(XdrFault::BadPad);
        }
        *self = Reader { rest: after };
        Ok(text)
    }
}

/// How many bytes pad `size` bytes to a multiple of four.
pub(crate) fn pad_len(size: usize) -> usize
    ensures { result ≡ pad_len_of size }
{
    (4 - size % 4) % 4
}
