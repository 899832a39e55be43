//! Writing fields from left to right.

ghost use Rattle.std.specs.Prelude.{◌≡◌, ◌<◌, ◌≤◌, ◌^◌, [], length, OnOk, IsErrOf};

use crate::fault::XdrFault;
use crate::reader::pad_len;

/// A caller's buffer, into which fields are written in order. In contracts, `text_of` returns the
/// bytes written so far, and `rest_of` the rest of the buffer.
#[derive(Drop)]
pub struct Writer<'b> {
    out: &'b mut [u8],
    written: usize,
    ghost within: { written ≤ length out.now },
}

impl<'b> Writer<'b> {
    ghost use Rattle.sv_xdr.specs.Spelling.{Unsigned, Signed, Boolean, Opaque, spelling};
    ghost use Rattle.sv_xdr.specs.Writer.{text_of, rest_of, Appends, AppendsField, Stays, Writes};

    /// A writer at the front of this buffer.
    pub fn new(buffer: &'b mut [u8]) -> Writer<'b>
        ensures same_buffer { result.out.ghost_name ≡ buffer.entry.ghost_name }
        ensures text { text_of result ≡ [] }
        ensures rest { rest_of result ≡ buffer.old }
    {
        Writer {
            out: buffer,
            written: 0,
        }
    }

    /// How many bytes were written.
    pub fn written(&self) -> usize
        ensures { result ≡ length (text_of self.now) }
    {
        self.written
    }

    /// The bytes that were written.
    pub fn text(&self) -> &[u8]
        ensures { result.now ≡ text_of self.now }
    {
        &self.out[..self.written]
    }

    /// Writes an unsigned integer (RFC 4506, section 4.2).
    ///
    /// # Errors
    /// `NoRoom` if fewer than 4 bytes of the buffer are left. Nothing is written then.
    pub fn u32(&mut self, number: u32) -> Result<(), XdrFault>
        ensures same_buffer { self.new.out.ghost_name ≡ self.old.out.ghost_name }
        ensures spelled { OnOk result (AppendsField (Unsigned number) self.old self.new) }
        // Either there was room, and this encoding was appended; or there was too little room, and
        // nothing changed.
        ensures exact { Writes (spelling (Unsigned number)) result self.old self.new }
    {
        self.bytes(&number.to_be_bytes())
    }

    /// Writes a signed integer (RFC 4506, section 4.1).
    ///
    /// # Errors
    /// `NoRoom` if fewer than 4 bytes of the buffer are left. Nothing is written then.
    pub fn i32(&mut self, integer: i32) -> Result<(), XdrFault>
        ensures same_buffer { self.new.out.ghost_name ≡ self.old.out.ghost_name }
        ensures spelled { OnOk result (AppendsField (Signed integer) self.old self.new) }
        ensures exact { Writes (spelling (Signed integer)) result self.old self.new }
    {
        self.bytes(&integer.to_be_bytes())
    }

    /// Writes a boolean (RFC 4506, section 4.4).
    ///
    /// # Errors
    /// `NoRoom` if fewer than 4 bytes of the buffer are left. Nothing is written then.
    pub fn boolean(&mut self, value: bool) -> Result<(), XdrFault>
        ensures same_buffer { self.new.out.ghost_name ≡ self.old.out.ghost_name }
        ensures spelled { OnOk result (AppendsField (Boolean value) self.old self.new) }
        ensures exact { Writes (spelling (Boolean value)) result self.old self.new }
    {
        self.bytes(&u32::from(value).to_be_bytes())
    }

    /// Writes variable-length opaque data (RFC 4506, section 4.10).
    ///
    /// # Errors
    /// The first that applies: `TooLong` if the data are longer than the 4,294,967,295 bytes that a
    /// length field can express; `NoRoom` if length, data and padding don't all fit. In both cases
    /// nothing is written.
    pub fn opaque(&mut self, text: &[u8]) -> Result<(), XdrFault>
        ensures same_buffer { self.new.out.ghost_name ≡ self.old.out.ghost_name }
        ensures spelled { OnOk result (AppendsField (Opaque text.now) self.old self.new) }
        ensures exact { length text.now < 2 ^ 32
            → Writes (spelling (Opaque text.now)) result self.old self.new }
        ensures too_long { 2 ^ 32 ≤ length text.now
            → IsErrOf result XdrFault.TooLong × Stays self.old self.new }
    {
        let Ok(size) = u32::try_from(text.len()) else {
            return Err(XdrFault::TooLong);
        };
        let pad = pad_len(text.len());
        if self.room() < 4 + text.len() + pad {
            return Err(XdrFault::NoRoom);
        }
        self.put(&size.to_be_bytes());
        self.put(text);
        self.put(&[0; 3][..pad]);
        Ok(())
    }

    /// Writes `bytes` if they all fit into the rest of the buffer; writes nothing if they don't.
    fn bytes(&mut self, bytes: &[u8]) -> Result<(), XdrFault>
        ensures same_buffer { self.new.out.ghost_name ≡ self.old.out.ghost_name }
        ensures exact { Writes bytes.now result self.old self.new }
    {
        if self.room() < bytes.len() {
            return Err(XdrFault::NoRoom);
        }
        self.put(bytes);
        Ok(())
    }

    fn room(&self) -> usize
        ensures { result ≡ length (rest_of self.now) }
    {
        self.out.len() - self.written
    }

    fn put(&mut self, bytes: &[u8])
        requires { length bytes.now ≤ length (rest_of self.old) }
        ensures same_buffer { self.new.out.ghost_name ≡ self.old.out.ghost_name }
        ensures appends { Appends bytes.now self.old self.new }
    {
        let Writer { out, written } = self;
        let end = *written + bytes.len();
        out[*written..end].copy_from_slice(bytes);
        *written = end;
    }
}
