//! The flags of a call (VXI-11 revision 1.0, section B.5).

ghost use Rattle.std.specs.Prelude.{◌≡◌, ◌==◌};
ghost use Rattle.std.specs.Int.{bit_at};

/// The flags of a call, any 32-bit number. Bits that no function here tests are ignored.
#[derive(Clone, Copy)]
pub struct Flags(pub u32);

impl Flags {
    /// Whether the call waits for the lock if another link holds it (bit 0).
    pub fn has_wait_lock(self) -> bool
        ensures { result ≡ (bit_at self.0 0 == 1) }
    {
        self.0 % 2 == 1
    }

    /// Whether a write has END (bit 3). The last byte of a write with END ends the message. If a
    /// write with END has no bytes, the write itself ends the message.
    pub fn has_end(self) -> bool
        ensures { result ≡ (bit_at self.0 3 == 1) }
    {
        self.0 / 8 % 2 == 1
    }

    /// Whether a read ends at the termination character (bit 7).
    pub fn has_term_char(self) -> bool
        ensures { result ≡ (bit_at self.0 7 == 1) }
    {
        self.0 / 128 % 2 == 1
    }
}
