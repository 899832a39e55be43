//! Why a read ended (VXI-11 revision 1.0, section B.6).

ghost use Rattle.std.specs.Prelude.{◌≡◌, pos};
ghost use Rattle.sv_vxi.specs.Reason.{reason_number};

/// Why a read ended. Several reasons may apply to the same read.
#[derive(Clone, Copy)]
pub struct Reason {
    /// As many bytes were read as the call requested (REQCNT).
    pub request_count: bool,
    /// The read ended with the termination character (CHR).
    pub character: bool,
    /// The read ended with the last byte of the response (END).
    pub end: bool,
}

impl Reason {
    /// The reasons as a number: the sum of REQCNT (1), CHR (2) and END (4), each added if it
    /// applies.
    pub fn number(self) -> i32
        ensures { result ≡ pos (reason_number self) }
    {
        let bits = u8::from(self.request_count)
            + 2 * u8::from(self.character)
            + 4 * u8::from(self.end);
        i32::from(bits)
    }
}
