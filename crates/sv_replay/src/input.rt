//! The reader of a replay, and what each read returns.

ghost use Rattle.std.specs.Prelude.{◌<◌, length};
ghost use Rattle.sv_replay.specs.Text.{IsBehind};

use std::io::{ErrorKind, Read};

/// The reader failed, or had already been read as many times as allowed.
#[derive(Clone, Copy)]
pub struct InputFault;

/// A reader for which contracts can state what each read returned. Every type that implements
/// `Read` is a `Source`, with a `gives` that holds for any result of a read.
pub trait Source: Read {
    ghost use Rattle.std.specs.Prelude.{⊤};
    ghost use Rattle.sv_replay.specs.Reads.{Gave};

    /// How a read changes the reader. The change may depend on what the read returned: a number of
    /// bytes; `None` at the reader's end; or a fault.
    ghost gives: { Self → Gave → Self → Type 0 } = { λ before gave after. ⊤ };

    /// Makes one read, into a buffer that has room. Returns the number of bytes that came; `None`
    /// at the reader's end. If a signal interrupts the read, returns 0; a later read can give
    /// bytes.
    ///
    /// # Errors
    /// If the reader fails.
    fn give(&mut self, buffer: &mut [u8]) -> Result<Option<usize>, InputFault>
        requires { 0 < length buffer.old }
        ensures came { IsBehind (Self.Read.remaining self.old) (Self.Read.remaining self.new)
            buffer.new result }
        ensures heard { gives self.old result self.new };
}

impl<R: Read> Source for R {
    fn give(&mut self, buffer: &mut [u8]) -> Result<Option<usize>, InputFault> {
        match self.read(buffer) {
            Ok(0) => Ok(None),
            Ok(count) => Ok(Some(count)),
            Err(e) => {
                if e.kind() == ErrorKind::Interrupted {
                    Ok(Some(0))
                } else {
                    Err(InputFault)
                }
            }
        }
    }
}
