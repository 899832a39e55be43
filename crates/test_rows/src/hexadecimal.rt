//! Prints bytes as hexadecimal digits.

use std::io::{self, BufWriter, Write};

/// Prints two digits for each byte, and ends the line.
pub(crate) fn show_bytes<W: Write + Drop>(
    bytes: &[u8],
    writer: &mut BufWriter<W>,
) -> io::Result<()> {
    for byte in bytes {
        write!(writer, "{byte:02x}")?;
    }
    writeln!(writer)
}
