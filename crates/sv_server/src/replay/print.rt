//! The lines that a replay prints, written to a writer.

ghost use Rattle.std.specs.Prelude.{◌≡◌, ◌++◌, ◌∷◌, [], decimal};
ghost use Rattle.hex.specs.Hex.{encode_lower};
ghost use Rattle.sv_history.specs.Print.{port_line, refusal_line, refusal_number};
ghost use Rattle.sv_print.specs.TakenByWriter.{IsTakenByWriter};

use std::io::Write;
use sv_history::{Port, Refused};
use sv_print::{Part, WriteFault, put_parts};

/// Writes a line with the bytes that wait to be sent on a port: the port's name, and the bytes.
/// Writes nothing if no bytes wait.
pub fn put_line<W: Write>(writer: &mut W, port: Port, bytes: &[u8]) -> Result<(), WriteFault>
    ensures { IsTakenByWriter (W.contents writer.old) (W.contents writer.new) result
        (port_line port bytes.now) }
{
    if bytes.is_empty() {
        return Ok(());
    }
    match port {
        Port::Conn(conn) => put_bytes(writer, b"c", conn, bytes),
        Port::Intr(conn) => put_bytes(writer, b"i", conn, bytes),
    }
}

/// Writes a line with bytes: a letter, the number of a connection, and the bytes.
fn put_bytes<'a, W: Write>(
    writer: &mut W,
    letter: &'a [u8],
    conn: u8,
    bytes: &'a [u8],
) -> Result<(), WriteFault>
    ensures { IsTakenByWriter (W.contents writer.old) (W.contents writer.new) result
        (letter.now ++ (decimal conn ++ 32 ∷ (encode_lower bytes.now ++ 10 ∷ []))) }
{
    put_parts(
        writer,
        &[
            Part::Bytes(letter),
            Part::Number(u64::from(conn)),
            Part::Bytes(b" "),
            Part::Hex(bytes),
            Part::Bytes(b"\n"),
        ],
    )
}

/// The number of a refusal, from 1 to 10.
fn number_of(refused: Refused) -> u8
    ensures { result ≡ refusal_number refused }
{
    refused as u8
}

/// Writes the line for a refused event: `refused` and the number of the refusal.
pub fn put_refusal<W: Write>(writer: &mut W, refused: Refused) -> Result<(), WriteFault>
    ensures { IsTakenByWriter (W.contents writer.old) (W.contents writer.new) result
        (refusal_line refused) }
{
    put_parts(
        writer,
        &[
            Part::Bytes(b"refused "),
            Part::Number(u64::from(number_of(refused))),
            Part::Bytes(b"\n"),
        ],
    )
}
