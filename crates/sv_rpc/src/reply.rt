//! Writing the header of a reply or a call.

ghost use Rattle.std.specs.Prelude.{◌≡◌, map};
ghost use Rattle.sv_xdr.specs.Spelling.{spelling, Unsigned};
ghost use Rattle.sv_xdr.specs.Writer.{WritesEach};
ghost use Rattle.sv_rpc.specs.Reply.{reply_fields, call_fields};

use sv_xdr::{Writer, XdrFault};

/// How a call is answered (RFC 5531, section 9).
#[derive(Clone, Copy)]
pub enum Reply {
    /// The call was executed, and its result follows.
    Success,
    /// The call is denied: its version of RPC is not 2.
    Mismatch,
    /// The program is not served here.
    ProgUnavail,
    /// The program isn't served in the version that the call names, only in versions `low` to
    /// `high`.
    ProgMismatch {
        /// The lowest version that is served.
        low: u32,
        /// The highest version that is served.
        high: u32,
    },
    /// The program has no procedure with the number in the call.
    ProcUnavail,
    /// The arguments can't be read.
    GarbageArgs,
}

/// Writes the header of a reply, without the fragment header before it and the result after
/// it.
///
/// # Errors
/// `NoRoom` if a field of the header doesn't fit. The fields before that field stay written.
pub fn write_reply(writer: &mut Writer<'_>, xid: u32, reply: Reply) -> Result<(), XdrFault>
    ensures same_buffer { writer.new.out.ghost_name ≡ writer.old.out.ghost_name }
    ensures writes { WritesEach (map spelling (reply_fields xid reply)) result writer.old
        writer.new }
{
    match reply {
        Reply::Success => words(writer, &[xid, 1, 0, 0, 0, 0]),
        Reply::Mismatch => words(writer, &[xid, 1, 1, 0, 2, 2]),
        Reply::ProgUnavail => words(writer, &[xid, 1, 0, 0, 0, 1]),
        Reply::ProgMismatch { low, high } => words(writer, &[xid, 1, 0, 0, 0, 2, low, high]),
        Reply::ProcUnavail => words(writer, &[xid, 1, 0, 0, 0, 3]),
        Reply::GarbageArgs => words(writer, &[xid, 1, 0, 0, 0, 4]),
    }
}

/// Writes the header of a call, with an empty credential and an empty verifier (AUTH_NONE). The
/// caller writes the fragment header in front of it and the arguments after it.
///
/// # Errors
/// `NoRoom` if a field of the header doesn't fit. The fields before that field stay written.
pub fn write_call(
    writer: &mut Writer<'_>,
    xid: u32,
    prog: u32,
    vers: u32,
    proc: u32,
) -> Result<(), XdrFault>
    ensures same_buffer { writer.new.out.ghost_name ≡ writer.old.out.ghost_name }
    ensures writes { WritesEach (map spelling (call_fields xid prog vers proc)) result writer.old
        writer.new }
{
    words(writer, &[xid, 0, 2, prog, vers, proc, 0, 0, 0, 0])
}

/// Writes each number in `words` as an unsigned integer. To write opaque data of length 0, the
/// caller passes a 0, which has the same encoding.
fn words(writer: &mut Writer<'_>, words: &[u32]) -> Result<(), XdrFault>
    ensures same_buffer { writer.new.out.ghost_name ≡ writer.old.out.ghost_name }
    ensures writes { WritesEach (map (λ word. spelling (Unsigned word)) words.now) result writer.old
        writer.new }
{
    for word in words {
        writer.u32(*word)?;
    }
    Ok(())
}
