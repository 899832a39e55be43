//! Writing replies, in the form in which they are sent.

ghost use Rattle.std.specs.Prelude.{◌≡◌, ◌+◌, ◌≤◌, ◌++◌, [], true, length, vec_len, vec_capacity};
ghost use Rattle.sv_xdr.specs.Writer.{text_of, rest_of};
ghost use Rattle.sv_history.specs.Limits.{longest_reply};
ghost use Rattle.sv_server.specs.Connection.Inside.Replies.{answer_text, answer_bytes, HasAtMost, IsShort};

use crate::outcome::Answer;
use std::alloc::Allocator;
use sv_exchange::MAX_READ;
use sv_rpc::{Reply, put_record, write_reply};
use sv_vxi::{VxiResult, write_result};
use sv_xdr::Writer;

/// The size of the longest reply in bytes, with the header of its fragment: ten 4-byte fields, and
/// the data of a read.
pub const LONGEST_REPLY: usize = 40 + MAX_READ;
/// The size of the longest reply in bytes, without the header of its fragment: the reply's header
/// (24 bytes), error, reason and length (4 bytes each), and the data of a read.
const LONGEST_TEXT: usize = LONGEST_REPLY - 4;
/// An answer with at most this many bytes of data counts as brief. Only an answer to a device_read
/// can have more data.
const BRIEF_DATA: usize = 256;
/// The size in bytes of the longest reply that has at most 256 bytes of data, without the header of
/// its fragment.
const BRIEF_TEXT: usize = LONGEST_TEXT - MAX_READ + BRIEF_DATA;

/// Appends a reply to the outgoing bytes.
pub fn put_reply<A: Allocator>(out: &mut Vec<u8, A>, xid: u32, answer: &Answer<'_>)
    requires room { vec_len out.old + longest_reply ≤ vec_capacity out.old }
    requires short { IsShort answer.now }
    ensures sent { out.new.items ≡ out.old.items ++ answer_bytes xid answer.now }
    ensures capacity { vec_capacity out.old ≤ vec_capacity out.new }
    ensures bounded { vec_len out.new ≤ vec_len out.old + longest_reply }
{
    if is_brief(answer) {
        put_through(out, &mut [0; BRIEF_TEXT], xid, answer);
    } else {
        put_through(out, &mut [0; LONGEST_TEXT], xid, answer);
    }
}

/// Whether an answer has at most 256 bytes of data. If so, its reply is written into a smaller
/// buffer, which is cleared faster.
fn is_brief(answer: &Answer<'_>) -> bool
    ensures { result ≡ true → HasAtMost 256 answer.now }
{
    match *answer {
        Answer::Header(_) | Answer::Port(_) => true,
        Answer::Result(VxiResult::Read { bytes, .. } | VxiResult::Data { bytes, .. }) => {
            bytes.len() <= BRIEF_DATA
        }
        Answer::Result(
            VxiResult::Link { .. }
            | VxiResult::Size { .. }
            | VxiResult::Status { .. }
            | VxiResult::Plain { .. },
        ) => true,
    }
}

/// Writes a reply into the buffer `text`, which has room for the reply, and then appends the reply
/// to `out`, the outgoing bytes.
fn put_through<A: Allocator>(out: &mut Vec<u8, A>, text: &mut [u8], xid: u32, answer: &Answer<'_>)
    requires fits { length (answer_text xid answer.now) ≤ length text.old }
    requires room { vec_len out.old + longest_reply ≤ vec_capacity out.old }
    requires short { IsShort answer.now }
    ensures sent { out.new.items ≡ out.old.items ++ answer_bytes xid answer.now }
    ensures capacity { vec_capacity out.old ≤ vec_capacity out.new }
    ensures bounded { vec_len out.new ≤ vec_len out.old + longest_reply }
{
    let mut writer = Writer::new(text);
    write_answer(&mut writer, xid, answer);
    put_record(out, writer.text());
}

/// Writes a reply without the header of its fragment.
fn write_answer(writer: &mut Writer<'_>, xid: u32, answer: &Answer<'_>)
    requires empty { text_of writer.old ≡ [] }
    requires room { length (answer_text xid answer.now) ≤ length (rest_of writer.old) }
    requires short { IsShort answer.now }
    ensures same_buffer { writer.new.out.ghost_name ≡ writer.old.out.ghost_name }
    ensures written { text_of writer.new ≡ answer_text xid answer.now }
{
    match *answer {
        Answer::Header(reply) => {
            let _ = write_reply(writer, xid, reply);
        }
        Answer::Port(port) => {
            let _ = write_reply(writer, xid, Reply::Success);
            let _ = writer.u32(port);
        }
        Answer::Result(outcome) => {
            let _ = write_reply(writer, xid, Reply::Success);
            let _ = write_result(writer, &outcome);
        }
    }
}
