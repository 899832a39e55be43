//! Sending records (RFC 5531, section 11).

ghost use Rattle.std.specs.Prelude.{◌≡◌, ◌+◌, ◌<◌, ◌≤◌, ◌^◌, ◌++◌, true, length, vec_len, vec_capacity};
ghost use Rattle.sv_rpc.specs.Record.{fragment};

use std::alloc::Allocator;
use sv_bytes::append;

/// Appends `text` to the outgoing bytes as a record of one fragment. The outgoing bytes must have
/// room for the record, and `text` must be shorter than 2,147,483,648 bytes.
pub fn put_record<A: Allocator>(out: &mut Vec<u8, A>, text: &[u8])
    requires fits { vec_len out.old + 4 + length text.now ≤ vec_capacity out.old }
    requires short { length text.now < 2 ^ 31 }
    ensures sent { out.new.items ≡ out.old.items ++ fragment true text.now }
    ensures capacity { vec_capacity out.old ≤ vec_capacity out.new }
    ensures bounded { vec_len out.new ≡ vec_len out.old + 4 + length text.now }
{
    let header = text.len() as u32 + (1 << 31);
    append(out, &header.to_be_bytes());
    append(out, text);
}
