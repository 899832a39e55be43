//! The call that reports a service request (VXI-11 revision 1.0, device_intr_srq).

ghost use Rattle.std.specs.Prelude.{◌≡◌, ◌+◌, ◌≤◌, ◌++◌, length, vec_len, vec_capacity};
ghost use Rattle.sv_links.specs.Limits.{max_handle, longest_call};
ghost use Rattle.sv_links.specs.Request.{request};

use crate::limits::LONGEST_TEXT;
use std::alloc::Allocator;
use sv_rpc::{put_record, write_call};
use sv_xdr::Writer;

/// The number of the procedure device_intr_srq.
const DEVICE_INTR_SRQ: u32 = 30;

/// The client's program to which the server sends the calls on an interrupt channel.
#[derive(Clone, Copy, PartialEq, Eq)]
pub struct Peer {
    /// The number of the program.
    pub prog: u32,
    /// The version of the program.
    pub vers: u32,
}

/// Appends a device_intr_srq call with this handle to the outgoing bytes.
pub(crate) fn put_request<A: Allocator>(out: &mut Vec<u8, A>, xid: u32, peer: Peer, handle: &[u8])
    requires room { vec_len out.old + longest_call ≤ vec_capacity out.old }
    requires short { length handle.now ≤ max_handle }
    ensures sent { out.new.items ≡ out.old.items ++ request xid peer handle.now }
    ensures capacity { vec_capacity out.old ≤ vec_capacity out.new }
{
    let mut text = [0; LONGEST_TEXT];
    let mut writer = Writer::new(&mut text);
    let _ = write_call(&mut writer, xid, peer.prog, peer.vers, DEVICE_INTR_SRQ);
    let _ = writer.opaque(handle);
    put_record(out, writer.text());
}
