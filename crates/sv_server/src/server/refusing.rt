//! Answers a connection's next call with error 9 (out of resources), without executing the call.

ghost use Rattle.std.specs.Prelude.{◌≡◌, List, Some, OnErr, option_map};
ghost use Rattle.sv_rpc.specs.Call.{call_at};
ghost use Rattle.sv_vxi.specs.Reading.{plain_arguments};
ghost use Rattle.sv_history.specs.Act.{ConnAct};
ghost use Rattle.sv_history.specs.Refusing.{takes_memory as makes_more, refusable_call};
ghost use Rattle.sv_history.specs.Request.{CoreRequest, request_of as request_for};
ghost use Rattle.sv_server.specs.Connection.Representation.{IsConnection};
ghost use Rattle.sv_server.specs.Connection.Inside.Requests.{plain_core_call};
ghost use Rattle.sv_server.specs.Server.Inside.Acting.{Refuses};

use crate::connection::Connection;
use crate::connection::request::{CoreCall, Request, request_of};
use crate::device::error_results::failure;
use crate::outcome::Answer;
use std::alloc::Allocator;
use sv_history::{Refused, Role};
use sv_vxi::{Args, ErrorCode};

/// Whether the call is create_link or create_intr_chan. Only these two calls may allocate memory.
fn takes_memory(args: &Args<'_>) -> bool
    ensures { result ≡ makes_more (plain_arguments args.now) }
{
    matches!(*args, Args::CreateLink { .. } | Args::CreateIntrChan { .. })
}

/// Reads a record as a call that the event Refuse may answer: a create_link or a create_intr_chan.
/// `None` if the record is neither of these calls.
fn refusable(role: Role, bytes: &[u8]) -> Option<CoreCall<'_>>
    ensures { option_map plain_core_call result
        ≡ refusable_call (Some (request_for role (call_at bytes.now))) }
{
    match request_of(role, bytes) {
        Request::Core(call) => unless_modest(call),
        Request::NoCall | Request::Decided { .. } | Request::Abort { .. } | Request::Port { .. } =>
            None,
    }
}

/// Returns this call if it is a create_link or a create_intr_chan; else `None`.
fn unless_modest(call: CoreCall<'_>) -> Option<CoreCall<'_>>
    ensures { option_map plain_core_call result
        ≡ refusable_call (Some (CoreRequest (plain_core_call call.entry))) }
{
    if takes_memory(&call.args) {
        Some(call)
    } else {
        None
    }
}

/// Takes the next call of an open connection, and answers it with error 9 (out of resources)
/// without executing it. Fails if the next call isn't create_link or create_intr_chan, or if the
/// output has too little room for the longest reply.
pub fn refuse<A: Allocator>(connection: &mut Connection<A>, role: Role) -> Result<(), Refused>
    requires { connection.old.role ≡ Some role }
    ensures acts { (acts : List ConnAct) → IsConnection connection.old acts
        → Refuses acts result connection.new }
    ensures err { OnErr result (connection.new ≡ connection.old) }
{
    let Some(bytes) = connection.next_call() else {
        return Err(Refused::NotRefusable);
    };
    let Some(call) = refusable(role, bytes) else {
        return Err(Refused::NotRefusable);
    };
    if !connection.has_reply_room() {
        return Err(Refused::NoRoom);
    }
    let result = failure(&call.args, ErrorCode::OutOfResources);
    let xid = call.xid;
    connection.take_call();
    connection.answer(xid, &Answer::Result(result));
    Ok(())
}
