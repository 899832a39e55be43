//! Executes a record that was taken.

ghost use Rattle.std.specs.Prelude.{◌≡◌, ℕ};
ghost use Rattle.sv_rpc.specs.Ports.{port_at};
ghost use Rattle.sv_history.specs.Execution.{port_reply};
ghost use Rattle.sv_server.specs.Connection.Inside.Requests.{plain_request};
ghost use Rattle.sv_server.specs.Connection.Inside.Replies.{answer_bytes, IsShort};
ghost use Rattle.sv_server.specs.Server.Inside.Ending.{Executes};

use crate::conn::Conn;
use crate::connection::request::Request;
use crate::device::Device;
use crate::outcome::{Answer, Outcome};
use std::alloc::{AllocError, Allocator};
use sv_rpc::{Ports, Reply, getport};

/// The answer to a GETPORT with these arguments (RFC 1833, section 3).
fn port_answer(ports: Ports, args: &[u8]) -> Answer<'static>
    ensures answer { (xid : ℕ) → answer_bytes xid result ≡ port_reply xid (port_at ports args.now) }
    ensures short { IsShort result }
{
    match getport(args, ports) {
        Ok(port) => Answer::Port(port),
        Err(_) => Answer::Header(Reply::GarbageArgs),
    }
}

/// Executes the request of a record, but doesn't write the reply. Returns its outcome; and for a
/// device_abort that ends a suspended call, the connection of that call, which isn't ended yet.
pub fn execute<A: Allocator>(
    device: &mut Device<A>,
    conn: Conn,
    request: &Request<'_>,
) -> Result<(Outcome, Option<u8>), AllocError>
    ensures { Executes (plain_request request.now) result conn.number device.old device.new }
{
    match *request {
        Request::NoCall => Ok((Outcome::Fault, None)),
        Request::Decided { reply, .. } => Ok((Outcome::Reply(Answer::Header(reply)), None)),
        Request::Core(call) => Ok((device.admit(conn, &call.args)?, None)),
        Request::Abort { lid, .. } => {
            let (given, aborted) = device.abort(lid);
            Ok((Outcome::Reply(Answer::Result(given)), aborted))
        }
        Request::Port { args, .. } => {
            Ok((Outcome::Reply(port_answer(device.ports(), args)), None))
        }
    }
}
