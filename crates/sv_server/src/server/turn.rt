//! Taking and executing a connection's next call.

ghost use Rattle.std.specs.Prelude.{◌≡◌, List, Some, OnErr, true, is_some};
ghost use Rattle.sv_history.specs.declared.event.Config.{Config};
ghost use Rattle.sv_history.specs.Act.{Act, ConnAct, DeviceAct, of, device_acts};
ghost use Rattle.sv_history.specs.Connection.{is_busy};
ghost use Rattle.sv_history.specs.Effect.{Effect};
ghost use Rattle.sv_server.specs.Connection.Representation.{IsConnection};
ghost use Rattle.sv_server.specs.Device.Representation.{IsDevice};
ghost use Rattle.sv_server.specs.Server.Inside.Acting.{Turns};
ghost use Rattle.sv_server.specs.Server.Inside.Ending.{Concludes, EndsAs};
ghost use Rattle.sv_server.specs.Device.Inside.Outcome.{IsBrief};

use crate::conn::Conn;
use crate::connection::Connection;
use crate::connection::request::request_of;
use crate::device::Device;
use crate::outcome::Outcome;
use crate::server::execution::execute;
use std::alloc::Allocator;
use sv_history::{Did, Refused, Role};

/// Takes the next call of an open connection and executes it. Does nothing if there is no call.
/// Refuses the Turn if the output has too little room for the longest reply. For a device_abort
/// that ends a suspended call, returns also the connection of that call, which isn't ended yet.
pub fn turn<A: Allocator>(
    connection: &mut Connection<A>,
    device: &mut Device<A>,
    conn: Conn,
    role: Role,
) -> Result<(Did, Option<u8>), Refused>
    requires { connection.old.role ≡ Some role }
    ensures acts { (config : Config) (log : List Act)
        → IsConnection connection.old (of conn.number log)
        → IsDevice device.old config (device_acts log)
        → Turns config conn.number log device.old.waiting result connection.new device.new }
    ensures err { OnErr result ((connection.new ≡ connection.old) × (device.new ≡ device.old)) }
{
    let Some(call) = connection.next_call() else {
        return Ok((Did::Idle, None));
    };
    if !connection.has_reply_room() {
        return Err(Refused::NoRoom);
    }
    let request = request_of(role, call);
    let xid = request.xid();
    let Ok((outcome, aborted)) = execute(device, conn, &request) else {
        return Err(Refused::NoMemory);
    };
    connection.take_call();
    conclude(xid, outcome, connection, device);
    Ok((Did::Done, aborted))
}

/// Finishes a record that was taken, or a suspended call that continues: appends the reply to the
/// outgoing bytes, or drops the record if it isn't a call. Does nothing if the call is suspended.
pub fn conclude<A: Allocator>(
    xid: u32,
    outcome: Outcome,
    connection: &mut Connection<A>,
    device: &mut Device<A>,
)
    requires { IsBrief outcome }
    ensures ends { (config : Config) (acts : List ConnAct) (before : List DeviceAct)
        (effect : Effect)
        → IsConnection connection.old acts → is_busy acts ≡ true
        → EndsAs outcome xid device.old config before effect
        → Concludes effect config acts before connection.new device.new }
    ensures waiting { device.new.waiting ≡ device.old.waiting }
{
    match outcome {
        Outcome::Fault => connection.fault(),
        Outcome::Reply(answer) => connection.answer(xid, &answer),
        Outcome::Response { most, term } => device.answer_read(xid, most, term, connection),
        Outcome::Suspended => {}
    }
}
