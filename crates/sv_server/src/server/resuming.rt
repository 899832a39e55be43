//! Reading the record of a suspended call again, and continuing the call.

ghost use Rattle.std.specs.Prelude.{◌≡◌, ◌<◌, ℕ, List, true, false, is_some};
ghost use Rattle.sv_links.specs.Queue.{without, queue_measure};
ghost use Rattle.sv_history.specs.declared.event.Config.{Config};
ghost use Rattle.sv_history.specs.Act.{ConnAct, DeviceAct};
ghost use Rattle.sv_history.specs.Connection.{pending_call, is_busy};
ghost use Rattle.sv_history.specs.Request.{core_call_in};
ghost use Rattle.sv_server.specs.Connection.Representation.{IsConnection};
ghost use Rattle.sv_server.specs.Device.Inside.Outcome.{IsDeviceAt, IsNearer, MayResume, is_able};
ghost use Rattle.sv_server.specs.Server.Inside.Ending.{HasPlaceOfLink, ConcludesResumed, continued};

use crate::conn::Conn;
use crate::connection::Connection;
use crate::device::Device;
use crate::device::resuming::WakeReason;
use crate::server::turn::conclude;
use std::alloc::Allocator;

/// Continues a suspended call: executes it, suspends it anew, or ends it. The call's record is
/// decoded again, with the same result as when it was taken.
pub fn continue_call<A: Allocator>(
    connection: &mut Connection<A>,
    device: &mut Device<A>,
    conn: Conn,
    reason: WakeReason,
)
    requires { IsNearer reason conn.number device.old.waiting }
    ensures concludes { (config : Config) (polled : ℕ) (acts : List ConnAct)
        (before : List DeviceAct) → IsConnection connection.old acts → is_busy acts ≡ true
        → IsDeviceAt device.old config polled before
        → MayResume reason conn.number (HasPlaceOfLink (core_call_in (pending_call acts))
        conn.number device.old before) before
        → ConcludesResumed (continued reason config polled conn.number
        (core_call_in (pending_call acts)) before) conn.number (core_call_in (pending_call acts))
        config acts before device.old.waiting connection.new device.new }
    ensures left { is_able reason ≡ false
        → device.new.waiting ≡ without conn.number device.old.waiting }
    ensures measure { is_able reason ≡ true → queue_measure device.new.waiting
        < queue_measure device.old.waiting }
{
    let Some(call) = connection.taken_call() else {
        device.end_wait(conn);
        return;
    };
    let xid = call.xid;
    let outcome = device.continue_call(conn, reason, &call.args);
    conclude(xid, outcome, connection, device);
}
