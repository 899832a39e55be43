//! The abort channel (VXI-11 revision 1.0, section B.6).

ghost use Rattle.std.specs.Prelude.{◌≡◌, ◌&&◌, List, [], Some, is_some};
ghost use Rattle.sv_vxi.specs.Results.{plain_result, data_of};
ghost use Rattle.sv_links.specs.Links.{is_this as is_this_link};
ghost use Rattle.sv_history.specs.declared.event.Config.{Config};
ghost use Rattle.sv_links.specs.Waiting.{waits, link};
ghost use Rattle.sv_history.specs.Act.{DeviceAct, wait_acts};
ghost use Rattle.sv_server.specs.Device.Representation.{IsDevice};
ghost use Rattle.sv_history.specs.CoreCall.{lid_of as lid_for};
ghost use Rattle.sv_history.specs.AbortChannel.{owner_of as owner_for, if_waiting as where_waiting_with, abort_result as result_of};

use crate::device::Device;
use crate::device::arguments::lid_of;
use crate::device::error_results::plain;
use std::alloc::Allocator;
use sv_vxi::{ErrorCode, VxiResult};

/// Whether `named`, the link that a call names, is the link `lid`.
fn is_this(lid: u32, named: Option<u32>) -> bool
    ensures { result ≡ is_this_link lid named }
{
    match named {
        Some(named) => named == lid,
        None => false,
    }
}

impl<A: Allocator> Device<A> {
    /// The result of a device_abort that names this link, and the connection whose suspended call
    /// it ends; `None` if it ends no call.
    pub fn abort(&self, lid: i32) -> (VxiResult<'static>, Option<u8>)
        ensures answer { (config : Config) (acts : List DeviceAct) → IsDevice self.now config acts
            → plain_result result.0 ≡ result_of (lid_for (Some lid)) acts }
        ensures conn { (config : Config) (acts : List DeviceAct) → IsDevice self.now config acts
            → result.1 ≡ where_waiting_with (owner_for (lid_for (Some lid)) acts)
            (lid_for (Some lid)) acts }
        ensures short { data_of (plain_result result.0) ≡ [] }
    {
        let lid = lid_of(Some(lid));
        (self.abort_result(lid), self.aborted(lid))
    }

    /// The connection that made a link; `None` if there is no such link.
    fn owner_of(&self, lid: Option<u32>) -> Option<u8>
        ensures { (config : Config) (acts : List DeviceAct) → IsDevice self.now config acts
            → result ≡ owner_for lid acts }
    {
        self.links.owner(lid?)
    }

    /// Whether the connection has a suspended call that names this link.
    fn waits_with(&self, conn: u8, lid: u32) -> bool
        ensures { (config : Config) (acts : List DeviceAct) → IsDevice self.now config acts
            → result ≡ (is_some (waits conn (wait_acts acts))
            && is_this_link lid (link conn (wait_acts acts))) }
    {
        match self.waiting.of(conn) {
            Some(entry) => is_this(lid, entry.lid),
            None => false,
        }
    }

    /// Returns `conn` if this connection has a suspended call that names the link, else `None`.
    fn if_waiting(&self, conn: u8, lid: Option<u32>) -> Option<u8>
        ensures { (config : Config) (acts : List DeviceAct) → IsDevice self.now config acts
            → result ≡ where_waiting_with (Some conn) lid acts }
    {
        if self.waits_with(conn, lid?) {
            Some(conn)
        } else {
            None
        }
    }

    /// The connection whose suspended call a device_abort of this link ends: the connection that
    /// made the link, if its suspended call names the link. Else `None`.
    fn aborted(&self, lid: Option<u32>) -> Option<u8>
        ensures { (config : Config) (acts : List DeviceAct) → IsDevice self.now config acts
            → result ≡ where_waiting_with (owner_for lid acts) lid acts }
    {
        self.if_waiting(self.owner_of(lid)?, lid)
    }

    /// The result of a device_abort that names this link.
    fn abort_result(&self, lid: Option<u32>) -> VxiResult<'static>
        ensures answer { (config : Config) (acts : List DeviceAct) → IsDevice self.now config acts
            → plain_result result ≡ result_of lid acts }
        ensures short { data_of (plain_result result) ≡ [] }
    {
        if self.owner_of(lid).is_some() {
            plain(ErrorCode::NoError)
        } else {
            plain(ErrorCode::InvalidLink)
        }
    }
}
