//! Links that have service requests enabled (VXI-11 revision 1.0, device_enable_srq).

ghost use Rattle.std.specs.Prelude.{◌≡◌, ◌≤◌, length};
ghost use Rattle.sv_links.specs.Limits.{max_handle};

use crate::limits::MAX_HANDLE;
use arrayvec::ArrayVec;
use std::marker::Model;

/// The handle by which a controller identifies a link: at most [`MAX_HANDLE`] bytes.
#[derive(Drop)]
pub(crate) struct Handle {
    bytes: ArrayVec<u8, MAX_HANDLE>,
}

impl Model for Handle {
    ghost use Rattle.std.specs.Prelude.{ℕ, List};

    ghost Value = { List ℕ };

    ghost view = { λ handle. handle.bytes.items };
}

impl Handle {
    /// Makes a handle of these bytes; an empty handle if there are more than [`MAX_HANDLE`] bytes.
    fn new(given: &[u8]) -> Handle
        ensures { length given.now ≤ max_handle → result ≡ given.now }
    {
        let mut bytes = ArrayVec::new();
        if bytes.try_extend_from_slice(given).is_err() {
            bytes.clear();
        }
        Handle { bytes }
    }

    /// The bytes of the handle.
    fn bytes(&self) -> &[u8]
        ensures same { result.now ≡ self.now }
        ensures short { length result.now ≤ max_handle }
    {
        self.bytes.as_slice()
    }
}

/// A link that has service requests enabled.
#[derive(Drop)]
pub(crate) struct Enabled {
    /// The number of the link.
    pub(crate) lid: u32,
    /// The connection that made the link.
    pub(crate) conn: u8,
    /// The handle that the controller passed when it last enabled service requests of the link.
    pub(crate) handle: Handle,
}

impl Enabled {
    /// Makes a link that has service requests enabled, with this handle of at most [`MAX_HANDLE`]
    /// bytes.
    pub(crate) fn new(lid: u32, conn: u8, handle: &[u8]) -> Enabled
        ensures link { (result.lid ≡ lid) × (result.conn ≡ conn) }
        ensures handle { length handle.now ≤ max_handle → result.handle ≡ handle.now }
    {
        Enabled {
            lid,
            conn,
            handle: Handle::new(handle),
        }
    }

    /// The bytes of the link's handle.
    pub(crate) fn handle(&self) -> &[u8]
        ensures same { result.now ≡ self.now.handle }
        ensures short { length result.now ≤ max_handle }
    {
        self.handle.bytes()
    }
}
