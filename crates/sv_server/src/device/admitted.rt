//! A call of the core channel that can be executed.

ghost use Rattle.std.specs.Prelude.{◌≡◌};
ghost use Rattle.sv_server.specs.Device.Inside.Outcome.{makes_link};

use sv_vxi::LinkCall;

/// A call that nothing stops.
#[derive(Clone, Copy)]
pub enum Admitted<'a> {
    /// create_link.
    CreateLink {
        /// Whether the link gets the lock.
        lock_device: bool,
    },
    /// A call on a link. A write has at most 4,096 bytes.
    OnLink {
        /// The link.
        lid: u32,
        /// The call and its other arguments.
        call: LinkCall<'a>,
    },
    /// destroy_intr_chan.
    DestroyIntrChan,
}

impl Admitted<'_> {
    /// Whether the call is create_link.
    pub fn is_create_link(&self) -> bool
        ensures { result ≡ makes_link self.now }
    {
        matches!(*self, Admitted::CreateLink { .. })
    }
}
