//! Interrupt channels: which links have service requests enabled, and the bytes that wait to be
//! sent on the channel of each connection.

ghost use Rattle.std.specs.Prelude.{◌≡◌, ◌<◌, ◌≤◌, ◌==◌, ◌++◌, ℕ, List, [], ◌∷◌, map, length, filter, not, slice_get, IfOk, OnOk, OnErr, false, true};
ghost use Rattle.sv_links.specs.Limits.{max_connections, max_handle, max_queued};
ghost use Rattle.sv_links.specs.Channels.{ChannelAct, SrqEnabled, SrqDisabled, ChannelOpened, ChannelClosed, Requested, ChannelTaken, is_channel_open, was_opened, enabled_links, waiting};
ghost use Rattle.sv_links.specs.ChannelRepresentation.{AreChannels, IsReady, HasRoomFor, bytes_of, without_links, of_others};

use crate::channel::Channel;
use crate::enabled::Enabled;
use crate::limits::{MAX_CONNECTIONS, MAX_ENABLED};
use crate::request::Peer;
use std::alloc::{AllocError, Allocator, Global};
use std::marker::Model;

/// The links that have service requests enabled, and the interrupt channels. Each connection has at
/// most one channel.
#[derive(Drop)]
pub struct Intr<A: Allocator = Global> {
    enabled: Vec<Enabled, A>,
    channels: Vec<Channel<A>, A>,
    /// Whether a channel was ever opened.
    opened: bool,
}

impl<A: Allocator> Model for Intr<A> {
    ghost use Rattle.sv_links.specs.ChannelRepresentation.{Channels};

    ghost Value = { Channels };

    ghost use Rattle.std.specs.Prelude.{◌≡◌, ◌≤◌, length, vec_capacity};
    ghost use Rattle.sv_links.specs.Limits.{max_connections, max_enabled};
    ghost use Rattle.sv_links.specs.ChannelRepresentation.{IsSorted};

    ghost view = { λ a. record {
      enabled = a.enabled.items;
      channels = a.channels.items;
      opened = a.opened;
    } };

    ghost invariant = { λ a. (length a.channels.items ≡ max_connections)
        × (length a.enabled.items ≤ max_enabled)
        × (max_enabled ≤ vec_capacity a.enabled) × IsSorted a.enabled.items };
}

impl<A: Allocator + Copy> Intr<A> {
    /// Makes the state in which no link has service requests enabled, and no channel is open.
    /// Allocates the memory for all handles.
    ///
    /// # Errors
    /// If memory is refused.
    pub fn new(alloc: A) -> Result<Intr<A>, AllocError>
        ensures { IfOk result (λ intr. AreChannels intr []) }
    {
        let enabled = Vec::with_capacity(alloc, MAX_ENABLED)?;
        let mut channels = Vec::with_capacity(alloc, MAX_CONNECTIONS)?;
        for _ in 0..MAX_CONNECTIONS {
            channels.push(Channel::new(alloc))?;
        }
        Ok(Intr {
            enabled,
            channels,
            opened: false,
        })
    }
}

impl<A: Allocator> Intr<A> {
    /// Whether the channel of a connection is open. `conn` must be below [`MAX_CONNECTIONS`].
    pub fn is_open(&self, conn: u8) -> bool
        requires { conn < max_connections }
        ensures { (acts : List ChannelAct) → AreChannels self.now acts
            → result ≡ is_channel_open conn acts }
    {
        self.channels[usize::from(conn)].is_open()
    }

    /// Allocates the memory of a connection's channel, so that it can be opened. If the channel is
    /// open, nothing changes. `conn` must be below [`MAX_CONNECTIONS`].
    ///
    /// # Errors
    /// If memory is refused; nothing changes then.
    pub fn prepare(&mut self, conn: u8) -> Result<(), AllocError>
        requires { conn < max_connections }
        ensures ready { OnOk result ((acts : List ChannelAct) → AreChannels self.old acts
            → is_channel_open conn acts ≡ false → IsReady self.new conn) }
        ensures others { OnOk result ((other : ℕ) → IsReady self.old other
            → IsReady self.new other) }
        ensures stands { (acts : List ChannelAct) → AreChannels self.old acts
            → AreChannels self.new acts }
        ensures enabled { self.new.enabled ≡ self.old.enabled }
        ensures err { OnErr result (self.new ≡ self.old) }
    {
        self.channels[usize::from(conn)].prepare()
    }

    /// Undoes `prepare` for a connection's channel, because the channel won't be opened. An open
    /// channel doesn't change. `conn` must be below [`MAX_CONNECTIONS`].
    pub fn cancel(&mut self, conn: u8)
        requires { conn < max_connections }
        ensures unready { IsReady self.new conn → ⊥ }
        ensures others { (other : ℕ) → (other ≡ conn → ⊥) → IsReady self.old other
            → IsReady self.new other }
        ensures stands { (acts : List ChannelAct) → AreChannels self.old acts
            → AreChannels self.new acts }
        ensures enabled { self.new.enabled ≡ self.old.enabled }
    {
        self.channels[usize::from(conn)].cancel();
    }

    /// Opens the channel of a connection, with no bytes to send. The channel must be prepared, and
    /// `conn` must be below [`MAX_CONNECTIONS`].
    pub fn open(&mut self, conn: u8, peer: Peer)
        requires { conn < max_connections }
        ensures others { (other : ℕ) → (other ≡ conn → ⊥) → IsReady self.old other
            → IsReady self.new other }
        ensures stands { IsReady self.old conn → (acts : List ChannelAct)
            → AreChannels self.old acts
            → AreChannels self.new (ChannelOpened conn peer ∷ acts) }
        ensures enabled { self.new.enabled ≡ self.old.enabled }
    {
        self.channels[usize::from(conn)].open(peer);
        self.opened = true;
    }

    /// Closes the channel of a connection, drops the bytes that wait to be sent on it, and returns
    /// whether the channel was open. `conn` must be below [`MAX_CONNECTIONS`].
    pub fn close(&mut self, conn: u8) -> bool
        requires { conn < max_connections }
        ensures answer { (acts : List ChannelAct) → AreChannels self.old acts
            → result ≡ is_channel_open conn acts }
        ensures others { (other : ℕ) → IsReady self.old other → IsReady self.new other }
        ensures stands { (acts : List ChannelAct) → AreChannels self.old acts
            → AreChannels self.new (ChannelClosed conn ∷ acts) }
        ensures enabled { self.new.enabled ≡ self.old.enabled }
    {
        let channel = &mut self.channels[usize::from(conn)];
        let was_open = channel.is_open();
        channel.close();
        was_open
    }

    /// Enables service requests of a link, with this handle of at most
    /// [`MAX_HANDLE`](crate::MAX_HANDLE) bytes. Either service requests of this link must be
    /// enabled already, or fewer than 32 links must have service requests enabled.
    pub fn enable(&mut self, lid: u32, conn: u8, handle: &[u8])
        ensures stands { length handle.now ≤ max_handle → HasRoomFor lid self.old
            → (acts : List ChannelAct) → AreChannels self.old acts
            → AreChannels self.new (SrqEnabled lid conn handle.now ∷ acts) }
        ensures ready { self.new.channels ≡ self.old.channels }
    {
        self.disable(lid);
        if self.enabled.len() >= MAX_ENABLED {
            return;
        }
        let place = self.enabled.iter().filter(|other| other.lid < lid).count();
        let _ = self.enabled.insert(place, Enabled::new(lid, conn, handle));
    }

    /// Disables service requests of a link.
    pub fn disable(&mut self, lid: u32)
        ensures value { self.new.enabled
            ≡ filter (λ other. not (other.lid == lid)) self.old.enabled }
        ensures stands { (acts : List ChannelAct) → AreChannels self.old acts
            → AreChannels self.new (SrqDisabled lid ∷ acts) }
        ensures ready { self.new.channels ≡ self.old.channels }
    {
        self.enabled.retain(|other| other.lid != lid);
    }

    /// Disables service requests of all links of a connection.
    pub fn disable_connection(&mut self, conn: u8)
        ensures stands { (lids : List ℕ) (acts : List ChannelAct) → AreChannels self.old acts
            → without_links lids self.old.enabled ≡ of_others conn self.old.enabled
            → AreChannels self.new (map SrqDisabled lids ++ acts) }
        ensures enabled { self.new.enabled ≡ of_others conn self.old.enabled }
        ensures ready { self.new.channels ≡ self.old.channels }
    {
        self.enabled.retain(|other| other.conn != conn);
    }

    /// The link with this index among the links that have service requests enabled, in the order of
    /// their numbers: its number and its connection; `None` if fewer links have service requests
    /// enabled.
    pub fn enabled_link(&self, index: u8) -> Option<(u32, u8)>
        ensures { (acts : List ChannelAct) → AreChannels self.now acts
            → result ≡ slice_get (map (λ link. (link.lid, link.conn)) (enabled_links acts)) index }
    {
        let link = self.enabled.get(usize::from(index))?;
        Some((link.lid, link.conn))
    }

    /// Raises a service request: goes through the links that have service requests enabled, in the
    /// order of their numbers, and appends a call on the channel of each link's connection. No call
    /// is appended if that channel is closed, if 32 calls wait on that channel, or if the numbers
    /// for its calls are used up.
    pub fn raise(&mut self)
        ensures stands { (acts : List ChannelAct) → AreChannels self.old acts
            → AreChannels self.new (Requested ∷ acts) }
        ensures ready { (other : ℕ) → IsReady self.old other → IsReady self.new other }
        ensures enabled { self.new.enabled ≡ self.old.enabled }
    {
        for conn in 0..MAX_CONNECTIONS {
            self.channels[conn].request_each(conn as u8, self.enabled.as_slice());
        }
    }

    /// Whether a channel was ever opened.
    pub fn was_opened(&self) -> bool
        ensures { (acts : List ChannelAct) → AreChannels self.now acts → result ≡ was_opened acts }
    {
        self.opened
    }

    /// The bytes that wait to be sent on the channel of a connection; none if the channel isn't
    /// open. `conn` must be below [`MAX_CONNECTIONS`].
    pub fn waiting(&self, conn: u8) -> &[u8]
        requires { conn < max_connections }
        ensures same { result.now ≡ bytes_of self.now conn }
        ensures answer { (acts : List ChannelAct) → AreChannels self.now acts
            → result.now ≡ waiting conn acts }
        ensures bounded { length result.now ≤ max_queued }
    {
        let channel = &self.channels[usize::from(conn)];
        if channel.is_open() {
            channel.waiting()
        } else {
            &[]
        }
    }

    /// Drops the first `count` of the bytes that wait to be sent on the channel of a connection,
    /// because the peer took them. At least `count` bytes must wait, and `conn` must be below
    /// [`MAX_CONNECTIONS`].
    pub fn take(&mut self, conn: u8, count: usize)
        requires within { conn < max_connections }
        requires waits { count ≤ length (bytes_of self.old conn) }
        ensures stands { (acts : List ChannelAct) → AreChannels self.old acts
            → is_channel_open conn acts ≡ true
            → AreChannels self.new (ChannelTaken conn count ∷ acts) }
        ensures ready { (other : ℕ) → IsReady self.old other → IsReady self.new other }
        ensures enabled { self.new.enabled ≡ self.old.enabled }
    {
        self.channels[usize::from(conn)].take(count);
    }
}
