//! One interrupt channel: the calls that wait to be sent on it.

ghost use Rattle.std.specs.Prelude.{◌≡◌, ◌+◌, ◌≤◌, ℕ, List, [], length, OnOk, OnErr, is_some, Some, None, true, false};
ghost use Rattle.std.specs.List.{fold};
ghost use Rattle.sv_links.specs.Limits.{max_handle, max_queued};
ghost use Rattle.sv_links.specs.Channels.{add_call, handles_of};
ghost use Rattle.sv_links.specs.ChannelRepresentation.{opened_for, is_prepared, IsQueued, left_in};

use crate::enabled::Enabled;
use crate::limits::{MAX_CALLS, MAX_QUEUED};
use crate::request::{Peer, put_request};
use arrayvec::ArrayVec;
use std::alloc::{AllocError, Allocator};
use std::marker::Model;
use sv_bytes::drop_front;

/// The state of an interrupt channel.
#[derive(Clone, Copy, PartialEq, Eq)]
pub(crate) enum Stage {
    /// The channel is closed.
    Closed,
    /// The memory of the channel is allocated, and the channel can be opened.
    Prepared,
    /// The channel is open to this peer.
    Open(Peer),
}

/// The interrupt channel of a connection.
#[derive(Drop)]
pub(crate) struct Channel<A: Allocator> {
    stage: Stage,
    /// How many device_intr_srq calls were appended since the channel was opened, including those
    /// that still wait to be sent.
    made: u32,
    /// How many bytes are still to be sent of each call that the peer didn't take completely.
    sizes: ArrayVec<u8, MAX_CALLS>,
    /// The bytes that wait to be sent.
    bytes: Vec<u8, A>,
}

impl<A: Allocator> Model for Channel<A> {
    ghost use Rattle.sv_links.specs.ChannelRepresentation.{Channel};

    ghost Value = { Channel };

    ghost use Rattle.std.specs.Prelude.{◌≡◌, ◌≤◌, length, vec_capacity, sum};
    ghost use Rattle.std.specs.List.{AllByRecursion};
    ghost use Rattle.sv_links.specs.Limits.{max_calls, longest_call, max_queued};
    ghost use Rattle.sv_links.specs.declared.channel.Stage.TheVariants.{Closed};

    ghost view = { λ a. record {
      stage = a.stage;
      made = a.made;
      sizes = a.sizes.items;
      bytes = a.bytes.items;
    } };

    ghost invariant = { λ a. (length a.bytes.items ≡ sum a.sizes.items)
        × AllByRecursion (λ size. size ≤ longest_call) a.sizes.items
        × (length a.sizes.items ≤ max_calls)
        × ((a.stage ≡ Closed → ⊥) → max_queued ≤ vec_capacity a.bytes) };
}

impl<A: Allocator> Channel<A> {
    /// Makes a closed channel.
    pub(crate) fn new(alloc: A) -> Channel<A>
        ensures { result.stage ≡ Stage.Closed }
    {
        Channel {
            stage: Stage::Closed,
            made: 0,
            sizes: ArrayVec::new(),
            bytes: Vec::new(alloc),
        }
    }

    /// Whether the channel is open.
    pub(crate) fn is_open(&self) -> bool
        ensures { result ≡ is_some (opened_for self.now.stage) }
    {
        matches!(self.stage, Stage::Open(_))
    }

    /// Allocates the memory of the channel, so that it can be opened. An open channel doesn't
    /// change.
    pub(crate) fn prepare(&mut self) -> Result<(), AllocError>
        ensures open { OnOk result (opened_for self.new.stage ≡ opened_for self.old.stage) }
        ensures ready { OnOk result (opened_for self.old.stage ≡ None
            → is_prepared self.new.stage ≡ true) }
        ensures stays { OnOk result (is_prepared self.old.stage ≡ true
            → is_prepared self.new.stage ≡ true) }
        ensures queued { (count : ℕ) (calls : List (List ℕ)) → IsQueued self.old count calls
            → IsQueued self.new count calls }
        ensures err { OnErr result (self.new ≡ self.old) }
    {
        if self.stage == Stage::Closed {
            self.bytes.reserve(MAX_QUEUED)?;
            self.stage = Stage::Prepared;
        }
        Ok(())
    }

    /// Undoes `prepare`, because the channel won't be opened. An open channel doesn't change.
    pub(crate) fn cancel(&mut self)
        ensures open { opened_for self.new.stage ≡ opened_for self.old.stage }
        ensures unready { is_prepared self.new.stage ≡ false }
        ensures queued { (count : ℕ) (calls : List (List ℕ)) → IsQueued self.old count calls
            → IsQueued self.new count calls }
    {
        if self.stage == Stage::Prepared {
            self.stage = Stage::Closed;
        }
    }

    /// Opens the channel, with no bytes to send. A channel that isn't prepared doesn't change.
    pub(crate) fn open(&mut self, peer: Peer)
        ensures { is_prepared self.old.stage ≡ true
            → (opened_for self.new.stage ≡ Some peer) × IsQueued self.new 0 [] }
    {
        if self.stage == Stage::Prepared {
            self.clear();
            self.stage = Stage::Open(peer);
        }
    }

    /// Closes the channel, if it is open.
    pub(crate) fn close(&mut self)
        ensures closed { opened_for self.new.stage ≡ None }
        ensures ready { is_prepared self.new.stage ≡ is_prepared self.old.stage }
    {
        if self.is_open() {
            self.clear();
            self.stage = Stage::Closed;
        }
    }

    /// Drops all calls that wait, and sets the count of calls to 0.
    fn clear(&mut self)
        ensures stage { self.new.stage ≡ self.old.stage }
        ensures queued { IsQueued self.new 0 [] }
    {
        self.made = 0;
        self.sizes.clear();
        self.bytes.clear();
    }

    /// The bytes that wait to be sent.
    pub(crate) fn waiting(&self) -> &[u8]
        ensures same { result.now ≡ self.now.bytes }
        ensures bounded { length result.now ≤ max_queued }
    {
        self.bytes.as_slice()
    }

    /// Drops the first `count` of the bytes that wait, because the peer took them.
    pub(crate) fn take(&mut self, count: usize)
        requires { count ≤ length self.old.bytes }
        ensures stage { self.new.stage ≡ self.old.stage }
        ensures queued { (before : ℕ) (calls : List (List ℕ)) → IsQueued self.old before calls
            → IsQueued self.new (before + count) calls }
    {
        drop_front(&mut self.bytes, count);
        let_go(&mut self.sizes, count);
    }

    /// Appends a service request (device_intr_srq) with this handle to the calls that wait for the
    /// peer. Nothing is appended if [`MAX_CALLS`] calls wait already, or if the numbers for calls
    /// are used up.
    fn request(&mut self, peer: Peer, handle: &[u8])
        requires open { self.old.stage ≡ Stage.Open peer }
        requires short { length handle.now ≤ max_handle }
        ensures stage { self.new.stage ≡ self.old.stage }
        ensures queued { (count : ℕ) (calls : List (List ℕ)) → IsQueued self.old count calls
            → IsQueued self.new count
            (add_call (Some peer) count calls handle.now) }
    {
        if self.sizes.len() >= MAX_CALLS || self.made == u32::MAX {
            return;
        }
        let before = self.bytes.len();
        put_request(&mut self.bytes, self.made + 1, peer, handle);
        self.sizes.push((self.bytes.len() - before) as u8);
        self.made += 1;
    }

    /// If the channel is open, appends a call for each link in `enabled` that connection `conn`
    /// made.
    pub(crate) fn request_each(&mut self, conn: u8, enabled: &[Enabled])
        ensures stage { self.new.stage ≡ self.old.stage }
        ensures queued { (count : ℕ) (calls : List (List ℕ)) (peer : Peer)
            → opened_for self.old.stage ≡ Some peer → IsQueued self.old count calls
            → IsQueued self.new count
            (fold (add_call (Some peer) count) calls (handles_of conn enabled.now)) }
    {
        let Stage::Open(peer) = self.stage else {
            return;
        };
        for link in enabled {
            if link.conn == conn {
                self.request(peer, link.handle());
            }
        }
    }
}

/// Subtracts `count` bytes from the sizes of calls, beginning with the first call. A call of which
/// no byte remains is dropped.
fn let_go(sizes: &mut ArrayVec<u8, MAX_CALLS>, count: usize)
    ensures { sizes.new.items ≡ left_in count sizes.old.items }
{
    let mut left = count;
    while let Some(size) = sizes.as_slice().first().copied() {
        if left < usize::from(size) {
            sizes.as_mut_slice()[0] = size - left as u8;
            return;
        }
        left -= usize::from(size);
        sizes.remove(0);
    }
}
