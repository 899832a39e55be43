//! Suspended calls (VXI-11 revision 1.0, section B.4.4).

ghost use Rattle.std.specs.Prelude.{◌≡◌, ◌<◌, ◌≤◌, ◌++◌, ℕ, List, [], ◌∷◌, ◌+◌, map, option_map, Some, None, true, IfOk, IfSome, MatchOption};
ghost use Rattle.sv_links.specs.Limits.{max_connections, max_waiting};
ghost use Rattle.sv_links.specs.Links.{is_locked_out as locked_out};
ghost use Rattle.sv_links.specs.Waiting.{WaitAct, Entered, Again, Left, waits as waits_for, is_there, creating, IsAble, IsExpired, IsOldest};
ghost use Rattle.sv_links.specs.Queue.{entry_of, IsQueue, IsEntry, anew, without, creates, creations, wait_measure, queue_measure, is_past};

use crate::limits::MAX_WAITING;
use std::alloc::{AllocError, Allocator, Global};
use std::marker::Model;

/// What a suspended call waits for.
#[derive(Clone, Copy)]
pub enum Wait {
    /// The call waits until no other link holds the lock.
    Lock,
    /// The call waits until the device accepts a write.
    Input,
    /// The call waits until the device answers a read.
    Response,
    /// The call waits until the driver's attempt to connect to the interrupt channel's peer has
    /// ended.
    Dial,
}

/// A suspended call.
#[derive(Clone, Copy)]
pub struct Entry {
    /// The connection of the call, below [`MAX_CONNECTIONS`](crate::MAX_CONNECTIONS).
    pub conn: u8,
    /// The link that the call names; `None` if the call names no link, such as a create_link.
    pub lid: Option<u32>,
    /// What the call waits for.
    pub wait: Wait,
    /// The time of the clock at which the call times out, in milliseconds; `None` if the call never
    /// times out.
    pub deadline: Option<u64>,
}

/// Whether a link other than the named one holds the lock; if no link is named, whether any link
/// holds it.
pub fn is_locked_out(holder: Option<u32>, named: Option<u32>) -> bool
    ensures { result ≡ locked_out holder named }
{
    match holder {
        Some(holder) => match named {
            Some(lid) => lid != holder,
            None => true,
        },
        None => false,
    }
}

impl Entry {
    /// Whether the call can resume: it waits for the lock, and no link other than the one that it
    /// names holds the lock; it waits for the device to accept a write, and `can_write` is true; or
    /// it waits for the device to answer a read, and `can_read` is true.
    fn is_able(&self, holder: Option<u32>, can_write: bool, can_read: bool) -> bool
        ensures { result ≡ is_there holder can_write can_read self.now.lid (Some self.now.wait) }
    {
        match self.wait {
            Wait::Lock => !is_locked_out(holder, self.lid),
            Wait::Input => can_write,
            Wait::Response => can_read,
            Wait::Dial => false,
        }
    }

    /// Whether the deadline of the call has come by the time `clock`; false if the call has no
    /// deadline.
    fn has_expired(&self, clock: u64) -> bool
        ensures { result ≡ is_past clock self.now.deadline }
    {
        match self.deadline {
            Some(deadline) => deadline <= clock,
            None => false,
        }
    }

    /// Whether the call is a create_link: only a create_link waits for the lock and names no link.
    fn creates(&self) -> bool
        ensures { result ≡ creates self.now }
    {
        match self.wait {
            Wait::Lock => self.lid.is_none(),
            Wait::Input | Wait::Response | Wait::Dial => false,
        }
    }

    /// If this is the call of connection `conn`, replaces what the call waits for by `wait`, and
    /// its deadline by `deadline`.
    fn renew(&mut self, conn: u8, wait: Wait, deadline: Option<u64>)
        ensures { self.new ≡ anew conn wait deadline self.old }
    {
        if self.conn == conn {
            self.wait = wait;
            self.deadline = deadline;
        }
    }
}

/// The suspended calls, at most one of each connection, in the order in which they were suspended.
#[derive(Drop)]
pub struct Waiting<A: Allocator = Global> {
    entries: Vec<Entry, A>,
}

impl<A: Allocator> Model for Waiting<A> {
    ghost use Rattle.std.specs.Prelude.{List};
    ghost use Rattle.sv_links.specs.declared.waiting.Entry.{Entry};

    ghost Value = { List Entry };

    ghost use Rattle.std.specs.Prelude.{◌≤◌, vec_capacity};
    ghost use Rattle.sv_links.specs.Limits.{max_connections, max_waiting};
    ghost use Rattle.sv_links.specs.Queue.{IsOnce, IsBelow};

    ghost view = { λ a. a.entries.items };

    ghost invariant = { λ a. IsOnce a.entries.items × IsBelow max_connections a.entries.items
        × (max_waiting ≤ vec_capacity a.entries) };
}

impl<A: Allocator> Waiting<A> {
    /// Makes an empty queue, and allocates the memory for as many calls as can be suspended.
    ///
    /// # Errors
    /// If memory is refused.
    pub fn new(alloc: A) -> Result<Waiting<A>, AllocError>
        ensures { IfOk result (λ waiting. IsQueue waiting []) }
    {
        Ok(Waiting {
            entries: Vec::with_capacity(alloc, MAX_WAITING)?,
        })
    }

    /// Suspends a call, and puts it at the end of the queue. The call's connection must be below
    /// [`MAX_CONNECTIONS`](crate::MAX_CONNECTIONS).
    pub fn enter(&mut self, entry: Entry)
        requires { entry.conn < max_connections }
        ensures value { self.new ≡ without entry.conn self.old ++ entry ∷ [] }
        ensures stands { (acts : List WaitAct) → IsQueue self.old acts → IsQueue self.new
            (Entered entry.conn entry.lid entry.wait entry.deadline ∷ acts) }
    {
        self.leave(entry.conn);
        self.entries.push_reserved(entry);
    }

    /// The suspended call of a connection; `None` if the connection has no suspended call.
    pub fn of(&self, conn: u8) -> Option<Entry>
        ensures { (acts : List WaitAct) → IsQueue self.now acts
            → MatchOption result (waits_for conn acts ≡ None)
            (λ entry. (entry.conn ≡ conn) × IsEntry acts entry) }
    {
        self.entries
            .iter()
            .find(|entry| entry.conn == conn)
            .copied()
    }

    /// What the suspended call of a connection waits for; `None` if the connection has no suspended
    /// call.
    pub fn waits(&self, conn: u8) -> Option<Wait>
        ensures { (acts : List WaitAct) → IsQueue self.now acts → result ≡ waits_for conn acts }
    {
        let entry = self.of(conn)?;
        Some(entry.wait)
    }

    /// How many create_links are suspended. Each of them waits for the lock.
    pub fn creating(&self) -> u8
        ensures value { result ≡ creations self.now }
        ensures bounded { result ≤ max_waiting }
        ensures answer { (acts : List WaitAct) → IsQueue self.now acts → result ≡ creating acts }
    {
        self.entries.iter().filter(|entry| entry.creates()).count() as u8
    }

    /// Lets the suspended call of a connection wait for something else: for `wait`, until
    /// `deadline`. The call keeps its place in the queue. If the connection has no suspended call,
    /// nothing changes.
    pub fn again(&mut self, conn: u8, wait: Wait, deadline: Option<u64>)
        ensures value { self.new ≡ map (anew conn wait deadline) self.old }
        ensures stands { (acts : List WaitAct) → IsQueue self.old acts
            → IsQueue self.new (Again conn wait deadline ∷ acts) }
        ensures measure { queue_measure self.new ≤ queue_measure (without conn self.old)
            + wait_measure wait }
        ensures fewer { (wait ≡ Wait.Lock → ⊥)
            → creations self.new ≤ creations (without conn self.old) }
    {
        for entry in self.entries.iter_mut() {
            entry.renew(conn, wait, deadline);
        }
    }

    /// Removes the suspended call of a connection from the queue, if there is such a call.
    pub fn leave(&mut self, conn: u8)
        ensures value { self.new ≡ without conn self.old }
        ensures stands { (acts : List WaitAct) → IsQueue self.old acts
            → IsQueue self.new (Left conn ∷ acts) }
    {
        self.entries.retain(|entry| entry.conn != conn);
    }

    /// The oldest call that can resume; `None` if no call can. `holder` is the link that holds the
    /// lock. `can_write` says whether the device accepts a write now. `can_read` says whether the
    /// device answers a read now.
    #[inline(always)]
    pub fn oldest_able(&self, holder: Option<u32>, can_write: bool, can_read: bool) -> Option<Entry>
        ensures answer { (acts : List WaitAct) → IsQueue self.now acts
            → IsOldest acts (IsAble holder can_write can_read acts)
            (option_map (λ entry. entry.conn) result) }
        ensures entry { (acts : List WaitAct) → IsQueue self.now acts
            → IfSome result (λ entry. IsEntry acts entry) }
        ensures within { IfSome result (λ entry. (entry.conn < max_connections)
            × (entry_of entry.conn self.now ≡ Some entry)) }
        ensures measure { IfSome result (λ entry. queue_measure (without entry.conn self.now)
            + wait_measure entry.wait ≤ queue_measure self.now) }
        ensures fewer { IfSome result (λ entry. creates entry ≡ true
            → creations (without entry.conn self.now) + 1 ≤ creations self.now) }
    {
        self.entries
            .iter()
            .find(|entry| entry.is_able(holder, can_write, can_read))
            .copied()
    }

    /// The oldest call whose deadline has come by the time `clock`; `None` if no deadline has come.
    pub fn expired(&self, clock: u64) -> Option<Entry>
        ensures answer { (acts : List WaitAct) → IsQueue self.now acts
            → IsOldest acts (IsExpired clock acts) (option_map (λ entry. entry.conn) result) }
        ensures entry { (acts : List WaitAct) → IsQueue self.now acts
            → IfSome result (λ entry. IsEntry acts entry) }
        ensures within { IfSome result (λ entry. (entry.conn < max_connections)
            × (entry_of entry.conn self.now ≡ Some entry)) }
        ensures measure { IfSome result (λ entry. queue_measure (without entry.conn self.now)
            + wait_measure entry.wait ≤ queue_measure self.now) }
    {
        self.entries
            .iter()
            .find(|entry| entry.has_expired(clock))
            .copied()
    }
}
