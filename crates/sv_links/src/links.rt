//! Links: which links exist, which connection made each, and which link holds the lock.

ghost use Rattle.std.specs.Prelude.{◌≡◌, ◌+◌, ◌<◌, ◌≤◌, ◌^◌, ◌↔◌, not, ℕ, List, [], ◌∷◌, ◌++◌, length, find, nat_lt, IfOk, OnOk, OnErr, IsOk, Some, Err, true, false};
ghost use Rattle.sv_links.specs.Limits.{max_links};
ghost use Rattle.sv_links.specs.Links.{LinkAct, Made, Destroyed, Locked, Unlocked, closing, links_made, live, lids_left, owner, may_make, holder, is_locked_out, is_this};
ghost use Rattle.sv_links.specs.Table.{IsTable, count_of};

use crate::limits::MAX_LINKS;
use slab::Slab;
use std::alloc::{AllocError, Allocator, Global};
use std::marker::Model;
use thiserror::Error;

/// The highest number that a link can have.
const LAST: u32 = i32::MAX as u32;

/// A link that wasn't destroyed.
#[derive(Clone, Copy)]
pub struct Link {
    /// The number of the link.
    pub lid: u32,
    /// The connection that made the link.
    pub conn: u8,
}

/// Why no link was made.
#[derive(Clone, Copy, Debug, Error)]
pub enum CreateRefused {
    /// There are [`MAX_LINKS`] links, or no number remains for a further link (VXI-11 error 9).
    #[error("no further link may be made")]
    OutOfResources,
    /// Memory for the link was refused.
    #[error("no memory was left")]
    NoMemory,
}

/// The links that exist, at most [`MAX_LINKS`]; how many links were ever made; and which link holds
/// the lock.
#[derive(Drop)]
pub struct Links<A: Allocator = Global> {
    made: u32,
    links: Slab<Link, A>,
    holder: Option<u32>,
    /// The number of further links for which memory is reserved.
    spare: u8,
}

impl<A: Allocator> Model for Links<A> {
    ghost use Rattle.sv_links.specs.Table.{Table};

    ghost Value = { Table };

    ghost use Rattle.std.specs.Prelude.{◌≤◌};
    ghost use Rattle.slab.specs.Slab.{slab_len, HasRoomFor};
    ghost use Rattle.sv_links.specs.Limits.{max_links};

    ghost view = { λ a. record {
      made = a.made;
      slots = a.links.slots;
      holder = a.holder;
      spare = a.spare;
    } };

    ghost invariant = { λ a. (a.made ≤ 2147483647) × (slab_len a.links ≤ max_links)
        × HasRoomFor a.links a.spare };
}

impl<A: Allocator> Links<A> {
    /// Makes a table without links: no link was ever made.
    pub fn new(alloc: A) -> Links<A>
        ensures { IsTable result [] }
    {
        Links {
            made: 0,
            links: Slab::new(alloc),
            holder: None,
            spare: 0,
        }
    }

    /// How many links there are, at most [`MAX_LINKS`].
    pub fn count(&self) -> u8
        ensures value { result ≡ count_of self.now }
        ensures bounded { result ≤ max_links }
        ensures answer { (acts : List LinkAct) → IsTable self.now acts
            → result ≡ length (live acts) }
    {
        self.links.len() as u8
    }

    /// Whether a number remains for a further link: the highest number of a link is 2,147,483,647.
    pub fn lids_left(&self) -> bool
        ensures { (acts : List LinkAct) → IsTable self.now acts → result ≡ lids_left acts }
    {
        self.made < LAST
    }

    /// Makes sure that memory is reserved for at least `count` further links. A later `create` uses
    /// the reserved memory.
    ///
    /// # Errors
    /// If memory is refused; nothing changes then.
    pub fn reserve(&mut self, count: u8) -> Result<(), AllocError>
        ensures room { OnOk result (count ≤ self.new.spare) }
        ensures rest { OnOk result (self.new ≡ record self.old { spare = self.new.spare }) }
        ensures grows { self.old.spare ≤ self.new.spare }
        ensures succeeds { count ≤ self.old.spare → IsOk result }
        ensures stands { (acts : List LinkAct) → IsTable self.old acts → IsTable self.new acts }
        ensures err { OnErr result (self.new ≡ self.old) }
    {
        if self.spare < count {
            self.links.reserve(usize::from(count))?;
            self.spare = count;
        }
        Ok(())
    }

    /// Makes a link and returns its number: 1 for the first link, then one above the number of the
    /// last link that was made. If memory was reserved, `NoMemory` can't occur.
    ///
    /// # Errors
    /// `OutOfResources` if there are [`MAX_LINKS`] links or no number remains; else `NoMemory` if
    /// memory is refused. Nothing changes then.
    pub fn create(&mut self, conn: u8) -> Result<u32, CreateRefused>
        ensures number { IfOk result (λ lid. lid < 2 ^ 31) }
        ensures ok { (acts : List LinkAct) → IsTable self.old acts → IfOk result
            (λ lid. (lid ≡ links_made acts + 1) × IsTable self.new (Made lid conn ∷ acts)) }
        ensures spare { OnOk result (self.old.spare ≤ self.new.spare + 1) }
        ensures refused { (acts : List LinkAct) → IsTable self.old acts
            → (result ≡ Err CreateRefused.OutOfResources) ↔ (may_make acts ≡ false) }
        ensures lacks { result ≡ Err CreateRefused.NoMemory → self.old.spare ≡ 0 }
        ensures err { OnErr result (self.new ≡ self.old) }
    {
        if self.links.len() >= MAX_LINKS || self.made >= LAST {
            return Err(CreateRefused::OutOfResources);
        }
        let lid = self.made + 1;
        if self.links.reserve(1).is_err() {
            return Err(CreateRefused::NoMemory);
        }
        self.links.insert_reserved(Link { lid, conn });
        self.made = lid;
        self.spare = self.spare.saturating_sub(1);
        Ok(lid)
    }

    /// The connection that made the link of this number; `None` if there is no such link.
    pub fn owner(&self, lid: u32) -> Option<u8>
        ensures { (acts : List LinkAct) → IsTable self.now acts → result ≡ owner lid acts }
    {
        let (_key, link) = self.links.iter().find(|(_key, link)| link.lid == lid)?;
        Some(link.conn)
    }

    /// The link with the lowest number above `lid`; `None` if no link has a number above `lid`.
    pub fn after(&self, lid: u32) -> Option<Link>
        ensures { (acts : List LinkAct) → IsTable self.now acts
            → result ≡ find (λ link. nat_lt lid link.lid) (live acts) }
    {
        match self
            .links
            .iter()
            .filter(|(_key, link)| link.lid > lid)
            .map(|(_key, link)| link.lid)
            .min()
        {
            Some(next) => match self.owner(next) {
                Some(conn) => Some(Link { lid: next, conn }),
                None => None,
            },
            None => None,
        }
    }

    /// Destroys a link; if the link holds the lock, the lock becomes free. If there is no such
    /// link, nothing changes.
    pub fn destroy(&mut self, lid: u32)
        ensures stands { (acts : List LinkAct) → IsTable self.old acts
            → IsTable self.new (Destroyed lid ∷ acts) }
        ensures spare { self.new.spare ≡ self.old.spare }
    {
        self.links.retain(|_key, link| link.lid != lid);
        if self.holder == Some(lid) {
            self.holder = None;
        }
    }

    /// Destroys the links of a connection; if one of them holds the lock, the lock becomes free.
    /// The numbers of these links are never used again.
    pub fn close_connection(&mut self, conn: u8)
        ensures stands { (acts : List LinkAct) → IsTable self.old acts
            → IsTable self.new (closing conn acts ++ acts) }
        ensures spare { self.new.spare ≡ self.old.spare }
    {
        if let Some(lid) = self.holder {
            if self.owner(lid) == Some(conn) {
                self.holder = None;
            }
        }
        self.links.retain(|_key, link| link.conn != conn);
    }

    /// The link that holds the lock; `None` if the lock is free.
    pub fn holder(&self) -> Option<u32>
        ensures value { result ≡ self.now.holder }
        ensures answer { (acts : List LinkAct) → IsTable self.now acts → result ≡ holder acts }
    {
        self.holder
    }

    /// Gives a link the lock, unless another link holds the lock; then nothing changes. Returns
    /// whether the link holds the lock now.
    pub fn lock(&mut self, lid: u32) -> bool
        ensures answer { (acts : List LinkAct) → IsTable self.old acts
            → result ≡ not (is_locked_out (holder acts) (Some lid)) }
        ensures stands { result ≡ true → (acts : List LinkAct) → IsTable self.old acts
            → IsTable self.new (Locked lid ∷ acts) }
        ensures spare { self.new.spare ≡ self.old.spare }
        ensures refused { result ≡ false → self.new ≡ self.old }
    {
        if let Some(holder) = self.holder {
            return holder == lid;
        }
        self.holder = Some(lid);
        true
    }

    /// Frees the lock if this link holds it, and returns whether the link held it. If this link
    /// doesn't hold the lock, nothing changes.
    pub fn unlock(&mut self, lid: u32) -> bool
        ensures answer { (acts : List LinkAct) → IsTable self.old acts
            → result ≡ is_this lid (holder acts) }
        ensures stands { result ≡ true → (acts : List LinkAct) → IsTable self.old acts
            → IsTable self.new (Unlocked lid ∷ acts) }
        ensures spare { self.new.spare ≡ self.old.spare }
        ensures refused { result ≡ false → self.new ≡ self.old }
    {
        if self.holder != Some(lid) {
            return false;
        }
        self.holder = None;
        true
    }
}
