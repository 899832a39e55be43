//! The error queue (SCPI-1999, volume 2, section 21.8).

ghost use Rattle.std.specs.Prelude.{◌≡◌, ◌==◌, ◌≤◌, [], ◌∷◌, List, length, min, slice_get, IfOk};
ghost use Rattle.sv_errors.specs.ErrorQueue.{StandsFor, entries, queue_codes, is_full, lost, most, oldest as oldest_of};

use crate::code::Code;
use crate::layer::Layer;
use circular_buffer::HeapCircularBuffer;
use std::alloc::{AllocError, Allocator, Global};
use std::marker::Model;

/// How many entries the queue can have.
pub const MOST_ERRORS: usize = 64;

/// An act of the error queue.
#[derive(Clone, Copy)]
pub enum QueueAct {
    /// An error is reported.
    Report(Code),
    /// The oldest entry is taken.
    Take,
    /// All entries are dropped.
    Clear,
}

/// The answer to an act of the error queue.
#[derive(Clone, Copy, Debug)]
pub enum QueueAnswer {
    /// Whether the queue was full when the error was reported.
    Reported(bool),
    /// The entry that was taken; `None` if the queue was empty.
    Taken(Option<Code>),
    /// All entries were dropped.
    Cleared,
}

/// The errors that were reported and not taken yet, oldest first, at most [`MOST_ERRORS`]. A report
/// to a full queue replaces the newest entry with [`Code::QueueOverflow`].
#[derive(Drop)]
pub struct ErrorQueue<A: Allocator = Global> {
    codes: HeapCircularBuffer<Code, A>,
    /// How many errors were lost because the queue was full; 4,294,967,295 also stands for more.
    lost: u32,
}

impl<A: Allocator> Model for ErrorQueue<A> {
    ghost use Rattle.sv_errors.specs.ErrorQueue.{Queue};

    ghost Value = { Queue };

    ghost use Rattle.std.specs.Prelude.{◌≡◌, ◌≤◌, length};
    ghost use Rattle.sv_errors.specs.ErrorQueue.{most};

    ghost view = { λ a. record { codes = a.codes.items; lost_count = a.lost } };

    ghost invariant = { λ a. (a.codes.capacity ≡ most) × (length a.codes.items ≤ most) };
}

impl<A: Allocator> ErrorQueue<A> {
    /// An empty queue. The memory of all its entries is allocated here.
    ///
    /// # Errors
    /// If memory is refused.
    pub fn new(alloc: A) -> Result<ErrorQueue<A>, AllocError>
        ensures { IfOk result (λ queue. StandsFor queue []) }
    {
        let codes = HeapCircularBuffer::with_capacity(alloc, MOST_ERRORS)?;
        Ok(ErrorQueue { codes, lost: 0 })
    }

    /// Reports an error, and returns whether the queue was full. If it was full, its newest entry
    /// becomes -350, and the reported error is lost.
    pub fn report(&mut self, code: Code) -> bool
        ensures stands { (acts : List QueueAct) → StandsFor self.old acts
            → StandsFor self.new (QueueAct.Report code ∷ acts) }
        ensures answer { (acts : List QueueAct) → StandsFor self.old acts → result ≡ is_full acts }
        ensures full { result ≡ (length self.old.codes == most) }
    {
        let full = self.codes.len() >= MOST_ERRORS;
        if full {
            self.codes.pop_back();
            self.codes.push_back(Code::QueueOverflow);
            self.lost = self.lost.saturating_add(1);
        } else {
            self.codes.push_back(code);
        }
        full
    }

    /// Removes the oldest entry and returns it; `None` if the queue is empty.
    pub fn take(&mut self) -> Option<Code>
        ensures stands { (acts : List QueueAct) → StandsFor self.old acts
            → StandsFor self.new (QueueAct.Take ∷ acts) }
        ensures answer { (acts : List QueueAct) → StandsFor self.old acts
            → result ≡ oldest_of acts }
    {
        self.codes.pop_front()
    }

    /// The oldest entry, without removing it; `None` if the queue is empty.
    pub fn oldest(&self) -> Option<Code>
        ensures { (acts : List QueueAct) → StandsFor self.now acts → result ≡ oldest_of acts }
    {
        self.codes.front().copied()
    }

    /// The entry with this index; the oldest entry has index 0. `None` if there is no such entry.
    pub fn entry(&self, index: u8) -> Option<Code>
        ensures { (acts : List QueueAct) → StandsFor self.now acts
            → result ≡ slice_get (queue_codes acts) index }
    {
        self.codes.get(usize::from(index)).copied()
    }

    /// How many errors were lost because the queue was full; 4,294,967,295 also stands for more.
    pub fn lost(&self) -> u32
        ensures { (acts : List QueueAct) → StandsFor self.now acts
            → result ≡ min (lost acts) 4294967295 }
    {
        self.lost
    }

    /// How many entries the queue has.
    pub fn count(&self) -> u8
        ensures answer { (acts : List QueueAct) → StandsFor self.now acts
            → result ≡ length (entries acts) }
        ensures few { result ≤ most }
    {
        self.codes.len() as u8
    }

    /// Drops all entries.
    pub fn clear(&mut self)
        ensures { (acts : List QueueAct) → StandsFor self.old acts
            → StandsFor self.new (QueueAct.Clear ∷ acts) }
    {
        self.codes.clear();
    }
}

impl<A: Allocator> Layer for ErrorQueue<A> {
    ghost use Rattle.sv_errors.specs.ErrorQueue.{StandsFor};
    ghost use Rattle.sv_errors.specs.Answered.{Gives};

    type Act = QueueAct;

    type Answer = QueueAnswer;

    ghost stands_for = { StandsFor };

    ghost gives = { Gives };

    fn act(&mut self, act: QueueAct) -> QueueAnswer {
        match act {
            QueueAct::Report(code) => QueueAnswer::Reported(self.report(code)),
            QueueAct::Take => QueueAnswer::Taken(self.take()),
            QueueAct::Clear => {
                self.clear();
                QueueAnswer::Cleared
            }
        }
    }
}
