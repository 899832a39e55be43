//! An allocator for tests, which refuses one allocation of your choice.
//!
//! Make one over any other allocator, lend it to the code under test, and let each of that code's
//! allocations fail in turn:
//!
//! ```text
//! let heap = FailingAllocator::new(rt.alloc());
//! for number in 1..100 {
//!     heap.refuse(number);
//!     let outcome = code_under_test(&heap);
//!     // If `heap` is still armed, no allocation was refused: the code makes fewer allocations
//!     // than `number`, and `outcome` is what it returns without a refusal.
//!     if heap.is_armed() { .. }
//! }
//! ```
//!
//! A contract cannot describe the contents of a cell, so `refuse` and `is_armed` have no contract;
//! a row of `test_rows` shows what they do. It is proved that memory is used safely: each block
//! comes from the inner allocator for the requested layout, and goes back to it with that layout
//! and at most once. But no contract says that a block is ever given back.
#![tactic(auto)]

use std::alloc::{AllocError, Allocator};
use std::cell::Cell;

/// An allocator for tests: it refuses one allocation, and passes every other call on to another
/// allocator.
///
/// Lend it, as `&heap`: a reference to an allocator is itself an allocator, and is `Copy`. `refuse`
/// and `is_armed` may be called while the allocator is lent.
///
/// A block that grows or shrinks is allocated anew and copied, even if the inner allocator could
/// resize it. So each growth counts as one allocation, and may be the one that is refused.
pub struct FailingAllocator<B: Allocator> {
    inner: B,
    // Which of the coming allocations is refused: 1 is the next one, 2 the one after it, and so on.
    // 0 if none is refused.
    left: Cell<u64>,
}

impl<B: Allocator> FailingAllocator<B> {
    /// Makes an allocator over `inner`. It refuses nothing until `refuse` chooses an allocation.
    pub fn new(inner: B) -> FailingAllocator<B> {
        FailingAllocator {
            inner,
            left: Cell::new(0),
        }
    }

    /// Chooses one allocation that is refused: the one with this number. The next allocation has
    /// the number 1. All other allocations are passed on. If the number is 0, no allocation is
    /// refused.
    ///
    /// A second call of `refuse` replaces the number that the first call chose.
    pub fn refuse(&self, number: u64) {
        self.left.set(number);
    }

    /// Whether `refuse` chose an allocation that hasn't been made yet.
    pub fn is_armed(&self) -> bool {
        self.left.get() != 0
    }
}

impl<B: Allocator> Drop for FailingAllocator<B> {
    fn drop(self) {
        let Self { inner: _, left: _ } = self;
    }
}

// Counts one allocation, and returns whether it is the one to refuse.
fn take_turn(left: &Cell<u64>) -> bool {
    let number = left.get();
    if number == 0 {
        return false;
    }
    left.set(number - 1);
    number == 1
}

unsafe impl<B: Allocator> Allocator for FailingAllocator<B> {
    // A block belongs to the inner allocator. So the right to free it is the inner allocator's
    // `dealloc_token`.
    ghost dealloc_token = { λ heap ty ptr. B.dealloc_token heap.inner ty ptr };

    fn allocate(&self, size: usize, align: usize) -> Result<*mut u8, AllocError> {
        if take_turn(&self.left) {
            return Err(AllocError);
        }
        self.inner.allocate(size, align)
    }

    unsafe fn deallocate(&self, ptr: *mut u8, size: usize, align: usize) {
        self.inner.deallocate(ptr, size, align);
    }
}
