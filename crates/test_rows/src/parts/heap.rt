//! Performs the acts of a line on an allocator that refuses one allocation, and on a vector of that
//! allocator, and prints the answers.
//!
//! | Act | Answer |
//! |---|---|
//! | `refuse N` | none; the Nth allocation after this act is refused |
//! | `armed` | whether the chosen allocation is still to come |
//! | `box` | whether a box was made |
//! | `fill N` | how often memory for an item was refused; appends the items 0 to N - 1 |
//! | `shrink` | whether the vector's block has the same size after it was to shrink |
//! | `items` | the items of the vector |

use crate::parts::line::put;
use crate::words::{bad, cut, value_of};
use failing_alloc::FailingAllocator;
use std::alloc::Global;
use std::io;

/// The vector to which items are appended.
type Items<'a> = Vec<u8, &'a FailingAllocator<Global>>;

/// Prints the answers of the acts, which have `, ` between them.
pub(crate) fn put_heap(alloc: Global, out: &mut String, acts: &str) -> io::Result<()> {
    let heap = FailingAllocator::new(alloc);
    let mut items = Vec::new(&heap);
    put_acts(&heap, &mut items, out, acts)
}

/// Prints the answer of each act.
fn put_acts<'a>(
    heap: &'a FailingAllocator<Global>,
    items: &mut Items<'a>,
    out: &mut String,
    acts: &str,
) -> io::Result<()> {
    for act in acts.split(", ") {
        put_act(heap, items, out, act)?;
    }
    Ok(())
}

/// Performs an act, and prints its answer.
fn put_act<'a>(
    heap: &'a FailingAllocator<Global>,
    items: &mut Items<'a>,
    out: &mut String,
    act: &str,
) -> io::Result<()> {
    match cut(act) {
        ("refuse", number) => {
            heap.refuse(value_of(number)?);
            Ok(())
        }
        ("armed", "") => put(out, heap.is_armed()),
        ("box", "") => put(out, Box::new(heap, 1u8).is_ok()),
        ("fill", count) => put(out, fill(items, value_of(count)?)?),
        ("shrink", "") => put(out, shrink(items)),
        ("items", "") => put(out, items.as_slice()),
        _ => Err(bad()),
    }
}

/// Appends the items 0 to `count` - 1. If memory for an item is refused, appends the item again.
/// Returns how often memory was refused.
fn fill(items: &mut Items<'_>, count: u8) -> io::Result<u8> {
    let mut refused = 0u8;
    for item in 0..count {
        if items.push(item).is_err() {
            refused = refused.saturating_add(1);
            items.push(item)?;
        }
    }
    Ok(refused)
}

/// Shrinks the vector's block as far as possible. Returns whether the block has the same size as
/// before.
fn shrink(items: &mut Items<'_>) -> bool {
    let capacity = items.capacity();
    items.shrink_to_fit();
    items.capacity() == capacity
}
