//! Appending bytes to a vector, and dropping bytes from its front.

ghost use Rattle.std.specs.Prelude.{◌≡◌, ◌+◌, ◌≤◌, ◌++◌, drop, length, vec_len, vec_capacity};

use std::alloc::Allocator;

/// Appends `piece` to `bytes` without allocating. `bytes` must have the capacity for `piece`.
pub fn append<A: Allocator>(bytes: &mut Vec<u8, A>, piece: &[u8])
    requires { vec_len bytes.old + length piece.now ≤ vec_capacity bytes.old }
    ensures items { bytes.new.items ≡ bytes.old.items ++ piece.now }
    ensures capacity { vec_capacity bytes.old ≤ vec_capacity bytes.new }
{
    bytes.extend_from_slice(piece).unwrap();
}

/// Drops the first `count` bytes of `bytes`, without allocating.
pub fn drop_front<A: Allocator>(bytes: &mut Vec<u8, A>, count: usize)
    requires { count ≤ vec_len bytes.old }
    ensures items { bytes.new.items ≡ drop count bytes.old.items }
    ensures capacity { vec_capacity bytes.new ≡ vec_capacity bytes.old }
{
    if count == bytes.len() {
        bytes.clear();
    } else if count > 0 {
        bytes.drain(..count);
    }
}
