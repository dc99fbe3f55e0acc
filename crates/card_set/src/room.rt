//! Room is asked for ahead only as far as an input can need it.
ghost use Rattle.std.specs.Prelude.{◌≡◌, ◌+◌, ◌≤◌, [], length, IfOk, OnOk, replicate, vec_capacity, vec_len};
ghost use Rattle.card_set.specs.declared.room.TheConstants.{MOST_ROOM};

use crate::memory::{Memory, refused};
use std::alloc::Global;

/// The most items for which room is asked for ahead.
pub const MOST_ROOM: usize = 16_777_216;

/// An empty list. It asks for memory for this many items, and for no more.
pub fn list_with_room<T: Drop>(alloc: Global, count: usize) -> Result<Vec<T>, Memory>
    requires { count ≤ MOST_ROOM }
    ensures { IfOk result (λ list. list.items ≡ []) }
{
    Vec::with_capacity(alloc, count).map_err(|_| refused())
}

/// A list of one item, as many times as there are items in `each`.
pub fn repeated_for<T: Copy, U>(alloc: Global, item: T, each: &[U]) -> Result<Vec<T>, Memory>
    ensures { IfOk result (λ list. ((copy : T) → T.is_clone item copy → copy ≡ item)
        → list.items ≡ replicate (length each.now) item) }
{
    Vec::from_elem(alloc, item, each.len()).map_err(|_| refused())
}

/// Asks for room for this many more items in a list, and for no more. The list keeps its items.
pub fn reserve<T: Drop>(list: &mut Vec<T>, count: usize) -> Result<(), Memory>
    requires { count ≤ MOST_ROOM }
    ensures { list.new.items ≡ list.old.items }
{
    list.try_reserve(count).map_err(|_| refused())
}

/// A value in a place of its own.
pub fn boxed<T: Drop>(alloc: Global, value: T) -> Result<Box<T>, Memory>
    ensures { IfOk result (λ place. place.value ≡ value) }
{
    Box::new(alloc, value).map_err(|_| refused())
}

/// Asks for room for as many more bytes as there are in `bytes`, and for this many beside them.
/// The list keeps its bytes.
pub fn reserve_for(list: &mut Vec<u8>, bytes: &[u8], more: usize) -> Result<(), Memory>
    requires { more ≤ MOST_ROOM }
    ensures items { list.new.items ≡ list.old.items }
    ensures len { vec_len list.new ≡ vec_len list.old }
    ensures ok { OnOk result
        (vec_len list.new + (length bytes.now + more) ≤ vec_capacity list.new) }
{
    list.try_reserve(bytes.len() + more).map_err(|_| refused())
}
