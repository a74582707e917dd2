//! Tables on the heap.

ghost use Rattle.std.specs.Prelude.{◌≡◌, length, replicate, IfOk};

use card_sets::Memory;
use std::alloc::Global;

/// Returns `count` places that all have the same value. They are filled where they stay, and never pass over the stack. If there is no
/// memory for them, `filled` returns `Memory`.
pub fn filled<T: Copy>(alloc: Global, value: T, count: usize) -> Result<Vec<T>, Memory>
    ensures items { IfOk result (λ list. list.items ≡ replicate count value) }
    ensures places { IfOk result (λ list. length list.items ≡ count) }
{
    let mut list = Vec::new(alloc);
    list.resize(count, value)?;
    Ok(list)
}
