//! The names of seats.

use history_text::Names;
use std::alloc::Global;

/// The names of two seats.
pub(crate) const SEATED: &[(u8, &[u8])] = &[(3, b"carl"), (4, b"dora")];

/// Returns the names of some seats, or `None` if out of memory.
pub(crate) fn names_of(alloc: Global, seats: &[(u8, &[u8])]) -> Option<Names> {
    let mut names = Names::new(alloc);
    for (seat, name) in seats {
        if names.add(*seat, name).is_err() {
            return None;
        }
    }
    Some(names)
}
