//! Ends that fail, give many bytes, or give them in pieces: what a whole run reads, writes, and returns.

pub(crate) mod broken_ends;
mod broken_writes;
mod cut_off;
pub(crate) mod faults;
mod long;
mod streams;
