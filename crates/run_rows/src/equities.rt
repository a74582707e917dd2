//! Equities over whole runs: counts, the limit on runouts, large inputs, and the laws as a crate above calls them.

mod counts;
mod large;
mod laws;
mod limits;
pub(crate) mod plain;
