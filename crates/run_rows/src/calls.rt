//! Calls that a run makes, each with ample memory: audits of whole hands, reading of words and ranges,
//! sums, and blocks.

pub(crate) mod audits;
mod reports;
