//! Tests of single calls of the crates below: on cards, hands, runouts, and pots, and on bytes, lines,
//! histories, and spots.
#![tactic(auto)]

#[cfg(test)]
mod rows;
