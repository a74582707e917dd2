//! Tests of whole runs and of several workers, over the public calls of the crates below: what the top
//! call returns and writes between sources and sinks in memory, and what the pool counts and books.
#![tactic(auto)]

#[cfg(test)]
mod book;
#[cfg(test)]
mod calls;
#[cfg(test)]
mod ends;
#[cfg(test)]
mod equities;
#[cfg(test)]
mod histories;
#[cfg(test)]
mod machine;
#[cfg(test)]
mod page_runs;
#[cfg(test)]
mod ready_blocks;
#[cfg(test)]
mod reports;
#[cfg(test)]
mod runs;
#[cfg(test)]
mod seats;
#[cfg(test)]
mod shared_runs;
#[cfg(test)]
mod sheets;
#[cfg(test)]
mod spots;
#[cfg(test)]
mod workers;
