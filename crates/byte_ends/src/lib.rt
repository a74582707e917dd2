//! Sources and sinks of bytes, with a count of their faults.
//!
//! Clauses know the bytes of an end in memory and of the source that repeats one line. They don't know the
//! bytes of an end over std's readers and writers.
//!
//! - A call of [`Source::read`] or [`Sink::write`] moves as many bytes as one call of the reader or writer
//!   below it. A read at the end of the input moves none. [`write_all`] writes until all bytes are taken.
//! - A fault is returned and counted, up to 2^64 - 1. A caller that ignores the result still finds the
//!   fault in the count. No call is repeated, and a call that fails moves none of the known bytes.
//! - The traits state what every end does, and a generic caller knows only that. An end in memory also
//!   states how much each call moves, and exactly which calls fail: those of a list that it is given. So a
//!   test can choose the size of the pieces and the calls that fail.
//!
//! No end interprets the bytes. Only [`MemorySink::new`] allocates, for all bytes that will be written.
#![tactic(auto)]

ghost use Rattle.std.specs.Prelude.{◌≡◌, ℕ, ◌<◌, ◌≤◌, length, List, Option, IfOk, OnOk, OnErr};
ghost use Rattle.byte_ends.specs.Ends.{CountsFault, GivesFirst, Reads, Rises, Takes, TakesMore, WritesAll, WritesFront, WritesOut, moved_by};

mod memory;
mod repeat;
mod standard;

pub use memory::{MemorySink, MemorySource};
pub use repeat::RepeatSource;
pub use standard::{StdSink, StdSource};

/// A read or a write that failed.
#[derive(Clone, Copy, PartialEq, Eq)]
pub struct Failed;

/// A source of bytes.
pub trait Source {
    /// The bytes left, if the source exposes them.
    ghost left: { Self → Option (List ℕ) };

    /// The number of reads that failed, up to 2^64 - 1.
    ghost faults: { Self → ℕ };

    /// What one read of a piece that isn't empty does to the source: it gives some bytes, and none only at
    /// the end of the input; or it fails.
    ghost reads: { Self → Self → Option (List ℕ) → Type 0 };

    /// Reads some bytes into the beginning of the piece and returns how many. For a piece that isn't
    /// empty, 0 means the end of the input.
    fn read(&mut self, piece: &mut [u8]) -> Result<usize, Failed>
        // A read that succeeds moves n bytes from what is left into the piece, and no fault is counted.
        ensures within { IfOk result (λ n. n ≤ length piece.new) }
        ensures bytes { IfOk result
            (λ n. Reads (left self.old) (left self.new) piece.old piece.new n) }
        ensures fine { OnOk result (faults self.new ≡ faults self.old) }

        // A read that fails is counted, and changes nothing of what is left.
        ensures fault { OnErr result (Rises (faults self.old) (faults self.new)) }
        ensures same { OnErr result (left self.new ≡ left self.old) }

        // The call is one read.
        ensures one { 0 < length piece.old → reads self.old self.new (moved_by result piece.new) };

    // One read gives the first of the known bytes left, or is counted as a fault.
    ghost tells: { (old new : Self) (read : Option (List ℕ)) → reads old new read
        → GivesFirst (left old) (left new) read × CountsFault (faults old) (faults new) read };
}

/// A sink of bytes.
pub trait Sink {
    /// The bytes taken so far, if the sink exposes them.
    ghost taken: { Self → Option (List ℕ) };

    /// The number of writes that failed, up to 2^64 - 1.
    ghost faults: { Self → ℕ };

    /// What one write of a piece that isn't empty does to the sink: it takes a prefix of the piece, or it
    /// fails.
    ghost writes: { Self → Self → Option (List ℕ) → Type 0 };

    /// Takes a prefix of the piece, at least one byte of a piece that isn't empty, and returns how many
    /// bytes that are.
    fn write(&mut self, piece: &[u8]) -> Result<usize, Failed>
        // A write that succeeds takes the first n bytes of the piece, and no fault is counted.
        ensures within { IfOk result (λ n. n ≤ length piece.now) }
        ensures some { IfOk result (λ n. 0 < length piece.now → 0 < n) }
        ensures bytes { IfOk result (λ n. Takes (taken self.old) (taken self.new) piece.now n) }
        ensures fine { OnOk result (faults self.new ≡ faults self.old) }

        // A write that fails is counted, and takes nothing.
        ensures fault { OnErr result (Rises (faults self.old) (faults self.new)) }
        ensures same { OnErr result (taken self.new ≡ taken self.old) }

        // The call is one write.
        ensures one { 0 < length piece.now → writes self.old self.new (moved_by result piece.now) };

    // One write appends bytes to the known ones, or is counted as a fault.
    ghost tells: { (old new : Self) (write : Option (List ℕ)) → writes old new write
        → TakesMore (taken old) (taken new) write × CountsFault (faults old) (faults new) write };
}

/// Writes all of the bytes, by as many writes as the sink needs. If a write fails, a prefix of the bytes
/// was taken, and no write is repeated.
pub fn write_all<K: Sink>(sink: &mut K, bytes: &[u8]) -> Result<(), Failed>
    ensures ok { OnOk result (WritesAll (K.taken sink.old) (K.taken sink.new) bytes.now) }
    ensures fine { OnOk result (K.faults sink.new ≡ K.faults sink.old) }
    ensures fault { OnErr result (Rises (K.faults sink.old) (K.faults sink.new)) }
    ensures front { OnErr result (WritesFront (K.taken sink.old) (K.taken sink.new) bytes.now) }
    ensures order { WritesOut K.writes sink.old sink.new bytes.now result }
{
    let mut at = 0;
    while at < bytes.len() {
        at += sink.write(&bytes[at..])?;
    }
    Ok(())
}
