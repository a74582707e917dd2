//! A source over std's readers and a sink over its writers. Generic callers don't know their bytes.

ghost use Rattle.std.specs.Prelude.{◌≡◌, ◌<◌, ◌≤◌, length, None, IfOk, OnOk, OnErr};
ghost use Rattle.std.specs.Io.KnownBytes.{ReadConsumes, WriteAppends};
ghost use Rattle.byte_ends.specs.Ends.{Rises, moved_by, one_more};
ghost use Rattle.byte_ends.specs.Standard.{ReadsStd, WritesStd, read_tells, write_tells};

use crate::{Failed, Sink, Source};
use std::io::{Read, Write};
use std::marker::Model;

/// A source over a reader of std.
#[derive(Drop)]
pub struct StdSource<R: Read> {
    /// The reader of std.
    reader: R,
    /// The number of reads that failed.
    faults: u64,
}

impl<R: Read> Model for StdSource<R> {
    ghost use Rattle.byte_ends.specs.Standard.{StdState};

    ghost Value = { StdState };

    ghost view = { λ s. record { known = R.remaining s.reader; faults = s.faults } };
}

impl<R: Read> StdSource<R> {
    /// Returns a source over the reader.
    pub fn new(reader: R) -> StdSource<R>
        ensures { result ≡ record { known = R.remaining reader; faults = 0 } }
    {
        StdSource { reader, faults: 0 }
    }
}

impl<R: Read> Source for StdSource<R> {
    ghost left = { λ _. None };

    ghost faults = { λ s. s.faults };

    ghost reads = { ReadsStd };

    /// Makes one read of the reader. Each error of the reader is a fault.
    fn read(&mut self, piece: &mut [u8]) -> Result<usize, Failed>
        // What the trait states of every source, except that no bytes are known.
        ensures within { IfOk result (λ n. n ≤ length piece.new) }
        ensures fine { OnOk result (self.new.faults ≡ self.old.faults) }
        ensures fault { OnErr result (Rises self.old.faults self.new.faults) }
        ensures one { 0 < length piece.old
            → ReadsStd self.old self.new (moved_by result piece.new) }

        // The count rises by one, unless it is the greatest of its type.
        ensures counted { OnErr result (self.new.faults ≡ one_more self.old.faults) }

        // If std's reader exposes its bytes, the read gives the next of them.
        ensures known { ReadConsumes self.old.known self.new.known result piece.new }
    {
        match self.reader.read(piece) {
            Ok(count) => Ok(count),
            Err(_) => {
                self.faults = self.faults.saturating_add(1);
                Err(Failed)
            }
        }
    }

    ghost tells = { read_tells };
}

/// A sink over a writer of std.
#[derive(Drop)]
pub struct StdSink<W: Write> {
    /// The writer of std.
    writer: W,
    /// The number of writes that failed.
    faults: u64,
}

impl<W: Write> Model for StdSink<W> {
    ghost use Rattle.byte_ends.specs.Standard.{StdState};

    ghost Value = { StdState };

    ghost view = { λ s. record { known = W.contents s.writer; faults = s.faults } };
}

impl<W: Write> StdSink<W> {
    /// Returns a sink over the writer.
    pub fn new(writer: W) -> StdSink<W>
        ensures { result ≡ record { known = W.contents writer; faults = 0 } }
    {
        StdSink { writer, faults: 0 }
    }
}

impl<W: Write> Sink for StdSink<W> {
    ghost taken = { λ _. None };

    ghost faults = { λ s. s.faults };

    ghost writes = { WritesStd };

    /// Makes one write to the writer. Each error of the writer is a fault, and so is a write that
    /// takes no byte of a piece that isn't empty.
    fn write(&mut self, piece: &[u8]) -> Result<usize, Failed>
        // What the trait states of every sink, except that no bytes are known.
        ensures within { IfOk result (λ n. n ≤ length piece.now) }
        ensures some { IfOk result (λ n. 0 < length piece.now → 0 < n) }
        ensures fine { OnOk result (self.new.faults ≡ self.old.faults) }
        ensures fault { OnErr result (Rises self.old.faults self.new.faults) }
        ensures one { 0 < length piece.now
            → WritesStd self.old self.new (moved_by result piece.now) }

        // The count rises by one, unless it is the greatest of its type.
        ensures counted { OnErr result (self.new.faults ≡ one_more self.old.faults) }

        // If std's writer exposes its bytes, the write appends to them.
        ensures known { WriteAppends self.old.known self.new.known result piece.now }
    {
        match self.writer.write(piece) {
            Ok(count) if count > 0 || piece.is_empty() => Ok(count),
            _ => {
                self.faults = self.faults.saturating_add(1);
                Err(Failed)
            }
        }
    }

    ghost tells = { write_tells };
}
