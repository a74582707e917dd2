//! A source that repeats one line.

ghost use Rattle.std.specs.Prelude.{◌≡◌, ◌+◌, ◌<◌, ◌≤◌, ◌^◌, ◌++◌, length, Some, IsOk, IfOk, OnOk, OnErr, drop, take};
ghost use Rattle.byte_ends.specs.Ends.{Reads, moved_by};
ghost use Rattle.byte_ends.specs.Memory.{least};
ghost use Rattle.byte_ends.specs.Repeat.{ReadsRepeat, read_tells, repeated};

use crate::{Failed, Source};
use std::marker::Model;

/// The length of the line in bytes.
const LINE: u64 = 64;

/// A source that repeats a line of 64 bytes, up to a number of bytes. No read fails.
#[derive(Drop)]
pub struct RepeatSource {
    /// The line.
    line: [u8; 64],
    /// The number of bytes given.
    given: u64,
    /// The number of bytes left.
    left: u64,
    /// The most bytes that one read gives.
    piece: usize,
}

impl Model for RepeatSource {
    ghost use Rattle.byte_ends.specs.Repeat.{RepeatState, IsRepeatSound, repeated};

    ghost Value = { RepeatState };

    ghost view = { λ s. record { left = repeated s.line s.given s.left; piece = s.piece } };

    ghost invariant = { λ s. IsRepeatSound s.given s.left s.piece };
}

impl RepeatSource {
    /// Returns a source of `left` bytes, which gives at most `piece` of them in one read.
    pub fn new(line: [u8; 64], left: u64, piece: usize) -> RepeatSource
        requires { 0 < piece }
        ensures { result ≡ record { left = repeated line 0 left; piece = piece } }
    {
        RepeatSource {
            line,
            given: 0,
            left,
            piece,
        }
    }
}

impl Source for RepeatSource {
    ghost left = { λ s. Some s.left };

    ghost faults = { λ _. 0 };

    ghost reads = { ReadsRepeat };

    fn read(&mut self, piece: &mut [u8]) -> Result<usize, Failed>
        // What the trait states of every source. No read fails.
        ensures within { IfOk result (λ n. n ≤ length piece.new) }
        ensures bytes { IfOk result (λ n.
            Reads (Some self.old.left) (Some self.new.left) piece.old piece.new n) }
        ensures fine { IsOk result }
        ensures one { 0 < length piece.old
            → ReadsRepeat self.old self.new (moved_by result piece.new) }

        // How many bytes are read and which, and what clauses see of the source after the read.
        ensures amount { IfOk result (λ n.
            n ≡ least (length piece.old) self.old.piece (length self.old.left)) }
        ensures given { IfOk result (λ n. piece.new ≡ take n self.old.left ++ drop n piece.old) }
        ensures after { IfOk result
            (λ n. self.new ≡ record self.old { left = drop n self.old.left }) }
    {
        let count = piece.len().min(self.piece).min(self.left as usize);
        fill(&mut piece[..count], &self.line, self.given);
        self.given += count as u64;
        self.left -= count as u64;
        Ok(count)
    }

    ghost tells = { read_tells };
}

/// Fills a piece with the bytes of a repeated line, beginning with the byte of number `from`.
fn fill(piece: &mut [u8], line: &[u8; 64], from: u64)
    requires { from + length piece.old < 2 ^ 64 }
    ensures { piece.new ≡ repeated line.now from (length piece.old) }
{
    let mut at = 0;
    'bytes: while at < piece.len() {
        piece[at] = line[((from + at as u64) % LINE) as usize];
        at += 1;
    }
}
