//! A source and a sink in memory. The caller chooses which calls fail.

ghost use Rattle.std.specs.Prelude.{◌≡◌, ◌-◌, ◌<◌, ◌≤◌, ◌↔◌, ◌⊎◌, ◌++◌, [], length, Some, IsErr, IfOk, OnOk, OnErr, drop, take};
ghost use Rattle.std.specs.List.Sorted.{IsStrictlyIncreasing};
ghost use Rattle.byte_ends.specs.Ends.{Rises, Reads, Takes, moved_by, one_more};
ghost use Rattle.byte_ends.specs.Memory.{IsListed, ReadsMemory, WritesMemory, least};
ghost use Rattle.byte_ends.specs.MemoryLaws.{read_tells, write_tells};

use crate::{Failed, Sink, Source};
use card_sets::Memory;
use std::alloc::Global;
use std::marker::Model;

/// A source over bytes in memory. Its reads with the listed numbers fail.
#[derive(Drop)]
pub struct MemorySource {
    /// All bytes of the source, given or left.
    bytes: Vec<u8>,
    /// The number of bytes given.
    at: usize,
    /// The most bytes that one read gives.
    piece: usize,
    /// The numbers of the reads that fail, rising.
    fails: Vec<u64>,
    /// The number of reads made.
    calls: u64,
    /// The number of reads that failed.
    faults: u64,
}

impl Model for MemorySource {
    ghost use Rattle.std.specs.Prelude.{drop, vec_len};
    ghost use Rattle.byte_ends.specs.Memory.{SourceState, IsSourceSound};

    ghost Value = { SourceState };

    ghost view = { λ s. record {
      left = drop s.at s.bytes.items;
      piece = s.piece;
      fails = s.fails.items;
      calls = s.calls;
      faults = s.faults;
    } };

    ghost invariant = { λ s. IsSourceSound (vec_len s.bytes) s.at s.piece s.fails.items };
}

impl MemorySource {
    /// Returns a source of the bytes, which gives at most `piece` of them in one read. The reads
    /// whose numbers, counted from 0, are in the rising list `fails` fail.
    pub fn new(bytes: Vec<u8>, piece: usize, fails: Vec<u64>) -> MemorySource
        requires some { 0 < piece }
        requires rising { IsStrictlyIncreasing fails.items }
        ensures { result ≡ record {
          left = bytes.items;
          piece = piece;
          fails = fails.items;
          calls = 0;
          faults = 0;
        } }
    {
        MemorySource {
            bytes,
            at: 0,
            piece,
            fails,
            calls: 0,
            faults: 0,
        }
    }
}

impl Source for MemorySource {
    ghost left = { λ s. Some s.left };

    ghost faults = { λ s. s.faults };

    ghost reads = { ReadsMemory };

    fn read(&mut self, piece: &mut [u8]) -> Result<usize, Failed>
        // What the trait states of every source.
        ensures within { IfOk result (λ n. n ≤ length piece.new) }
        ensures bytes { IfOk result (λ n.
            Reads (Some self.old.left) (Some self.new.left) piece.old piece.new n) }
        ensures fine { OnOk result (self.new.faults ≡ self.old.faults) }
        ensures fault { OnErr result (Rises self.old.faults self.new.faults) }
        ensures same { OnErr result (Some self.new.left ≡ Some self.old.left) }
        ensures one { 0 < length piece.old
            → ReadsMemory self.old self.new (moved_by result piece.new) }

        // Exactly the listed reads fail.
        ensures refused { IsErr result ↔ IsListed self.old.fails self.old.calls }

        // How many bytes are read, and which.
        ensures amount { IfOk result (λ n.
            n ≡ least (length piece.old) self.old.piece (length self.old.left)) }
        ensures given { IfOk result (λ n. piece.new ≡ take n self.old.left ++ drop n piece.old) }
        ensures kept { OnErr result (piece.new ≡ piece.old) }

        // What clauses see of the source after the read. These two clauses give all of it.
        ensures after { IfOk result (λ n. self.new ≡ record self.old {
          left = drop n self.old.left;
          calls = one_more self.old.calls;
        }) }
        ensures after_fault { OnErr result (self.new ≡ record self.old {
          calls = one_more self.old.calls;
          faults = one_more self.old.faults;
        }) }
    {
        let call = self.calls;
        self.calls = call.saturating_add(1);
        if call < u64::MAX && self.fails.contains(&call) {
            self.faults = self.faults.saturating_add(1);
            return Err(Failed);
        }
        let rest = &self.bytes[self.at..];
        let count = piece.len().min(self.piece).min(rest.len());
        piece[..count].copy_from_slice(&rest[..count]);
        self.at += count;
        Ok(count)
    }

    ghost tells = { read_tells };
}

/// A sink in memory with limited room. Its writes with the listed numbers fail.
#[derive(Drop)]
pub struct MemorySink {
    /// The bytes taken.
    bytes: Vec<u8>,
    /// The number of bytes for which there is room.
    room: usize,
    /// The most bytes that one write takes.
    piece: usize,
    /// The numbers of the writes that fail, rising.
    fails: Vec<u64>,
    /// The number of writes made.
    calls: u64,
    /// The number of writes that failed.
    faults: u64,
}

impl Model for MemorySink {
    ghost use Rattle.std.specs.Prelude.{vec_len, vec_capacity};
    ghost use Rattle.byte_ends.specs.Memory.{SinkState, IsSinkSound};

    ghost Value = { SinkState };

    ghost view = { λ s. record {
      taken = s.bytes.items;
      room = s.room;
      piece = s.piece;
      fails = s.fails.items;
      calls = s.calls;
      faults = s.faults;
    } };

    ghost invariant = { λ s.
        IsSinkSound (vec_len s.bytes) s.room (vec_capacity s.bytes) s.piece s.fails.items };
}

impl MemorySink {
    /// Returns a sink with room for `room` bytes, which takes at most `piece` of them in one write.
    /// The writes whose numbers, counted from 0, are in the rising list `fails` fail. The call
    /// allocates memory for all `room` bytes. `Memory` if there isn't enough.
    pub fn new(
        alloc: Global,
        room: usize,
        piece: usize,
        fails: Vec<u64>,
    ) -> Result<MemorySink, Memory>
        requires some { 0 < piece }
        requires rising { IsStrictlyIncreasing fails.items }
        ensures { IfOk result (λ sink. sink ≡ record {
          taken = [];
          room = room;
          piece = piece;
          fails = fails.items;
          calls = 0;
          faults = 0;
        }) }
    {
        Ok(MemorySink {
            bytes: Vec::with_capacity(alloc, room)?,
            room,
            piece,
            fails,
            calls: 0,
            faults: 0,
        })
    }

    /// Returns the bytes that the sink has taken.
    pub fn bytes(&self) -> &[u8]
        ensures { result.now ≡ self.now.taken }
    {
        &self.bytes
    }
}

impl Sink for MemorySink {
    ghost taken = { λ s. Some s.taken };

    ghost faults = { λ s. s.faults };

    ghost writes = { WritesMemory };

    fn write(&mut self, piece: &[u8]) -> Result<usize, Failed>
        // What the trait states of every sink.
        ensures within { IfOk result (λ n. n ≤ length piece.now) }
        ensures some { IfOk result (λ n. 0 < length piece.now → 0 < n) }
        ensures bytes { IfOk result
            (λ n. Takes (Some self.old.taken) (Some self.new.taken) piece.now n) }
        ensures fine { OnOk result (self.new.faults ≡ self.old.faults) }
        ensures fault { OnErr result (Rises self.old.faults self.new.faults) }
        ensures same { OnErr result (Some self.new.taken ≡ Some self.old.taken) }
        ensures one { 0 < length piece.now
            → WritesMemory self.old self.new (moved_by result piece.now) }

        // The listed writes fail, and so does a write for which there is no room.
        ensures refused { IsErr result ↔
            (IsListed self.old.fails self.old.calls
            ⊎ (0 < length piece.now) × (self.old.room ≡ 0)) }

        // A write takes what the size of a piece and the room allow.
        ensures amount { IfOk result
            (λ n. n ≡ least (length piece.now) self.old.piece self.old.room) }

        // What clauses see of the sink after the write. These two clauses give all of it.
        ensures after { IfOk result (λ n. self.new ≡ record self.old {
          taken = self.old.taken ++ take n piece.now;
          room = self.old.room - n;
          calls = one_more self.old.calls;
        }) }
        ensures after_fault { OnErr result (self.new ≡ record self.old {
          calls = one_more self.old.calls;
          faults = one_more self.old.faults;
        }) }
    {
        let call = self.calls;
        self.calls = call.saturating_add(1);
        let listed = call < u64::MAX && self.fails.contains(&call);
        let full = !piece.is_empty() && self.room == 0;
        if listed || full {
            self.faults = self.faults.saturating_add(1);
            return Err(Failed);
        }
        let count = piece.len().min(self.piece).min(self.room);
        self.bytes.extend_from_slice(&piece[..count]).unwrap();
        self.room -= count;
        Ok(count)
    }

    ghost tells = { write_tells };
}
