//! Lists of blocks, of queues, and of hands.

ghost use Rattle.std.specs.Prelude.{◌≡◌, ℕ, ◌<◌, ◌==◌, Option, None, [], ◌∷◌, ◌++◌, drop, length, slice_get, slice_set, slice_index_or, IfOk, OnOk, OnErr};

use card_sets::Memory;
use std::alloc::Global;
use std::marker::Model;

/// Blocks: a queue, the front first, or the booked blocks in their order. Clauses see the list of them.
#[derive(Drop)]
pub struct Blocks {
    /// The blocks, in their order.
    items: Vec<u32>,
}

impl Model for Blocks {
    ghost use Rattle.std.specs.Prelude.{ℕ, List};

    ghost Value = { List ℕ };

    ghost view = { λ b. b.items.items };
}

impl Blocks {
    /// Returns the blocks.
    pub fn items(&self) -> &[u32]
        ensures { result.now ≡ self.now }
    {
        self.items.as_slice()
    }

    /// Wraps the list.
    pub fn of(items: Vec<u32>) -> Blocks
        ensures { result ≡ items.items }
    {
        Blocks { items }
    }

    /// Returns whether there is no block.
    fn is_empty(&self) -> bool
        ensures { result ≡ (length self.now == 0) }
    {
        self.items.is_empty()
    }

    /// Adds a block at the back. `Memory` changes nothing.
    pub(crate) fn push(&mut self, block: u32) -> Result<(), Memory>
        ensures pushed { OnOk result (self.new ≡ self.old ++ block ∷ []) }
        ensures memory { OnErr result (self.new ≡ self.old) }
    {
        self.items.reserve(1)?;
        self.items.push_reserved(block);
        Ok(())
    }

    /// Takes the first block. `None` exactly if there is none.
    fn take_front(&mut self) -> Option<u32>
        ensures front { result ≡ slice_get self.old 0 }
        ensures rest { self.new ≡ drop 1 self.old }
    {
        if self.items.is_empty() {
            return None;
        }
        Some(self.items.remove(0))
    }

    /// Returns a copy of the blocks.
    pub(crate) fn copied(&self, alloc: Global) -> Result<Blocks, Memory>
        ensures { IfOk result (λ blocks. blocks ≡ self.now) }
    {
        Ok(Blocks {
            items: Vec::from_slice(alloc, self.items.as_slice())?,
        })
    }
}

/// The queues of all workers, by their numbers. Clauses see the list of them.
#[derive(Drop)]
pub struct Queues {
    /// The queue of each worker.
    items: Vec<Blocks>,
}

impl Model for Queues {
    ghost use Rattle.std.specs.Prelude.{ℕ, List};

    ghost Value = { List (List ℕ) };

    ghost view = { λ q. q.items.items };
}

impl Queues {
    /// Returns the queues.
    pub fn items(&self) -> &[Blocks]
        ensures { result.now ≡ self.now }
    {
        self.items.as_slice()
    }

    /// Wraps the list.
    pub fn of(items: Vec<Blocks>) -> Queues
        ensures { result ≡ items.items }
    {
        Queues { items }
    }

    /// Returns whether a worker's queue is empty.
    pub(crate) fn is_empty_at(&self, worker: u32) -> bool
        requires { worker < length self.now }
        ensures { result ≡ (length (slice_index_or self.now worker []) == 0) }
    {
        self.items[worker as usize].is_empty()
    }

    /// Adds a block at the back of a worker's queue. `Memory` changes nothing.
    pub(crate) fn push_at(&mut self, worker: u32, block: u32) -> Result<(), Memory>
        requires { worker < length self.old }
        ensures pushed { OnOk result
            (self.new
            ≡ slice_set self.old worker (slice_index_or self.old worker [] ++ block ∷ [])) }
        ensures memory { OnErr result (self.new ≡ self.old) }
    {
        self.items[worker as usize].push(block)
    }

    /// Takes the first block of a worker's queue. `None` exactly if the queue is empty.
    pub(crate) fn take_front_at(&mut self, worker: u32) -> Option<u32>
        requires { worker < length self.old }
        ensures front { result ≡ slice_get (slice_index_or self.old worker []) 0 }
        ensures rest { self.new
            ≡ slice_set self.old worker (drop 1 (slice_index_or self.old worker [])) }
    {
        self.items[worker as usize].take_front()
    }

    /// Returns a copy of the queues.
    pub(crate) fn copied(&self, alloc: Global) -> Result<Queues, Memory>
        ensures { IfOk result (λ queues. queues ≡ self.now) }
    {
        let queues = self.items.as_slice();
        let mut items = Vec::new(alloc);
        for queue in queues {
            let copy = queue.copied(alloc)?;
            items.reserve(1)?;
            items.push_reserved(copy);
        }
        Ok(Queues { items })
    }
}

/// The hands of all workers, by their numbers: a block or none. Clauses see the list of them.
#[derive(Drop)]
pub struct Hands {
    /// The block in the hand of each worker, or none.
    items: Vec<Option<u32>>,
}

impl Model for Hands {
    ghost use Rattle.std.specs.Prelude.{ℕ, List, Option};

    ghost Value = { List (Option ℕ) };

    ghost view = { λ h. h.items.items };
}

impl Hands {
    /// Returns the hands.
    pub fn items(&self) -> &[Option<u32>]
        ensures { result.now ≡ self.now }
    {
        self.items.as_slice()
    }

    /// Wraps the list.
    pub fn of(items: Vec<Option<u32>>) -> Hands
        ensures { result ≡ items.items }
    {
        Hands { items }
    }

    /// Returns the block in a worker's hand.
    pub(crate) fn at(&self, worker: u32) -> Option<u32>
        requires { worker < length self.now }
        ensures { result ≡ slice_index_or self.now worker None }
    {
        self.items[worker as usize]
    }

    /// Puts a block or none into a worker's hand.
    pub(crate) fn put(&mut self, worker: u32, hand: Option<u32>)
        requires { worker < length self.old }
        ensures { self.new ≡ slice_set self.old worker hand }
    {
        self.items[worker as usize] = hand;
    }

    /// Returns a copy of the hands.
    pub(crate) fn copied(&self, alloc: Global) -> Result<Hands, Memory>
        ensures { IfOk result (λ hands. hands ≡ self.now) }
    {
        Ok(Hands {
            items: Vec::from_slice(alloc, self.items.as_slice())?,
        })
    }
}
