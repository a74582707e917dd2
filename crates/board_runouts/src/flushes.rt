//! The best flushes that were asked for last, each with its cards of one suit on the board.

ghost use Rattle.std.specs.Prelude.{◌≡◌, ℕ, ◌<◌, length, slice_get, Some, IfOk};
ghost use Rattle.card_sets.specs.State.{state_of};
ghost use Rattle.showdown_tally.specs.Deals.{deal_of};
ghost use Rattle.showdown_tally.specs.Showdown.{Showdown};
ghost use Rattle.board_runouts.specs.Highs.{AreBestFlushes, AreFlushesOf, AreSuitedFor};
ghost use Rattle.board_runouts.specs.KeptFlushes.{AreFlushes, ArePast};
ghost use Rattle.board_runouts.specs.declared.flush.Flush.{Flush};

use crate::flush::{Flush, Suited};
use board_ranks::suited_value;
use card_sets::Memory;
use runout_walk::{filled, pot_best, ten_places};
use showdown_tally::Table;
use std::alloc::Global;

/// How many flushes are kept. First cards that follow one another ask for the same ones. Before the flop three hands ask for 4,500 different
/// flushes and work out 11,000. With 1,024 places they would work out 17,000, which costs more time than a smaller table saves.
const FLUSHES: usize = 2048;

/// Returns what each hand is worth as a flush with some cards of a suit on the board, 0 if the hand has none.
fn hand_flushes(table: &Table, part: &Suited) -> [u32; 10]
    requires { AreSuitedFor (state_of table.now.known) part.now.cards part.now.suit }
    ensures { AreFlushesOf (state_of table.now.known) part.now.cards part.now.suit result }
{
    let mut values = [0; 10];
    let hands = &table.known.hands[..table.known.count as usize];
    for (hand, own) in hands.iter().enumerate() {
        values[hand] = suited_value(table.known.game, *own, part.cards, part.suit);
    }
    values
}

/// Returns the best flush of each pot with some cards of a suit on the board. Each hand is valued once for all pots.
fn best_flushes(table: &Table, part: &Suited, stamp: u32) -> Flush
    requires { AreSuitedFor (state_of table.now.known) part.now.cards part.now.suit }
    ensures stamp { result.stamp ≡ stamp }
    ensures best { AreBestFlushes (deal_of table.now) part.now.cards part.now.suit result.tops result.sets }
    ensures cards { result.cards ≡ part.now.cards }
    ensures suit { result.suit ≡ part.now.suit }
{
    ten_places(table);
    let values = hand_flushes(table, part);
    let mut tops = [0; 10];
    let mut sets = [0; 10];
    for pot in 0..table.pots {
        let best = pot_best(table, pot, &values);
        tops[usize::from(pot)] = best.top;
        sets[usize::from(pot)] = best.set;
    }
    Flush {
        cards: part.cards,
        stamp,
        suit: part.suit,
        sets,
        tops,
    }
}

/// Returns the place of the flush with some cards on the board. If two flushes share a place, the later one takes it.
#[inline]
fn flush_place(tag: u32, suit: u8) -> usize
    ensures { result < 2048 }
{
    let mixed = tag as usize * 40503 / 16;
    (mixed + 577 * usize::from(suit)) % FLUSHES
}

/// Makes each flush one of no deal.
fn drop_all(list: &mut [Flush])
    ensures none { (i : ℕ) (flush : Flush) → slice_get list.new i ≡ Some flush → flush.stamp ≡ 0 }
    ensures places { length list.new ≡ length list.old }
{
    let none = Flush::none();
    list.fill(none);
}

/// The best flushes that were asked for last. Each has the number of its deal, so that those of earlier deals needn't be cleared.
#[derive(Drop)]
pub(crate) struct Flushes {
    /// The number of the deal.
    pub(crate) stamp: u32,
    /// The flushes.
    pub(crate) list: Vec<Flush>,
}

impl Flushes {
    /// Makes room for flushes, and keeps none.
    pub(crate) fn none(alloc: Global) -> Result<Flushes, Memory>
        ensures { IfOk result (λ flushes. (deal : Showdown) → AreFlushes deal flushes) }
    {
        let list = filled(alloc, Flush::none(), FLUSHES)?;
        Ok(Flushes { stamp: 1, list })
    }

    /// Drops all flushes when the numbers of deals have run out.
    #[inline(never)]
    fn begin_again(&mut self)
        requires { length self.old.list.items ≡ 2048 }
        ensures { (deal : Showdown) → AreFlushes deal self.new }
    {
        drop_all(self.list.as_mut_slice());
        self.stamp = 1;
    }

    /// Drops all flushes.
    pub(crate) fn clear(&mut self)
        requires { ArePast self.old }
        ensures { (deal : Showdown) → AreFlushes deal self.new }
    {
        if self.stamp == u32::MAX {
            self.begin_again();
            return;
        }
        self.stamp += 1;
    }

    /// Works out the best flush of each pot with some cards of a suit on the board, and keeps it in a place.
    #[inline(never)]
    fn put(&mut self, place: usize, table: &Table, part: &Suited)
        requires place { place < 2048 }
        requires suited { AreSuitedFor (state_of table.now.known) part.now.cards part.now.suit }
        requires right { AreFlushes (deal_of table.now) self.old }
        ensures there { (flush : Flush) → slice_get self.new.list.items place ≡ Some flush
            → AreBestFlushes (deal_of table.now) part.now.cards part.now.suit flush.tops flush.sets }
        ensures right { AreFlushes (deal_of table.now) self.new }
    {
        self.list[place] = best_flushes(table, part, self.stamp);
    }

    /// Returns the place of the best flush of each pot with some cards of a suit on the board. If it isn't kept, it is worked out.
    #[inline]
    pub(crate) fn ready(&mut self, table: &Table, part: &Suited) -> usize
        requires suited { AreSuitedFor (state_of table.now.known) part.now.cards part.now.suit }

        // What is kept of flushes is right where it bears the deal's number, and stays so.
        requires right { AreFlushes (deal_of table.now) self.old }
        ensures place { result < length self.new.list.items }
        ensures there { (flush : Flush) → slice_get self.new.list.items result ≡ Some flush
            → AreBestFlushes (deal_of table.now) part.now.cards part.now.suit flush.tops flush.sets }
        ensures right { AreFlushes (deal_of table.now) self.new }
    {
        let place = flush_place(part.tag, part.suit);
        if self.list[place].is_of(self.stamp, part) {
            return place;
        }
        self.put(place, table, part);
        place
    }

    /// Returns the flush in a place.
    #[inline]
    pub(crate) fn flush_at(&self, place: usize) -> &Flush
        requires { place < length self.now.list.items }
        ensures { slice_get self.now.list.items place ≡ Some result.now }
    {
        &self.list[place]
    }
}
