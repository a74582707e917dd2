//! Runouts that are boards, by their last two cards.
//!
//! The walk calls itself for each card of the deck. So `count` isn't inlined into it: with what `count` has on the stack, the frames of these
//! calls are twice as large, and don't fit into the nearest cache.

ghost use Rattle.std.specs.Prelude.{◌≡◌, IsTrue};
ghost use Rattle.card_sets.specs.State.{state_of};
ghost use Rattle.runout_ranges.specs.Shapes.{IsShapeOf, slots_of};
ghost use Rattle.runout_ranges.specs.Slots.{unseen};
ghost use Rattle.showdown_tally.specs.Deals.{deal_of};
ghost use Rattle.board_runouts.specs.Boards.{are_boards, board_lacks};
ghost use Rattle.board_runouts.specs.Codes.{AreAllCodes};
ghost use Rattle.board_runouts.specs.KeptRows.{AreRows};
ghost use Rattle.board_runouts.specs.KeptFlushes.{AreFlushes};

use crate::board_leaf::count_each;
use crate::coded_rows::CodedRows;
use crate::deal::same_deal;
use crate::flushes::Flushes;
use crate::front::{Front, own_suits};
use crate::pairs::Pairs;
use crate::parts::count_parts;
use crate::rows::Rows;
use crate::spot::BoardSpot;
use crate::start::Start;
use board_ranks::most_with;
use card_sets::{CardSet, Memory};
use runout_ranges::{Receiver, Shape};
use runout_walk::{Leaf, Span};
use showdown_tally::Table;
use std::alloc::Global;
use std::sync::ledger::Ledger;
use step_count::Steps;

/// How many cards the board lacks, where nobody else lacks any: 0 elsewhere.
pub(crate) fn board_lacks(shape: &Shape) -> u32
    ensures { result ≡ board_lacks (slots_of shape.now) }
{
    match &shape.slots[..shape.used as usize] {
        [slot] if slot.receiver == Receiver::Board => u32::from(slot.count),
        _ => 0,
    }
}

/// Whether the runouts of a table are boards that lack two cards or more: a game with a board, which alone lacks cards.
pub fn are_boards(table: &Table, shape: &Shape) -> bool
    ensures { result ≡ are_boards table.now shape.now }
{
    table.known.game.has_board() && 2 <= board_lacks(shape)
}

/// The room that boards are counted in. It asks for up to 1 MB of the heap. Rows, codes, sieves, and threes of ranks are written when a count
/// first needs them. What it keeps of one count, the next count of the same deal uses, and nothing else changes.
#[derive(Drop)]
pub struct Boards {
    /// The table that it serves.
    pub table: Table,
    /// The table, with what is looked up at each pair.
    spot: BoardSpot,
    /// The unseen cards.
    cards: CardSet,
    /// All pairs of the unseen cards that a count listed last, with their sieves.
    pairs: Pairs,
    /// By the pot and the ranks of first cards, who wins for each pair of ranks.
    rows: Rows,
    /// The outcomes of the rows as codes.
    codes: CodedRows,
    /// The best flushes that were asked for last.
    flushes: Flushes,
    /// The table once more, with what is looked up at each pair.
    ghost same: { spot.table ≡ table },
    /// The cards are those that may come.
    ghost all: { cards ≡ unseen (state_of table.known) },
    /// The rows are the deal's.
    ghost right: { AreRows (deal_of spot.table) rows.rows.items },
    /// The codes are the deal's.
    ghost coded: { AreAllCodes (deal_of spot.table) codes.list.items },
    /// The flushes are the deal's.
    ghost best: { AreFlushes (deal_of spot.table) flushes },
}

impl Boards {
    /// An empty room. `Memory` where there is none for its tables.
    #[inline(never)]
    pub fn new(alloc: Global) -> Result<Boards, Memory> {
        let spot = BoardSpot::none();
        let pairs = Pairs::none(alloc)?;
        let rows = Rows::none(alloc)?;
        let codes = CodedRows::none(alloc)?;
        let flushes = Flushes::none(alloc)?;
        Ok(Boards {
            pairs,
            rows,
            codes,
            flushes,
            table: spot.table,
            cards: CardSet::empty(),
            spot,
        })
    }

    /// Makes it count the runouts of a table. What it keeps is dropped, but where the deal is the same.
    pub fn serve(&mut self, table: &Table, shape: &Shape)
        requires shape { IsShapeOf (state_of table.now.known) shape.now }
        requires boards { IsTrue (are_boards table.now shape.now) }
        ensures deal { deal_of self.new.table ≡ deal_of table.now }
    {
        if same_deal(&self.table, table) {
            return;
        }
        self.rows.clear();
        self.codes.clear();
        self.flushes.clear();
        self.cards = shape.unseen;
        self.spot = BoardSpot::of(table);
        self.table = *table;
    }
}

impl Leaf for Boards {
    ghost deal = { λ b. deal_of b.table };

    ghost depth = { λ _. 2 };

    fn depth(&self) -> u32 {
        2
    }

    #[inline(never)]
    fn count<L: Ledger>(&mut self, counts: &mut [[u32; 2048]], span: &Span, steps: &mut Steps<L>) {
        span.tail.rest.rising();
        let taken = span.tail.taken;
        let start = Start::of(&self.spot, taken);
        let spot = start.spot;
        let base = self.rows.ready(&start);
        let rows = self.rows.stretch(base, spot.table.pots);
        let flushes = &mut self.flushes;
        self.pairs.serve(self.cards);
        if taken == CardSet::empty() {
            let suits = own_suits(&start);
            let front = Front::of(&start, rows, None, &suits);
            let stretch = self.pairs.stretch(span.tail.rest, span.lo, span.hi);
            let some = self.pairs.between(stretch);
            count_each(&front, flushes, some, counts, steps);
            return;
        }
        let place = self.codes.ready(base, rows, &start);
        let codes = self.codes.enough_at(place);
        let most = most_with(spot.most, start.taken);
        let sieve = self.pairs.ready(&most);
        let stretch = self.pairs.stretch(span.tail.rest, span.lo, span.hi);
        let parts = self.pairs.parts(sieve, stretch);
        let front = Front::of(&start, rows, codes, &parts.sieve.suits);
        count_parts(&front, flushes, &parts, counts, steps);
    }
}
