//! Boards that lack one card.

ghost use Rattle.std.specs.Prelude.{◌≡◌, ℕ, ◌+◌, ◌*◌, ◌<◌, ◌≤◌, ◌==◌, [], ◌∷◌, List, length, map, slice_index, slice_index_or, IsTrue};
ghost use Rattle.card_sets.specs.Cards.{rank_of, union};
ghost use Rattle.card_sets.specs.State.{state_of};
ghost use Rattle.card_sets.specs.declared.games.Side.{Side};
ghost use Rattle.runout_ranges.specs.Runouts.{HasMember};
ghost use Rattle.runout_ranges.specs.Shapes.{IsShapeOf};
ghost use Rattle.runout_ranges.specs.Slots.{slots};
ghost use Rattle.showdown_tally.specs.Deals.{deal_of};
ghost use Rattle.showdown_tally.specs.Settling.{number_of};
ghost use Rattle.showdown_tally.specs.SideCounts.{CountsFit, CountsGrow};
ghost use Rattle.showdown_tally.specs.Sides.{side_outcome};
ghost use Rattle.showdown_tally.specs.Tallies.{runouts_after};
ghost use Rattle.board_runouts.specs.Boards.{board_lacks};
ghost use Rattle.board_ranks.specs.BoardWith.{low_number};
ghost use Rattle.board_ranks.specs.HighParts.{plain_number};
ghost use Rattle.board_runouts.specs.Highs.{IsBoardFor};
ghost use Rattle.board_runouts.specs.KeptRows.{AreWorthsAfter};
ghost use Rattle.board_runouts.specs.Rivers.{AreWonWith, IsShortFor, IsWonBy, are_rivers};
ghost use Rattle.board_ranks.specs.Values.{one_of};

use crate::boards::board_lacks;
use crate::sides::Worths;
use crate::spot::BoardSpot;
use crate::suited::high_set;
use board_ranks::{one_of, plain_value};
use card_sets::{Card, CardSet, Known, Side};
use runout_ranges::Shape;
use runout_walk::{
    CardList, Leaf, Span, add_one, all_are_hands, are_hands, pot_best, ten_places, ten_pots,
    winners_on,
};
use showdown_tally::{Table, law_values_keep_order, side_value};
use std::sync::ledger::Ledger;
use step_count::Steps;

/// The rank of no card.
const NO_RANK: u8 = 13;

/// Whether the runouts of a table are single cards of the board: a game with a board, which alone lacks cards, and just one.
pub fn are_rivers(table: &Table, shape: &Shape) -> bool
    ensures { result ≡ are_rivers table.now shape.now }
{
    table.known.game.has_board() && board_lacks(shape) == 1
}

/// What each hand is worth with a full board, as a high if there were no flushes.
fn worths_at(known: &Known, board: CardSet) -> Worths
    requires { IsBoardFor (state_of known.now) board }

    // Flushes are left aside; only the high has them.
    ensures highs { (h : ℕ) → h < length (state_of known.now).hands
        → slice_index result.highs h
        ≡ plain_number known.now.game (slice_index_or (state_of known.now).hands h []) board }
    ensures lows { (h : ℕ) → h < length (state_of known.now).hands
        → number_of result.lows h
        ≡ low_number known.now.game (slice_index_or (state_of known.now).hands h []) board }
{
    let mut highs = [0; 10];
    let mut lows = [None; 10];
    let hands = &known.hands[..known.count as usize];
    for (hand, own) in hands.iter().enumerate() {
        highs[hand] = plain_value(known.game, *own, board);
        lows[hand] = side_value(Side::Low, known.game, *own, board);
    }
    Worths { highs, lows }
}

/// Who wins both sides of each pot with a last card of some rank, the high by ranks alone.
#[derive(Clone, Copy)]
struct Won {
    /// By the pot, the set of the hands that win the high by ranks alone, as the number with their bits.
    highs: [u16; 10],
    /// By the pot, the set of the hands that win the low.
    lows: [u16; 10],
    /// So large may a set be.
    ghost few_highs: { (pot : ℕ) → slice_index highs pot < 1024 },
    /// So large may a set be.
    ghost few_lows: { (pot : ℕ) → slice_index lows pot < 1024 },
}

impl Won {
    /// Nobody wins.
    fn none() -> Won {
        Won {
            highs: [0; 10],
            lows: [0; 10],
        }
    }

    /// Who wins by what the hands are worth.
    fn by(table: &Table, worths: &Worths) -> Won
        ensures { (pot : ℕ) (runout : List (List ℕ)) → pot < table.now.pots
            → AreWorthsAfter (state_of table.now.known) runout worths.now
            → IsWonBy (deal_of table.now) pot runout (slice_index result.highs pot)
            (slice_index result.lows pot) }
    {
        ten_places(table);
        let mut highs = [0; 10];
        let mut lows = [0; 10];
        for pot in 0..table.pots {
            let high = pot_best(table, pot, &worths.highs);
            let low = winners_on(table, Side::Low, &worths.lows, pot);
            highs[usize::from(pot)] = high.set;
            lows[usize::from(pot)] = low;
        }
        Won { highs, lows }
    }
}

/// Whether a card of a suit makes nobody five of a suit, by the most cards of each suit that a hand has with the known board.
#[inline]
fn is_short(most: &[u32; 4], suit: u8) -> bool
    requires { (s : ℕ) → slice_index most.now s ≤ 104 }
    ensures { IsTrue result → IsShortFor most.now suit }
{
    most[0] + one_of(suit, 0) <= 4
        && most[1] + one_of(suit, 1) <= 4
        && most[2] + one_of(suit, 2) <= 4
        && most[3] + one_of(suit, 3) <= 4
}

/// The board with a last card.
#[inline]
fn full_board(spot: &BoardSpot, card: Card) -> CardSet
    requires { card < 52 }
    ensures { result ≡ union spot.now.table.known.board (card ∷ []) }
{
    spot.table.known.board.union(CardSet::empty().with(card))
}

/// Who wins the high of a pot with a last card, as the number with their bits.
#[inline]
fn high_winners(spot: &BoardSpot, won: &Won, card: Card, pot: u8) -> u16
    requires member { HasMember (runouts_after (state_of spot.now.table.known)) ((card ∷ []) ∷ []) }
    requires pot { pot < spot.now.table.pots }
    requires won { IsWonBy (deal_of spot.now.table) pot ((card ∷ []) ∷ [])
        (slice_index won.now.highs pot) (slice_index won.now.lows pot) }
    ensures value { result
        ≡ side_outcome Side.High (deal_of spot.now.table) pot ((card ∷ []) ∷ []) }
    ensures small { result < 1024 }
{
    law_values_keep_order();
    are_hands(&spot.table, pot);
    ten_places(&spot.table);
    if is_short(&spot.most, card.suit()) {
        return won.highs[usize::from(pot)];
    }
    let board = full_board(spot, card);
    high_set(&spot.table, pot, board)
}

/// Counts the runout of a last card for each pot.
fn count_river(spot: &BoardSpot, won: &Won, card: Card, counts: &mut [[u32; 2048]])
    // The card completes a runout, and flushes aside it is known who wins each pot with it.
    requires member { HasMember (runouts_after (state_of spot.now.table.known)) ((card ∷ []) ∷ []) }
    requires won { (pot : ℕ) → pot < length (deal_of spot.now.table).pots
        → IsWonBy (deal_of spot.now.table) pot ((card ∷ []) ∷ []) (slice_index won.now.highs pot)
        (slice_index won.now.lows pot) }

    // Each pot has its two rows, and each of their counts has room for one more.
    requires places { 2 * length (deal_of spot.now.table).pots ≤ length counts.old }
    requires fits { CountsFit (deal_of spot.now.table) counts.old 1 }

    // The runout is counted for each pot, a flush too.
    ensures counts { CountsGrow (deal_of spot.now.table)
        (((card ∷ []) ∷ []) ∷ []) counts.old counts.new }
    ensures places { length counts.new ≡ length counts.old }
{
    ten_pots(&spot.table);
    let game = spot.table.known.game;
    for pot in 0..spot.table.pots {
        let high = high_winners(spot, won, card, pot);
        let low = won.lows[usize::from(pot)];
        add_one(counts, game, pot, high, low);
    }
}

/// Settles boards that lack one card, one by one. Who wins by ranks alone is worked out once for each rank of the last card.
#[derive(Clone, Copy)]
pub struct Rivers {
    /// What is shown down for.
    pub table: Table,
    /// The table, with what is looked up at each last card.
    spot: BoardSpot,
    /// The rank of the last cards for which `won` is right, 13 if there is none.
    rank: u8,
    /// Who wins each pot by ranks with a last card of that rank.
    won: Won,
    /// The table once more, with what is looked up at each card.
    ghost same: { spot.table ≡ table },
    /// The board lacks one card.
    ghost one: { board_lacks (slots (state_of spot.table.known)) ≡ 1 },
    /// It is known for that rank.
    ghost kept: { AreWonWith (deal_of spot.table) rank won.highs won.lows },
}

impl Rivers {
    /// Settles the runouts of a table, whose shape this is.
    pub fn of(table: &Table, shape: &Shape) -> Rivers
        requires shape { IsShapeOf (state_of table.now.known) shape.now }
        requires rivers { IsTrue (are_rivers table.now shape.now) }
        ensures { result.table ≡ table.now }
    {
        Rivers {
            table: *table,
            spot: BoardSpot::of(table),
            rank: NO_RANK,
            won: Won::none(),
        }
    }

    /// Makes it known who wins with a last card of its rank.
    fn keep(&mut self, card: Card)
        requires member { HasMember (runouts_after (state_of self.old.spot.table.known)) ((card ∷ []) ∷ []) }
        ensures rank { self.new.rank ≡ rank_of card }
        ensures spot { self.new.spot ≡ self.old.spot }
        ensures table { self.new.table ≡ self.old.table }
    {
        if self.rank == card.rank() {
            return;
        }
        let board = full_board(&self.spot, card);
        let worths = worths_at(&self.spot.table.known, board);
        self.won = Won::by(&self.spot.table, &worths);
        self.rank = card.rank();
    }

    /// Counts the runout of each of some last cards for each pot. It takes a step a card.
    fn count_cards<L: Ledger>(
        &mut self,
        cards: &[Card],
        counts: &mut [[u32; 2048]],
        steps: &mut Steps<L>,
    )
        // Each card completes a runout.
        requires members { (card : ℕ) → HasMember cards.now card
            → HasMember (runouts_after (state_of self.old.spot.table.known)) ((card ∷ []) ∷ []) }

        // Each pot has its two rows, and each of their counts has room for all cards.
        requires places { 2 * length (deal_of self.old.spot.table).pots ≤ length counts.old }
        requires fits { CountsFit (deal_of self.old.spot.table) counts.old (length cards.now) }

        // The runouts of these cards are counted, and no others.
        ensures counts { CountsGrow (deal_of self.old.spot.table)
            (map (λ card. (card ∷ []) ∷ []) cards.now) counts.old counts.new }
        ensures places { length counts.new ≡ length counts.old }
        ensures steps { steps.new ≡ steps.old + length cards.now }
        ensures table { self.new.table ≡ self.old.table }
    {
        for card in cards {
            steps.tick();
            self.keep(*card);
            count_river(&self.spot, &self.won, *card, counts);
        }
    }
}

impl Leaf for Rivers {
    ghost deal = { λ r. deal_of r.table };

    ghost depth = { λ _. 1 };

    fn depth(&self) -> u32 {
        1
    }

    fn count<L: Ledger>(&mut self, counts: &mut [[u32; 2048]], span: &Span, steps: &mut Steps<L>) {
        let cards = CardList::of(span.tail.rest);
        let all = cards.as_slice();
        let some = &all[span.lo as usize..span.hi as usize];
        self.count_cards(some, counts, steps);
    }
}
