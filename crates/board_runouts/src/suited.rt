//! Runouts with which somebody may have a flush.

ghost use Rattle.std.specs.Prelude.{◌≡◌, ℕ, ◌<◌, ◌≤◌, [], length, slice_index, slice_index_or};
ghost use Rattle.card_sets.specs.State.{state_of};
ghost use Rattle.showdown_tally.specs.Deals.{deal_of};
ghost use Rattle.showdown_tally.specs.Flushes.{IsOnlySuit};
ghost use Rattle.showdown_tally.specs.Showdown.{eligible_in};
ghost use Rattle.runout_walk.specs.Bests.{best_set};
ghost use Rattle.board_ranks.specs.HighParts.{high_number};
ghost use Rattle.board_runouts.specs.Fronts.{IsFlushFor, IsFlushWith, IsPartWith, IsRunoutWith, front_deal};
ghost use Rattle.board_runouts.specs.Highs.{IsBoardFor};
ghost use Rattle.board_runouts.specs.KeptRows.{IsRowFor, pair_place};

use crate::flush::{Flush, Suited};
use crate::front::Front;
use crate::places::Place;
use crate::row::Row;
use board_ranks::{Pair, high_value};
use card_sets::{Card, CardSet, Known, Side};
use runout_walk::{are_hands, low_mark, pot_best, ten_places};
use showdown_tally::{Table, flush_suit, law_values_keep_order};

/// What each hand is worth as a high with a full board.
fn highs_with(known: &Known, board: CardSet) -> [u32; 10]
    requires { IsBoardFor (state_of known.now) board }
    ensures { (h : ℕ) → h < length (state_of known.now).hands
        → slice_index result h
        ≡ high_number known.now.game (slice_index_or (state_of known.now).hands h []) board }
{
    let mut highs = [0; 10];
    let hands = &known.hands[..known.count as usize];
    for (hand, own) in hands.iter().enumerate() {
        highs[hand] = high_value(known.game, *own, board);
    }
    highs
}

/// Who has the best high of a pot with a full board, hand by hand.
#[inline(never)]
pub(crate) fn high_set(table: &Table, pot: u8, board: CardSet) -> u16
    requires full { IsBoardFor (state_of table.now.known) board }
    requires pot { pot < table.now.pots }

    // Whatever says what each hand is worth as a high, these are the best of the pot's hands by it.
    ensures set { (value : ℕ → ℕ)
        → ((h : ℕ) → h < length (state_of table.now.known).hands
        → high_number table.now.known.game
        (slice_index_or (state_of table.now.known).hands h []) board ≡ value h)
        → result ≡ best_set value (eligible_in (deal_of table.now) pot) }
    ensures small { result < 1024 }
{
    let highs = highs_with(&table.known, board);
    pot_best(table, pot, &highs).set
}

/// The suit that a full board has more than two cards of, if there is one. One suit is looked at first.
#[inline]
fn suit_of_three(board: CardSet, first: u8) -> Option<u8>
    requires board { length board ≤ 5 }
    requires first { first < 4 }
    ensures { IsOnlySuit board result }
{
    if board.of_suit(first).count() > 2 {
        return Some(first);
    }
    flush_suit(board)
}

/// The rank of a card as a bit, if it is of a suit.
#[inline]
fn bit_in(card: Card, suit: u8) -> u32 {
    if card.suit() == suit {
        1 << card.rank()
    } else {
        0
    }
}

/// The suit that the board has more than two cards of with a pair as the last two cards, if there is one. One suit is looked at first.
/// `tags` are those of the front.
#[inline]
fn board_part(front: &Front, tags: &[u32; 4], pair: &Pair, first: u8) -> Option<Suited>
    requires first { first < 4 }
    requires member { IsRunoutWith front.now pair.now }
    ensures { IsPartWith front.now pair.now result }
{
    let spot = front.spot;
    let taken = front.taken;
    let table = &spot.table;
    table.known.board.rising();
    taken.rising();
    let set = taken.with(pair.low).with(pair.high);
    let board = table.known.board.union(set);
    let Some(suit) = suit_of_three(board, first) else {
        return None;
    };
    let cards = board.of_suit(suit);
    let tag = tags[usize::from(suit)] | bit_in(pair.low, suit) | bit_in(pair.high, suit);
    Some(Suited {
        board,
        cards,
        suit,
        tag,
    })
}

/// The suit that somebody may have a flush of with a pair as the last two cards, if there is one. `tags` are those of the front.
#[inline]
pub(crate) fn suited_part(front: &Front, tags: &[u32; 4], pair: &Pair) -> Option<Suited>
    requires member { IsRunoutWith front.now pair.now }
    ensures { IsPartWith front.now pair.now result }
{
    let first = front.suits[usize::from(pair.suits)];
    if first > 3 {
        return None;
    }
    board_part(front, tags, pair, first)
}

/// Where a runout with a pair as the last two cards, with which somebody may have a flush, is counted for a pot. The row is the pot's.
#[inline]
pub(crate) fn suited_place(
    front: &Front,
    row: &Row,
    flush: &Flush,
    pot: u8,
    pair: &Pair,
    part: &Suited,
) -> Place
    requires pot { pot < front.now.spot.now.table.pots }
    requires row { IsRowFor (front_deal front.now) pot front.now.taken row.now }

    // After the runout a hand is worth its ranks or its flush with the part's cards, the best of which is given for each pot.
    requires member { IsRunoutWith front.now pair.now }
    requires part { IsFlushWith front.now pair.now part.now }
    requires flush { IsFlushFor front.now part.now flush.now }

    // By the definition the runout is counted at these places.
    ensures main { result.main
        ≡ pair_place (front_deal front.now) front.now.taken pot Side.High pair.now }
    ensures low { result.low
        ≡ pair_place (front_deal front.now) front.now.taken pot Side.Low pair.now }
    ensures few_mains { result.main < 2048 }
    ensures few_lows { result.low < 1024 }
{
    law_values_keep_order();
    let spot = front.spot;
    are_hands(&spot.table, pot);
    ten_places(&spot.table);
    let at = usize::from(pot);
    let place = usize::from(pair.ranks);
    let main = row.mains[place];
    let low = row.lows[place];
    let top = row.tops[place];
    let best = flush.tops[at];
    if best < top {
        return Place { main, low };
    }
    let mark = low_mark(low);
    if top < best {
        return Place {
            main: flush.sets[at] + mark,
            low,
        };
    }
    Place {
        main: high_set(&spot.table, pot, part.board) + mark,
        low,
    }
}
