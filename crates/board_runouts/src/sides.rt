//! Who wins both sides of a pot by the ranks of the cards.

ghost use Rattle.std.specs.Prelude.{ℕ, ◌<◌, List};
ghost use Rattle.card_sets.specs.Cards.{union};
ghost use Rattle.card_sets.specs.State.{state_of};
ghost use Rattle.showdown_tally.specs.Deals.{deal_of};
ghost use Rattle.board_runouts.specs.HandRanks.{AreHandRanks, AreHandRanksAnd, AreWorthsWith};
ghost use Rattle.board_runouts.specs.KeptRows.{AreWorthsAfter};
ghost use Rattle.board_runouts.specs.SideRows.{IsBestOf};

use crate::start::Start;
use board_ranks::{HandWithBoard, Threes, worth_with};
use card_sets::{ByRank, CardSet, Known, Side};
use runout_walk::{low_mark, pot_best, winners_on};
use showdown_tally::Table;

/// What each hand is worth on both sides.
#[derive(Clone, Copy)]
pub(crate) struct Worths {
    /// As highs by ranks alone.
    pub(crate) highs: [u32; 10],
    /// As lows, turned round so that greater is better, where there are any.
    pub(crate) lows: [Option<u32>; 10],
}

impl Worths {
    /// What no hands are worth.
    pub(crate) fn none() -> Worths {
        Worths {
            highs: [0; 10],
            lows: [None; 10],
        }
    }
}

/// Who wins a pot by ranks alone.
#[derive(Clone, Copy)]
pub(crate) struct Ends {
    /// The set of the hands that win the high, and 1,024 more where somebody has a low.
    pub(crate) main: u16,
    /// The set of those that win the low.
    pub(crate) low: u16,
    /// The best high.
    pub(crate) top: u32,
}

/// By hand, how many cards there are of each rank among its own cards and a board.
pub(crate) fn hand_ranks(known: &Known, board: CardSet) -> [ByRank; 10]
    ensures { AreHandRanks (state_of known.now) board result }
{
    let mut ranks = [CardSet::empty().by_rank(); 10];
    let hands = &known.hands[..known.count as usize];
    for (hand, own) in hands.iter().enumerate() {
        ranks[hand] = own.union(board).by_rank();
    }
    ranks
}

/// Works out the same with one card of a rank more.
pub(crate) fn add_rank(known: &Known, held: &[ByRank; 10], rank: u8, more: &mut [ByRank; 10])
    requires { rank < 13 }
    ensures { (board : List ℕ) → AreHandRanks (state_of known.now) board held.now
        → AreHandRanksAnd (state_of known.now) board rank more.new }
{
    let hands = &known.hands[..known.count as usize];
    for hand in 0..hands.len() {
        let ranks = held[hand];
        more[hand] = ranks.with_rank(rank);
    }
}

/// Works out what each hand is worth with first cards of the board and one card of each of two ranks more, as a high if there were no
/// flushes, and as a low. `ranks` has how many cards of each rank the hand has with the board, the first cards, and one of the lower rank.
pub(crate) fn worths_with(
    threes: &Threes,
    start: &Start,
    ranks: &[ByRank; 10],
    low: u8,
    high: u8,
    worths: &mut Worths,
)
    requires ranks { AreHandRanksAnd (state_of start.now.spot.now.table.known)
        (union (state_of start.now.spot.now.table.known).board start.now.taken) low ranks.now }

    // Any two ranks, or one twice.
    requires low { low < 13 }
    requires high { high < 13 }

    // This holds of each full board of such cards, whichever they are. If there is none, it says nothing.
    ensures { AreWorthsWith (state_of start.now.spot.now.table.known) start.now.taken low high worths.new }
{
    let known = &start.spot.table.known;
    let taken = start.taken;
    known.board.rising();
    taken.rising();
    let board = known.board.union(taken);
    let hands = &known.hands[..known.count as usize];
    for (hand, own) in hands.iter().enumerate() {
        own.rising();
        let held = HandWithBoard {
            hand,
            game: known.game,
            own: *own,
            board,
        };
        let worth = worth_with(threes, &held, &ranks[hand], low, high);
        worths.highs[hand] = worth.high;
        worths.lows[hand] = worth.low;
    }
}

/// Who wins both sides of a pot by what the hands are worth.
pub(crate) fn pot_ends(table: &Table, pot: u8, worths: &Worths) -> Ends
    requires { pot < table.now.pots }
    ensures best { (runout : List (List ℕ))
        → AreWorthsAfter (state_of table.now.known) runout worths.now
        → IsBestOf (deal_of table.now) pot runout result.main result.low result.top }
    ensures main { result.main < 2048 }
    ensures low { result.low < 1024 }
{
    let high = pot_best(table, pot, &worths.highs);
    let low = winners_on(table, Side::Low, &worths.lows, pot);
    Ends {
        main: high.set + low_mark(low),
        low,
        top: high.top,
    }
}
