//! The first cards of a board, with everything that is looked up at a pair after them.
//!
//! The type keeps the facts that connect its fields, so the functions that take a `Front` don't repeat them. `Start` is what is known
//! before there are rows. A front is made once, and refers to everything that it has but the cards.

ghost use Rattle.std.specs.Option.{ForSome};
ghost use Rattle.std.specs.Prelude.{◌≡◌, length, IsTrue};
ghost use Rattle.showdown_tally.specs.Deals.{deal_of};
ghost use Rattle.board_runouts.specs.Codes.{AreCodesFor};
ghost use Rattle.board_runouts.specs.KeptRows.{AreRowsOf};
ghost use Rattle.board_ranks.specs.Suits.{AreFivesWith};

use crate::codes::Codes;
use crate::row::Row;
use crate::spot::BoardSpot;
use crate::start::Start;
use board_ranks::suits_for;
use card_sets::CardSet;

/// The first cards of a board, with everything that is looked up at a pair after them.
#[derive(Clone, Copy)]
pub(crate) struct Front<'a> {
    /// The table.
    pub(crate) spot: &'a BoardSpot,
    /// The first cards.
    pub(crate) taken: CardSet,
    /// By the pot, who wins it for each pair of ranks.
    pub(crate) rows: &'a [Row],
    /// The outcomes of all pots as codes. `None` on a flop, or if there are more outcomes than codes.
    pub(crate) codes: Option<&'a Codes>,
    /// At 4 times the suit of one of the last two cards plus that of the other: the suit in which somebody may have a flush, or 4.
    pub(crate) suits: &'a [u8; 16],
    /// Each row is for these cards.
    pub(crate) ghost rows_are: { AreRowsOf (deal_of spot.now.table) taken rows.now },
    /// Each pot has a row.
    pub(crate) ghost pots: { length rows.now ≡ spot.now.table.pots },
    /// The codes are for these cards.
    pub(crate) ghost codes_are: { ForSome codes (λ c. AreCodesFor (deal_of spot.now.table) taken c.now) },
    /// There is a code for each outcome.
    pub(crate) ghost enough: { ForSome codes (λ c. IsTrue c.now.enough) },
    /// If the table names no suit for two suits, two cards of these make nobody a flush.
    pub(crate) ghost fives: { AreFivesWith spot.now.most taken suits.now },
    /// The table has a place for each two suits.
    pub(crate) ghost places: { length suits.now ≡ 16 },
}

/// Returns the ranks of some cards as bits. They only say where to look for a kept flush.
#[inline]
fn rank_bits(cards: CardSet) -> u32 {
    let mut bits = 0u32;
    for card in cards.iter() {
        bits = bits | (1 << card.rank());
    }
    bits
}

/// Returns the suits that may make a flush after some first cards, worked out here.
#[inline(never)]
pub(crate) fn own_suits(start: &Start) -> [u8; 16]
    ensures fives { AreFivesWith start.now.spot.now.most start.now.taken result }
    ensures places { length result ≡ 16 }
{
    let spot = start.spot;
    match suits_for(spot.most, start.taken) {
        Some(suits) => suits,
        None => [4; 16],
    }
}

impl<'a> Front<'a> {
    /// Makes the front of some first cards with rows and codes for their ranks, and with the suits that may make a flush after them.
    #[inline]
    pub(crate) fn of(
        start: &Start<'a>,
        rows: &'a [Row],
        codes: Option<&'a Codes>,
        suits: &'a [u8; 16],
    ) -> Front<'a>
        requires rows { AreRowsOf (deal_of start.now.spot.now.table) start.now.taken rows.now }
        requires pots { length rows.now ≡ start.now.spot.now.table.pots }
        requires codes { ForSome codes (λ c. AreCodesFor (deal_of start.now.spot.now.table) start.now.taken c.now) }
        requires enough { ForSome codes (λ c. IsTrue c.now.enough) }
        requires fives { AreFivesWith start.now.spot.now.most start.now.taken suits.now }
        requires places { length suits.now ≡ 16 }
        ensures spot { result.spot.now ≡ start.now.spot.now }
        ensures taken { result.taken ≡ start.now.taken }
        ensures suits { result.suits.now ≡ suits.now }
    {
        let spot = start.spot;
        Front {
            spot,
            taken: start.taken,
            rows,
            codes,
            suits,
        }
    }

    /// Returns the ranks of the board's cards so far as bits, by the suit. Only pairs that may be a flush need them.
    pub(crate) fn tags(&self) -> [u32; 4] {
        let spot = self.spot;
        let board = spot.table.known.board.union(self.taken);
        [
            rank_bits(board.of_suit(0)),
            rank_bits(board.of_suit(1)),
            rank_bits(board.of_suit(2)),
            rank_bits(board.of_suit(3)),
        ]
    }
}
