//! The leaf of draws: the last slot is a hand's, and one loop goes through its draws.

ghost use Rattle.std.specs.Prelude.{◌≡◌, ℕ, ◌+◌, ◌-◌, ◌<◌, ◌≤◌, [], List, true, false, length, map, take, if◌then◌else◌, nat_lt, slice_index, slice_index_or, IsTrue};
ghost use Rattle.std.specs.List.{slice_range};
ghost use Rattle.card_sets.specs.Cards.{IsCardSet, union};
ghost use Rattle.card_sets.specs.Choose.{choose};
ghost use Rattle.card_sets.specs.Games.{board_size, only_side, own_size};
ghost use Rattle.card_sets.specs.State.{state_of};
ghost use Rattle.card_sets.specs.declared.games.Side.TheVariants.{Low};
ghost use Rattle.runout_ranges.specs.Shapes.{IsShapeOf, slots_of};
ghost use Rattle.runout_ranges.specs.Slots.{dealt, slots};
ghost use Rattle.runout_ranges.specs.declared.shapes.Receiver.TheVariants.{Hand};
ghost use Rattle.showdown_tally.specs.Deals.{deal_of};
ghost use Rattle.showdown_tally.specs.Showdown.{has_two_sides};
ghost use Rattle.draw_runouts.specs.Draws.{are_draws, hand_at, last_hand, most_draw};
ghost use Rattle.runout_walk.specs.Listing.{last_count};
ghost use Rattle.draw_runouts.specs.Worth.{AreNumbers, full_worth, number_of};

use crate::last::{DRAWS, Range, TWOS, put_draws};
use crate::numbers::{Numbers, PLANES, full_worth};
use crate::rivals::{Others, count_pots, count_sides};
use card_sets::{Card, CardSet, Game, Known, Memory, Side};
use runout_ranges::{Receiver, Shape, Slot};
use runout_walk::{CardList, Leaf, Span, filled, side_row, ten_places};
use showdown_tally::Table;
use std::alloc::Global;
use std::sync::ledger::Ledger;
use step_count::Steps;

/// The hand that gets cards, and 0 for the board.
#[inline]
fn hand_at(receiver: Receiver) -> u8
    ensures { result ≡ hand_at receiver }
{
    match receiver {
        Receiver::Board => 0,
        Receiver::Hand(hand) => hand,
    }
}

/// Whose the last slot is, and how many cards it takes.
#[derive(Clone, Copy)]
struct Last {
    /// The hand.
    hand: u8,
    /// How many cards, 0 where there is no slot.
    count: u8,
}

/// The last of some slots.
#[inline]
fn last_of(slots: &[Slot]) -> Last
    ensures hand { result.hand ≡ last_hand slots.now }
    ensures count { result.count ≡ last_count slots.now }
{
    if slots.is_empty() {
        return Last { hand: 0, count: 0 };
    }
    let slot = slots[slots.len() - 1];
    Last {
        hand: hand_at(slot.receiver),
        count: slot.count,
    }
}

/// The last of the slots of a shape.
#[inline]
fn last_slot(shape: &Shape) -> Last
    ensures hand { result.hand ≡ last_hand (slots_of shape.now) }
    ensures count { result.count ≡ last_count (slots_of shape.now) }
{
    last_of(&shape.slots[..shape.used as usize])
}

/// Whether a game is played for both sides.
#[inline]
fn has_two_sides(game: Game) -> bool
    ensures { result ≡ has_two_sides game }
{
    game.has_side(Side::High) && game.has_side(Side::Low)
}

/// Returns how many cards the last hand may draw for its draws to be counted in one loop: three, or two in a game for both sides, because
/// there is no room for the lows of more.
#[inline]
fn most_draw(game: Game) -> u8
    ensures { result ≡ most_draw game }
{
    if has_two_sides(game) { 2 } else { 3 }
}

/// Whether the runouts of a table end with a draw that one loop can go through: a game without a board, in which somebody lacks cards, and
/// the last hand that does lacks one to three, or to two in a game that is played for both sides.
pub fn are_draws(table: &Table, shape: &Shape) -> bool
    ensures { result ≡ are_draws table.now shape.now }
{
    let last = last_slot(shape);
    !table.known.game.has_board() && 0 < last.count && last.count <= most_draw(table.known.game)
}

/// The leaf of draws, with tables of about 390 kB on the heap. It is made once and lent to each walk, and keeps what the next walk of the
/// same hands can use; what it held before makes no other difference.
#[derive(Drop)]
pub struct Draws {
    /// The table.
    table: Table,
    /// The hand of the last slot.
    last: u8,
    /// What it is worth with each draw, as a high in a game that is played for both sides.
    numbers: Numbers,
    /// What it is worth with each draw as a low in such a game.
    lows: Numbers,
    /// Room for the numbers of the draws of a leaf.
    values: Vec<u32>,
    /// Room for their numbers as lows.
    low_values: Vec<u32>,
    /// There is room for all draws of three cards,
    ghost room: { length values.items ≡ 22100 },
    /// and for the lows of all draws of two.
    ghost low_room: { length low_values.items ≡ 1326 },
    /// There is room for the tables of three cards.
    ghost planes: { length numbers.planes.items ≡ 1327 },
    /// The game has no board.
    ghost no_board: { board_size table.known.game ≡ 0 },
    /// The hand is that of the last slot.
    ghost last_is: { last ≡ last_hand (slots (state_of table.known)) },
    /// The numbers are for the draws of the last slot.
    ghost deep: { numbers.count ≡ last_count (slots (state_of table.known)) },
    /// These are few.
    ghost few: { numbers.count ≤ 3 },
    /// The numbers are those of that hand.
    ghost right: { AreNumbers numbers.count (only_side table.known.game) table.known.game
        (slice_index_or (state_of table.known).hands last []) numbers.rows.items numbers.planes.items },
    /// There are as many lows,
    ghost low_deep: { has_two_sides table.known.game ≡ true → lows.count ≡ numbers.count },
    /// and they are those of that hand.
    ghost low_right: { has_two_sides table.known.game ≡ true
        → AreNumbers lows.count Low table.known.game
        (slice_index_or (state_of table.known).hands last []) lows.rows.items lows.planes.items },
    /// These are fewer.
    ghost low_few: { has_two_sides table.known.game ≡ true → numbers.count ≤ 2 },
}

/// A table with nobody at it.
fn no_table() -> Table
    ensures nobody { result.known.count ≡ 0 }
    ensures no_board { board_size result.known.game ≡ 0 }
    ensures one_side { has_two_sides result.known.game ≡ false }
    ensures nothing { last_count (slots (state_of result.known)) ≡ 0 }
{
    let none = CardSet::empty();
    let known = Known {
        game: Game::Stud,
        count: 0,
        hands: [none, none, none, none, none, none, none, none, none, none],
        board: none,
        dead: none,
    };
    Table {
        known,
        pots: 0,
        eligible: [0, 0, 0, 0, 0, 0, 0, 0, 0, 0],
    }
}

/// The known cards of a hand.
#[inline]
fn hand_of(known: &Known, hand: usize) -> CardSet
    requires { hand < length (state_of known.now).hands }
    ensures { result ≡ slice_index_or (state_of known.now).hands hand [] }
{
    let hands = &known.hands[..known.count as usize];
    hands[hand]
}

impl Draws {
    /// An empty leaf, which counts nothing before it serves a table. `Memory` where there is none for its tables.
    #[inline(never)]
    pub fn new(alloc: Global) -> Result<Draws, Memory> {
        let numbers = Numbers::none(alloc, PLANES)?;
        let lows = Numbers::none(alloc, 0)?;
        let values = filled(alloc, 0, DRAWS)?;
        let low_values = filled(alloc, 0, TWOS)?;
        Ok(Draws {
            table: no_table(),
            last: 0,
            numbers,
            lows,
            values,
            low_values,
        })
    }

    /// Makes it the leaf of a table. What the last hand is worth with each draw is filled in where it isn't kept.
    pub fn serve(&mut self, table: &Table, shape: &Shape)
        requires shape { IsShapeOf (state_of table.now.known) shape.now }
        requires draws { IsTrue (are_draws table.now shape.now) }
        ensures deal { deal_of self.new.table ≡ deal_of table.now }
    {
        let last = last_slot(shape);
        let own = hand_of(&table.known, usize::from(last.hand));
        let game = table.known.game;
        self.numbers.serve(game.only_side(), game, own, last.count);
        self.lows
            .serve_where(has_two_sides(game), Side::Low, game, own, last.count);
        self.table = *table;
        self.last = last.hand;
    }
}

/// What a hand is dealt, where the sets go one after the other to the hands that lack cards.
#[inline]
fn set_for(own: CardSet, size: u32, sets: &[CardSet], place: usize) -> CardSet
    ensures { result ≡ (if nat_lt (length own) size then slice_index_or sets.now place [] else []) }
{
    if own.count() < size && place < sets.len() {
        sets[place]
    } else {
        CardSet::empty()
    }
}

/// What each hand is worth on a side with the set that it is dealt.
#[inline]
fn numbers_with(side: Side, known: &Known, sets: &[CardSet]) -> [u32; 10]
    requires { board_size known.now.game ≡ 0 }
    ensures numbers { (h : ℕ) → h < length (state_of known.now).hands
        → length
        (union (slice_index_or (state_of known.now).hands h [])
        (dealt (slots (state_of known.now)) sets.now (Hand h))) ≡ own_size known.now.game
        → slice_index result h
        ≡ full_worth side known.now.game
        (union (slice_index_or (state_of known.now).hands h [])
        (dealt (slots (state_of known.now)) sets.now (Hand h))) }
    ensures cards { (h : ℕ) → h < length (state_of known.now).hands
        → IsCardSet (slice_index_or (state_of known.now).hands h []) }
    ensures board { IsCardSet (state_of known.now).board }
{
    let mut numbers = [0; 10];
    known.board.rising();
    let size = known.game.own_size();
    let mut place = 0;
    let hands = &known.hands[..known.count as usize];
    for (hand, own) in hands.iter().enumerate() {
        let own = *own;
        own.rising();
        let set = set_for(own, size, sets, place);
        numbers[hand] = full_worth(side, known.game, own.union(set));
        place += usize::from(own.count() < size);
    }
    numbers
}

/// Writes the numbers of the draws between two places of their listing to the front of the room for them.
fn write_draws(numbers: &Numbers, cards: &[Card], range: Range, values: &mut Vec<u32>)
    // The numbers are of draws of one to three cards, out of those of a deck.
    requires some { 1 ≤ numbers.now.count }
    requires few { numbers.now.count ≤ 3 }
    requires short { length cards.now ≤ 52 }

    // Both places lie in the listing of the draws, and there is room for the numbers of those between them.
    requires order { range.lo ≤ range.hi }
    requires inside { range.hi ≤ length (choose numbers.now.count cards.now) }
    requires room { range.hi - range.lo ≤ length values.old.items }

    // At the front stand the numbers of the draws between the places, in order.
    ensures numbers { take (range.hi - range.lo) values.new.items
        ≡ map (number_of numbers.now.rows.items numbers.now.planes.items)
        (slice_range (choose numbers.now.count cards.now) range.lo range.hi) }
    ensures room { length values.new.items ≡ length values.old.items }
{
    put_draws(numbers, cards, range, values.as_mut_slice());
}

impl Leaf for Draws {
    ghost deal = { λ d. deal_of d.table };

    ghost depth = { λ deal. last_count (slots deal.state) };

    fn depth(&self) -> u32 {
        u32::from(self.numbers.count)
    }

    fn count<L: Ledger>(&mut self, counts: &mut [[u32; 2048]], span: &Span, steps: &mut Steps<L>) {
        ten_places(&self.table);
        let game = self.table.known.game;
        let side = game.only_side();
        let numbers = numbers_with(side, &self.table.known, span.front);
        let range = Range {
            lo: span.lo as usize,
            hi: span.hi as usize,
        };
        let cards = CardList::of(span.tail.rest);
        let values = &mut self.values;
        write_draws(&self.numbers, cards.as_slice(), range, values);
        if has_two_sides(game) {
            let lows = numbers_with(Side::Low, &self.table.known, span.front);
            let low_values = &mut self.low_values;
            write_draws(&self.lows, cards.as_slice(), range, low_values);
            let all_highs = self.values.as_slice();
            let all_lows = self.low_values.as_slice();
            let values = &all_highs[..range.hi - range.lo];
            let low_values = &all_lows[..range.hi - range.lo];
            let others = Others {
                last: self.last,
                numbers,
                lows,
            };
            count_sides(&self.table, &others, values, low_values, counts, steps);
        } else {
            let all = self.values.as_slice();
            let values = &all[..range.hi - range.lo];
            let others = Others {
                last: self.last,
                numbers,
                lows: [0; 10],
            };
            count_pots(&self.table, side_row(side), &others, values, counts, steps);
        }
    }
}
