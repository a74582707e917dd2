//! What a hand is worth with each draw of one to three cards.

ghost use Rattle.std.specs.Prelude.{◌≡◌, ℕ, ◌+◌, ◌<◌, ◌≤◌, [], List, length, slice_index, slice_index_or, IfOk, IsTrue};
ghost use Rattle.card_sets.specs.Cards.{with_card};
ghost use Rattle.card_sets.specs.Games.{own_size, board_size};
ghost use Rattle.draw_runouts.specs.Worth.{AreNumbers, ArePairsFrom, full_worth, plane_base};

use card_sets::{Card, CardSet, Game, Memory, Side};
use runout_walk::{DECK, filled};
use showdown_tally::side_value;
use std::alloc::Global;

/// How many rows the tables of three cards have: those of two cards above each lowest card, one after the other.
pub(crate) const PLANES: usize = 1327;

/// What a hand is worth on a side with each draw of `count` cards. A greater number is better.
#[derive(Drop)]
pub(crate) struct Numbers {
    /// The side.
    pub(crate) side: Side,
    /// The game.
    pub(crate) game: Game,
    /// The hand.
    pub(crate) own: CardSet,
    /// How many cards it draws: one to three, and 0 where there are no numbers.
    pub(crate) count: u8,
    /// The numbers of two cards, by the lower card and then the higher one. Those of one card alone stand in the first row.
    pub(crate) rows: Vec<[u32; DECK]>,
    /// The numbers of three cards: for each lowest card, the rows of the cards above it in a table as for two cards.
    pub(crate) planes: Vec<[u32; DECK]>,
    /// There is a row a card,
    pub(crate) ghost row_places: { length rows.items ≡ 52 },
    /// and where three are drawn room for all tables of three cards.
    pub(crate) ghost plane_places: { 2 < count → length planes.items ≡ 1327 },
    /// They are right.
    pub(crate) ghost right: { AreNumbers count side game own rows.items planes.items },
}

/// The card of a number.
#[inline]
fn card_of(number: usize) -> Card
    requires { number < 52 }
    ensures { result ≡ number }
{
    let number = number as u8;
    let Some(card) = Card::new(number / 4, number % 4) else {
        unreachable!();
    };
    card
}

/// What a hand is worth on a side, if it is full: 0 where it has no value.
#[inline]
pub(crate) fn full_worth(side: Side, game: Game, full: CardSet) -> u32
    requires { board_size game ≡ 0 }
    ensures { length full ≡ own_size game → result ≡ full_worth side game full }
{
    if full.count() != game.own_size() {
        return 0;
    }
    let none = CardSet::empty();
    match side_value(side, game, full, none) {
        Some(number) => number,
        None => 0,
    }
}

/// Fills in what a hand is worth with each card from one on.
fn fill_row(row: &mut [u32], side: Side, game: Game, own: CardSet, least: u8)
    requires places { length row.old ≡ 52 }
    requires no_board { board_size game ≡ 0 }
    ensures { (card : ℕ) → least ≤ card → card < 52 → length (with_card own card) ≡ own_size game
        → slice_index row.new card ≡ full_worth side game (with_card own card) }
{
    for (number, place) in row.iter_mut().enumerate() {
        let card = card_of(number);
        if least <= card.number() {
            *place = full_worth(side, game, own.with(card));
        }
    }
}

/// Fills in what a hand is worth with each card.
fn fill_singles(rows: &mut [[u32; DECK]], side: Side, game: Game, own: CardSet)
    requires places { length rows.old ≡ 52 }
    requires no_board { board_size game ≡ 0 }
    ensures numbers { (planes : List (List ℕ)) → AreNumbers 1 side game own rows.new planes }
    ensures places { length rows.new ≡ length rows.old }
{
    fill_row(&mut rows[0], side, game, own, 0);
}

/// Fills in what a hand is worth with each two cards, of which the lower isn't below one, into the rows from one on.
fn fill_pairs(
    rows: &mut [[u32; DECK]],
    base: usize,
    side: Side,
    game: Game,
    own: CardSet,
    least: u8,
)
    requires places { base + 52 ≤ length rows.old }
    requires no_board { board_size game ≡ 0 }
    ensures pairs { ArePairsFrom least side game own rows.new base }
    ensures before { (row : ℕ) → row < base + least
        → slice_index_or rows.new row [] ≡ slice_index_or rows.old row [] }
    ensures places { length rows.new ≡ length rows.old }
{
    for number in usize::from(least)..DECK {
        let low = card_of(number);
        fill_row(
            &mut rows[base + number],
            side,
            game,
            own.with(low),
            low.number() + 1,
        );
    }
}

/// Fills in what a hand is worth with each draw of two cards.
fn fill_twos(rows: &mut [[u32; DECK]], side: Side, game: Game, own: CardSet)
    requires places { length rows.old ≡ 52 }
    requires no_board { board_size game ≡ 0 }
    ensures numbers { (planes : List (List ℕ)) → AreNumbers 2 side game own rows.new planes }
    ensures places { length rows.new ≡ length rows.old }
{
    fill_pairs(rows, 0, side, game, own, 0);
}

/// Where the table of a lowest card begins among those of three cards.
#[inline]
pub(crate) fn plane_base(low: Card) -> usize
    ensures value { result ≡ plane_base low }
    ensures bound { result ≤ 1275 }
{
    let mut base = 0;
    for below in 0..low.number() {
        base += 50 - usize::from(below);
    }
    base
}

/// Fills in what a hand is worth with each draw of three cards.
fn fill_planes(planes: &mut [[u32; DECK]], side: Side, game: Game, own: CardSet)
    requires places { length planes.old ≡ 1327 }
    requires no_board { board_size game ≡ 0 }
    ensures numbers { (rows : List (List ℕ)) → AreNumbers 3 side game own rows planes.new }
    ensures places { length planes.new ≡ length planes.old }
{
    for number in 0..DECK {
        let low = card_of(number);
        let base = plane_base(low);
        fill_pairs(planes, base, side, game, own.with(low), low.number() + 1);
    }
}

/// Fills in what a hand is worth with each draw of `count` cards.
fn fill(
    rows: &mut [[u32; DECK]],
    planes: &mut [[u32; DECK]],
    side: Side,
    game: Game,
    own: CardSet,
    count: u8,
)
    requires rows { length rows.old ≡ 52 }
    requires planes { 2 < count → length planes.old ≡ 1327 }
    requires no_board { board_size game ≡ 0 }
    requires few { count ≤ 3 }
    ensures numbers { AreNumbers count side game own rows.new planes.new }
    ensures rows { length rows.new ≡ length rows.old }
    ensures planes { length planes.new ≡ length planes.old }
{
    match count {
        1 => fill_singles(rows, side, game, own),
        2 => fill_twos(rows, side, game, own),
        3 => fill_planes(planes, side, game, own),
        _ => {}
    }
}

impl Numbers {
    /// Makes room for numbers, and keeps none. `tables` is how many rows there are for draws of three cards, 0 if at most two are drawn.
    pub(crate) fn none(alloc: Global, tables: usize) -> Result<Numbers, Memory>
        ensures nothing { IfOk result (λ numbers. numbers.count ≡ 0) }
        ensures planes { IfOk result (λ numbers. length numbers.planes.items ≡ tables) }
    {
        let rows = filled(alloc, [0; DECK], DECK)?;
        let planes = filled(alloc, [0; DECK], tables)?;
        Ok(Numbers {
            side: Side::High,
            game: Game::Stud,
            own: CardSet::empty(),
            count: 0,
            rows,
            planes,
        })
    }

    /// Makes them the numbers of a hand on a side, which are filled in where they aren't kept.
    pub(crate) fn serve(&mut self, side: Side, game: Game, own: CardSet, count: u8)
        // The game has no board, and the hand draws up to three cards, for which there is room.
        requires no_board { board_size game ≡ 0 }
        requires few { count ≤ 3 }
        requires room { 2 < count → length self.old.planes.items ≡ 1327 }

        // It is said of what they are the numbers; that they are right they keep of themselves.
        ensures side { self.new.side ≡ side }
        ensures game { self.new.game ≡ game }
        ensures own { self.new.own ≡ own }
        ensures count { self.new.count ≡ count }
        ensures same { length self.new.planes.items ≡ length self.old.planes.items }
    {
        if self.count == count && self.side == side && self.game == game && self.own == own {
            return;
        }
        self.count = 0;
        let rows = self.rows.as_mut_slice();
        let planes = self.planes.as_mut_slice();
        fill(rows, planes, side, game, own, count);
        self.side = side;
        self.game = game;
        self.own = own;
        self.count = count;
    }

    /// Makes them the numbers of a hand that draws up to two cards, if `wanted` is true.
    pub(crate) fn serve_where(
        &mut self,
        wanted: bool,
        side: Side,
        game: Game,
        own: CardSet,
        count: u8,
    )
        requires no_board { board_size game ≡ 0 }
        requires few { IsTrue wanted → count ≤ 2 }
        ensures side { IsTrue wanted → self.new.side ≡ side }
        ensures game { IsTrue wanted → self.new.game ≡ game }
        ensures own { IsTrue wanted → self.new.own ≡ own }
        ensures count { IsTrue wanted → self.new.count ≡ count }
    {
        if wanted {
            self.serve(side, game, own, count);
        }
    }
}
