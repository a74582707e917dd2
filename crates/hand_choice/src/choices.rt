//! Lists of choices.

ghost use Rattle.std.specs.Prelude.{◌≡◌, ◌+◌, ◌*◌, ◌≤◌, ◌<◌, ◌++◌, ◌∷◌, [], length, map, slice_get};
ghost use Rattle.std.specs.List.{flat_map};
ghost use Rattle.card_sets.specs.Cards.{IsCardSet, IsRising, union};
ghost use Rattle.card_sets.specs.Choose.{choose};

use card_sets::CardSet;
use std::marker::Model;

/// The most fives that a game allows: each of six pairs of own cards with each of ten threes of the
/// board.
const MOST: usize = 60;

/// A list of up to sixty fives. Clauses see it as a list.
#[derive(Drop)]
pub(crate) struct FiveList {
    /// The fives, followed by unused sets.
    fives: [CardSet; MOST],
    /// The number of fives.
    count: u8,
}

impl Model for FiveList {
    ghost use Rattle.std.specs.Prelude.{ℕ, List, take, ◌≤◌};

    ghost Value = { List (List ℕ) };

    ghost view = { λ s. take s.count s.fives };

    ghost invariant = { λ s. s.count ≤ 60 };
}

impl FiveList {
    pub(crate) fn new() -> FiveList
        ensures { result ≡ [] }
    {
        FiveList {
            fives: [CardSet::empty(); MOST],
            count: 0,
        }
    }

    /// Adds a five at the end.
    pub(crate) fn push(&mut self, five: CardSet)
        requires { length self.old < 60 }
        ensures { self.new ≡ self.old ++ five ∷ [] }
    {
        self.fives[self.count as usize] = five;
        self.count += 1;
    }

    /// Returns the five at a place. `None` exactly if the place is after the last five.
    pub(crate) fn get(&self, place: u8) -> Option<CardSet>
        ensures value { result ≡ slice_get self.now place }
        ensures few { length self.now ≤ 60 }
    {
        if place < self.count {
            Some(self.fives[place as usize])
        } else {
            None
        }
    }
}

/// Adds each set that has the given cards, all taken cards, and `missing` cards of the rest. The
/// cards of the rest lie above the taken ones.
pub(crate) fn push_choices(
    with: CardSet,
    taken: CardSet,
    rest: CardSet,
    missing: u32,
    list: &mut FiveList,
)
    requires above { IsCardSet rest → IsRising (taken ++ rest) }
    requires room { length list.old + length (choose missing rest) ≤ 60 }
    ensures { list.new
        ≡ list.old ++ map (λ more. union with (taken ++ more)) (choose missing rest) }
{
    if missing == 0 {
        list.push(with.union(taken));
        return;
    }
    let Some(card) = rest.first() else {
        return;
    };
    let others = rest.without(card);
    push_choices(with, taken.with(card), others, missing - 1, list);
    push_choices(with, taken, others, missing, list);
}

/// Adds the union of a set with each set of a list.
fn push_unions(with: CardSet, others: &FiveList, list: &mut FiveList)
    requires room { length list.old + length others.now ≤ 60 }
    ensures { list.new ≡ list.old ++ map (λ other. union with other) others.now }
{
    for place in 0..60u8 {
        let Some(other) = others.get(place) else {
            return;
        };
        list.push(with.union(other));
    }
}

/// Adds each set that has all taken cards, `missing` cards of the rest, and the cards of one of the
/// threes. The cards of the rest lie above the taken ones.
pub(crate) fn push_pairs(
    taken: CardSet,
    rest: CardSet,
    missing: u32,
    threes: &FiveList,
    list: &mut FiveList,
)
    requires above { IsCardSet rest → IsRising (taken ++ rest) }
    requires room { length list.old + length (choose missing rest) * length threes.now ≤ 60 }
    ensures { list.new ≡ list.old
        ++ flat_map (λ more. map (λ three. union (taken ++ more) three) threes.now)
        (choose missing rest) }
{
    if missing == 0 {
        push_unions(taken, threes, list);
        return;
    }
    let Some(card) = rest.first() else {
        return;
    };
    let others = rest.without(card);
    push_pairs(taken.with(card), others, missing - 1, threes, list);
    push_pairs(taken, others, missing, threes, list);
}
