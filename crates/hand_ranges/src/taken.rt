//! One hand from each of the first ranges.

ghost use Rattle.std.specs.Prelude.{◌≡◌, ℕ, List, ◌+◌, ◌-◌, ◌*◌, ◌<◌, ◌≤◌, ◌^◌, ◌++◌, [], ◌∷◌};
ghost use Rattle.card_sets.specs.Cards.{IsCardSet};
ghost use Rattle.std.specs.Prelude.{true, length, take, drop, set, replicate, IsTrue};
ghost use Rattle.std.specs.List.{list_all};
ghost use Rattle.card_sets.specs.Disjoint.{apart};
ghost use Rattle.showdown_tally.specs.Deals.{deal_of};
ghost use Rattle.range_lines.specs.Choices.{deal_of_choice, hands_in, is_disjoint, numbers_below, weight_of};
ghost use Rattle.range_lines.specs.Sound.{AreHands};
ghost use Rattle.card_sets.specs.PlayerSets.{hands_of};

use card_sets::{CardSet, Game, Known};
use range_lines::Weighted;
use showdown_tally::Table;

/// One hand from each of the first ranges, in which no card is in two hands, and how often they
/// count together.
#[derive(Clone, Copy)]
pub(crate) struct Taken {
    /// The hands, and after them places that aren't looked at.
    hands: [Weighted; 4],
    /// How many hands there are.
    pub(crate) count: u8,
    /// How often they count together.
    pub(crate) weight: u64,
    /// What each hand is worth beside a full board.
    pub(crate) values: [Option<u32>; 4],
    /// There are four players at the most.
    ghost few: { count ≤ 4 },
    /// No card is in two hands.
    ghost disjoint: { IsTrue (is_disjoint (take count hands)) },
    /// The weight is the product of the hands' weights.
    ghost product: { weight ≡ weight_of (take count hands) },
    /// No weight has more than eight bits.
    ghost light: { weight ≤ 256 ^ count },
}

/// Returns the product of two weights.
#[inline]
fn times(weight: u64, more: u8) -> u64
    requires { weight ≤ 2 ^ 32 }
    ensures { result ≡ weight * more }
{
    weight * u64::from(more)
}

impl Taken {
    /// No hand.
    pub(crate) fn none() -> Taken
        ensures { take result.count result.hands ≡ [] }
    {
        let none = Weighted {
            hand: CardSet::empty(),
            weight: 0,
        };
        Taken {
            hands: [none; 4],
            count: 0,
            weight: 1,
            values: [None; 4],
        }
    }

    /// How many hands are taken, how often they count, and that no card is in two of them. A law:
    /// the call does nothing.
    pub(crate) fn facts(&self)
        // There are as many as are counted, four at the most, with places for four.
        ensures count { length (take self.now.count self.now.hands) ≡ self.now.count }
        ensures few { self.now.count ≤ 4 }
        ensures places { length self.now.hands ≡ 4 }
        ensures values { length self.now.values ≡ 4 }

        // No card is in two of them, and the weight is the product of theirs.
        ensures disjoint { is_disjoint (take self.now.count self.now.hands) ≡ true }
        ensures product { self.now.weight ≡ weight_of (take self.now.count self.now.hands) }
        ensures light { self.now.weight ≤ 2 ^ 32 }
        ensures three { self.now.count < 4 → self.now.weight ≤ 2 ^ 24 }
    {
        let _hands: &[Weighted] = &self.hands;
        let _values: &[Option<u32>] = &self.values;
    }

    /// Whether a hand has no card of these.
    #[inline]
    pub(crate) fn is_apart(&self, hand: CardSet) -> bool
        ensures { result ≡ list_all (λ w. apart w.hand hand) (take self.now.count self.now.hands) }
    {
        let hands = &self.hands[..usize::from(self.count)];
        hands.iter().all(|w| w.hand.is_apart(hand))
    }

    /// All their cards.
    pub(crate) fn cards(&self) -> CardSet
        ensures { (hand : List ℕ) → IsCardSet hand → apart hand result
            ≡ list_all (λ w. apart w.hand hand) (take self.now.count self.now.hands) }
    {
        let mut cards = CardSet::empty();
        for w in &self.hands[..usize::from(self.count)] {
            cards = cards.union(w.hand);
        }
        cards
    }

    /// These and one more, and what it is worth.
    #[inline]
    pub(crate) fn with(&self, w: Weighted, value: Option<u32>) -> Taken
        requires room { length (take self.now.count self.now.hands) < 4 }
        requires apart { list_all (λ v. apart v.hand w.hand) (take self.now.count self.now.hands)
            ≡ true }
        ensures hands { take result.count result.hands
            ≡ take self.now.count self.now.hands ++ w ∷ [] }
        ensures values { result.values ≡ set self.now.values self.now.count value }
    {
        self.facts();
        let place = usize::from(self.count);
        let weight = times(self.weight, w.weight);
        let mut more = *self;
        more.hands[place] = w;
        more.count += 1;
        more.weight = weight;
        more.values[place] = value;
        more
    }

    /// The hands, and empty sets after them.
    fn padded(&self) -> [CardSet; 10]
        ensures front { take self.now.count result ≡ hands_in (take self.now.count self.now.hands) }
        ensures back { drop self.now.count result ≡ replicate (10 - self.now.count) [] }
    {
        let mut hands = [CardSet::empty(); 10];
        for place in 0..usize::from(self.count) {
            let w = self.hands[place];
            hands[place] = w.hand;
        }
        hands
    }

    /// The table of a choice: one pot, in which every hand is eligible.
    pub(crate) fn table(&self, board: CardSet, dead: CardSet) -> Table
        requires hands { AreHands board dead (take self.now.count self.now.hands) }
        requires size { length board ≤ 5 }
        requires apart { apart board dead ≡ true }
        ensures { deal_of result ≡ deal_of_choice board dead (take self.now.count self.now.hands) }
    {
        self.facts();
        let known = Known {
            game: Game::Holdem,
            count: self.count,
            hands: self.padded(),
            board,
            dead,
        };
        let all = all_of(self.count);
        Table {
            known,
            pots: 1,
            eligible: [all, 0, 0, 0, 0, 0, 0, 0, 0, 0],
        }
    }
}

/// Returns the first `count` hands, as the number with their bits.
fn all_of(count: u8) -> u16
    requires { count ≤ 4 }
    ensures all { hands_of result ≡ numbers_below count }
    ensures small { result < 2 ^ count }
{
    match count {
        0 => 0,
        1 => 1,
        2 => 3,
        3 => 7,
        _ => 15,
    }
}
