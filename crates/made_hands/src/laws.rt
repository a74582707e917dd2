//! Laws about every deal, and about the text of made hands.

ghost use Rattle.std.specs.Prelude.{◌≡◌, ℕ, ◌*◌, ◌≤◌, length};
ghost use Rattle.card_sets.specs.Cards.{union};
ghost use Rattle.made_hands.specs.Deals.{IsWhole, deal_of};
ghost use Rattle.made_hands.specs.Made.{made_text};

/// The nine cards of a deal are different, so that each player has seven with the board, and the
/// stacks are of 10 to 200 dollars.
pub fn law_deals_are_whole()
    ensures nine { (x : ℕ)
        → length (union (union (deal_of x).first (deal_of x).second) (deal_of x).board) ≡ 9 }
    ensures whole { (x : ℕ) → IsWhole (deal_of x) }
{}

/// The text of n made hands has at most 1000 n bytes, for n up to 10,000.
pub fn law_made_text_is_short()
    ensures { (seed hands : ℕ) → hands ≤ 10000 → length (made_text seed hands) ≤ 1000 * hands }
{}
