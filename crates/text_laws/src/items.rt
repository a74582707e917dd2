//! The hands that the items of a range name, and the words that are ranges. Each function is empty, and
//! its clauses are the law.

ghost use Rattle.std.specs.Prelude.{◌≡◌, true, false, [], ◌∷◌, codes};
ghost use Rattle.range_lines.specs.Hands.{is_range};
ghost use Rattle.text_laws.specs.ItemHands.{IsRangeOf, range_of};

/// The hands that each item names, and their number. `AsKh` is one hand. A pair is six hands, `AKs` four
/// of one suit, `AKo` twelve of two suits, and `AK` both. `TT+` goes up to the aces, and `A9s+` up to the
/// king next to the ace.
pub fn law_items_name_their_hands()
    // One hand, by its cards in either order.
    ensures hand { range_of (codes "AsKh") ≡ record { hand = 46 ∷ 51 ∷ []; weight = 1 } ∷ [] }
    ensures turned { IsRangeOf (codes "KhAs") 1 (codes "AsKh") }

    // A pair, and all pairs from one on.
    ensures pair { IsRangeOf (codes "TT") 6 (codes "TcTd,TcTh,TcTs,TdTh,TdTs,ThTs") }
    ensures pairs { IsRangeOf (codes "TT+") 30 (codes "TT,JJ,QQ,KK,AA") }

    // Two ranks: of one suit, of two suits, or of any.
    ensures suited { IsRangeOf (codes "AKs") 4 (codes "AcKc,AdKd,AhKh,AsKs") }
    ensures offsuit { IsRangeOf (codes "AKo") 12
        (codes "AcKd,AcKh,AcKs,AdKc,AdKh,AdKs,AhKc,AhKd,AhKs,AsKc,AsKd,AsKh") }
    ensures any { IsRangeOf (codes "AK") 16 (codes "AKs,AKo") }

    // Every second rank from one on, below the first rank.
    ensures suited_from { IsRangeOf (codes "A9s+") 20 (codes "A9s,ATs,AJs,AQs,AKs") }
    ensures offsuit_from { IsRangeOf (codes "A9o+") 60 (codes "A9o,ATo,AJo,AQo,AKo") }
    ensures any_from { IsRangeOf (codes "A9+") 80 (codes "A9s+,A9o+") }
    ensures next { IsRangeOf (codes "JTs+") 4 (codes "JTs") }

    // A weight counts for each hand, and the weights of a hand add up.
    ensures weights { IsRangeOf (codes "AKs:3,AK:2") 16 (codes "AKs:5,AKo:2") }
{}

/// The words that are ranges: an item weighs 1 to 100, all items of a hand together weigh at most 100, and
/// a hand has two different cards.
pub fn law_ranges_are_bounded()
    ensures lightest { is_range (codes "AA:1") ≡ true }
    ensures heaviest { is_range (codes "AA:100") ≡ true }
    ensures no_weight { is_range (codes "AA:0") ≡ false }
    ensures too_heavy { is_range (codes "AA:101") ≡ false }
    ensures together { is_range (codes "AA:60,AsAh:40") ≡ true }
    ensures above { is_range (codes "AA:60,AsAh:41") ≡ false }
    ensures one_card { is_range (codes "AsAs") ≡ false }
{}
