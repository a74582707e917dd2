//! Where cards belong, what two boards share, and what players draw and keep, after some events.

ghost use Rattle.hand_laws.specs.KeptLaws.{HoldsKept};
ghost use Rattle.hand_laws.specs.LastDrawLaws.{PartsLastDraw};
ghost use Rattle.hand_laws.specs.PlaceLaws.{PlacesCards};
ghost use Rattle.hand_laws.specs.TwiceLaws.{RunsTwice};

/// A card's place is that of the first event that names it after the last that threw it away face up. Where
/// no such card may come again these are all events, and after accepted ones a card that was thrown away
/// stays so. Where it may, it belongs to nobody until an event names it.
pub fn law_places_of_cards()
    ensures { PlacesCards }
{}

/// After any accepted events whose markers have as many cards as come with them, a hand that is run twice
/// has a board, has two of them from a street after the first on, and was at its all-in point before, so
/// what lies on the board at that point is among the cards of the streets before. Its boards share exactly
/// these. A second board comes only in such a hand.
pub fn law_two_boards()
    ensures { RunsTwice }
{}

/// How a player drew on the last draw is parted by the event with which the last street begins: what he
/// held is what he held by the events before it, and what he threw away, and how, is told by it and those
/// since.
pub fn law_the_last_draw()
    ensures { PartsLastDraw }
{}

/// After any accepted events what a player of a game with one draw kept, where that and his final cards are
/// known, is a part of his final cards, under one of three conditions. He showed no whole hand after his
/// last discard; or of the cards that belong to him five at the most weren't thrown away; or what he kept
/// isn't told by five dealt cards and the discards, since he stands pat or discards five. Without one of
/// them a hand that he shows may have nothing to do with what he was dealt.
pub fn law_kept_cards_are_held()
    ensures { HoldsKept }
{}
