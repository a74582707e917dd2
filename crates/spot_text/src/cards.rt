//! The cards that words name.

ghost use Rattle.std.specs.Prelude.{◌≡◌, ◌<◌, IfSome};
ghost use Rattle.card_sets.specs.CardText.{card_of_text};

use card_sets::Card;

/// Returns the card that a word names.
pub(crate) fn card_of(word: &[u8]) -> Option<Card>
    ensures value { result ≡ card_of_text word.now }
    ensures in_deck { IfSome result (λ card. card < 52) }
{
    let [rank, suit] = word else {
        return None;
    };
    let card = Card::read([*rank, *suit])?;
    let _in_deck = card.number();
    Some(card)
}
