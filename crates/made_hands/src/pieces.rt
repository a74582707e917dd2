//! The pieces of a line. Each `write` appends to `out`. If memory is refused, it may have appended a
//! part.

ghost use Rattle.std.specs.Prelude.{◌≡◌, ◌++◌, OnOk, codes, decimal};
ghost use Rattle.std.specs.List.{flat_map, join_by};
ghost use Rattle.card_sets.specs.CardText.{text_of_card};
ghost use Rattle.made_hands.specs.Lines.{cards_text};

use card_sets::Card;
use itoa::Buffer;
use std::alloc::AllocError;

/// Writes a whole number.
pub(crate) fn write_number(out: &mut Vec<u8>, number: u64) -> Result<(), AllocError>
    ensures { OnOk result (out.new.items ≡ out.old.items ++ decimal number) }
{
    let mut buffer = Buffer::new();
    out.extend_from_slice(buffer.format(number).as_bytes())
}

/// Writes cards, each after a blank.
fn write_later_cards(out: &mut Vec<u8>, cards: &[Card]) -> Result<(), AllocError>
    ensures { OnOk result (out.new.items ≡ out.old.items
        ++ flat_map (λ card. codes " " ++ text_of_card card) cards.now) }
{
    for card in cards {
        out.extend_from_slice(b" ")?;
        out.extend_from_slice(&card.text())?;
    }
    Ok(())
}

/// Writes cards with one blank between them.
fn write_joined_cards(out: &mut Vec<u8>, cards: &[Card]) -> Result<(), AllocError>
    ensures { OnOk result (out.new.items ≡ out.old.items
        ++ join_by text_of_card (codes " ") cards.now) }
{
    let [first, later @ ..] = cards else {
        return Ok(());
    };
    out.extend_from_slice(&first.text())?;
    write_later_cards(out, later)
}

/// Writes cards in brackets, with one blank between them.
#[tactic(auto, unfolding(crate::specs::Lines::cards_text))]
pub(crate) fn write_cards(out: &mut Vec<u8>, cards: &[Card]) -> Result<(), AllocError>
    ensures { OnOk result (out.new.items ≡ out.old.items ++ cards_text cards.now) }
{
    out.extend_from_slice(b"[")?;
    write_joined_cards(out, cards)?;
    out.extend_from_slice(b"]")
}
