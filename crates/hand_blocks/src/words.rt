//! The words of the report.

ghost use Rattle.std.specs.Prelude.{◌≡◌, OnOk, option_map};
ghost use Rattle.report_sheet.specs.Sheets.{with_words};
ghost use Rattle.hand_blocks.specs.Words.{fault_words, first_word, later_word, street_word};

use card_sets::{Family, Game};
use hand_events::Street;
use report_sheet::Sheet;
use spot_text::SpotFault;
use std::alloc::AllocError;

/// How the street of an all-in is written. None where no card is to come: from the last street on no
/// all-in lies. None either on the first of three draws, where nobody's cards are known.
pub fn street_word(game: Game, street: Street) -> Option<&'static str>
    ensures { option_map (λ word. word.now) result ≡ street_word game street }
{
    match street {
        Street::First => Some(first_word(game.family())),
        Street::Flop => Some("flop"),
        Street::Turn => Some("turn"),
        Street::Fourth => Some("4th"),
        Street::Fifth => Some("5th"),
        Street::Sixth => Some("6th"),
        Street::SecondDraw => Some("2nd-draw"),
        Street::River
        | Street::Draw
        | Street::FirstDraw
        | Street::ThirdDraw
        | Street::ShowDown
        | Street::Summary => None,
    }
}

/// How a street is written that is shown after an all-in. None where no such street is shown: the first
/// street of a game, and the draws before the third of three.
pub(crate) fn later_word(street: Street) -> Option<&'static str>
    ensures { option_map (λ word. word.now) result ≡ later_word street }
{
    match street {
        Street::Flop => Some("flop"),
        Street::Turn => Some("turn"),
        Street::Fourth => Some("4th"),
        Street::Fifth => Some("5th"),
        Street::Sixth => Some("6th"),
        Street::River => Some("river"),
        Street::Draw => Some("draw"),
        Street::ThirdDraw => Some("3rd-draw"),
        Street::First
        | Street::FirstDraw
        | Street::SecondDraw
        | Street::ShowDown
        | Street::Summary => None,
    }
}

/// How the first street of a game is written.
fn first_word(family: Family) -> &'static str
    ensures { result.now ≡ first_word family }
{
    match family {
        Family::Board => "preflop",
        Family::Stud => "3rd",
        Family::Draw | Family::TripleDraw => "predraw",
    }
}

/// The name of a spot's fault, and then what it carries.
#[tactic(auto, using(report_sheet::proofs::CallerLemmas::word_steps), unfolding(crate::specs::Words::fault_words))]
pub(crate) fn spot_fault(sheet: &mut Sheet, fault: &SpotFault) -> Result<(), AllocError>
    ensures { OnOk result (sheet.new ≡ with_words sheet.old (fault_words fault.now)) }
{
    sheet.text(fault.name())?;
    match fault {
        SpotFault::TwiceCard(card) => sheet.word(&card.text()),
        _ => Ok(()),
    }
}
