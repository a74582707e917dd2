//! Why a line with ranges is refused.

use card_sets::Card;
use report_sheet::Sheet;
use std::alloc::AllocError;

/// Why a line with ranges is refused. They are tested in this order over the whole line.
#[derive(Clone, Copy, Drop)]
pub enum RangeFault {
    /// The first word isn't `holdem`, or there is no word.
    UnknownWord,
    /// A mark stands out of its place, a range isn't one word, or a word of the board or of the dead
    /// cards is no card.
    BadCard,
    /// A range has an item that there isn't, or a hand that weighs more than 100.
    BadRange,
    /// A card stands twice among the board and the dead cards: the first word, from the left, that
    /// repeats an earlier one.
    TwiceCard(Card),
    /// The board hasn't no card, or three, four or five.
    BoardSize,
    /// There are fewer than two players, or more than four.
    PlayerCount,
    /// Fewer cards are left than the board lacks.
    DeckShort,
    /// Out of memory. No clause ties it to the line.
    Memory,
}

impl RangeFault {
    ghost use Rattle.std.specs.Prelude.{◌≡◌, OnOk};
    ghost use Rattle.report_sheet.specs.Sheets.{with_words};
    ghost use Rattle.range_lines.specs.Blocks.{fault_words};

    /// Appends its name, and then what it carries.
    #[tactic(auto, using(report_sheet::proofs::CallerLemmas::word_steps), unfolding(crate::specs::Blocks::fault_words))]
    pub(crate) fn write(&self, sheet: &mut Sheet) -> Result<(), AllocError>
        ensures { OnOk result (sheet.new ≡ with_words sheet.old (fault_words self.now)) }
    {
        match self {
            RangeFault::UnknownWord => sheet.text("UnknownWord"),
            RangeFault::BadCard => sheet.text("BadCard"),
            RangeFault::BadRange => sheet.text("BadRange"),
            RangeFault::TwiceCard(card) => {
                sheet.text("TwiceCard")?;
                sheet.word(&card.text())
            }
            RangeFault::BoardSize => sheet.text("BoardSize"),
            RangeFault::PlayerCount => sheet.text("PlayerCount"),
            RangeFault::DeckShort => sheet.text("DeckShort"),
            RangeFault::Memory => sheet.text("Memory"),
        }
    }
}

impl From<AllocError> for RangeFault {
    ghost use Rattle.std.specs.Prelude.{◌≡◌};
    ghost use Rattle.range_lines.specs.declared.faults.RangeFault.TheVariants.{Memory};

    ghost from_gives = { λ _ fault. fault ≡ Memory };

    fn from(_: AllocError) -> RangeFault {
        RangeFault::Memory
    }
}
