//! The words of the report that are the same in each of its blocks.

ghost use Rattle.std.specs.Prelude.{◌≡◌, [], ◌∷◌, OnOk, decimal};
ghost use Rattle.report_sheet.specs.Numbers.{money};
ghost use Rattle.report_sheet.specs.Sheets.{with_words};
ghost use Rattle.report_sheet.specs.SpotLines.{refused_words, side_word};

use crate::sheet::Sheet;
use card_sets::Side;
use runout_ranges::RUNOUT_MAX;
use std::alloc::AllocError;

/// How a side is written.
pub fn side_word(side: Side) -> &'static str
    ensures { result.now ≡ side_word side }
{
    match side {
        Side::High => "high",
        Side::Low => "low",
    }
}

impl Sheet {
    /// One word more, as it stands.
    pub fn text(&mut self, text: &str) -> Result<(), AllocError>
        ensures { OnOk result (self.new ≡ with_words self.old (text.now ∷ [])) }
    {
        self.word(text.as_bytes())
    }

    /// A name, and the word that stands after it.
    #[tactic(auto, using(crate::proofs::CallerLemmas::word_steps))]
    pub fn name_and_word(&mut self, name: &str, word: &str) -> Result<(), AllocError>
        ensures { OnOk result (self.new ≡ with_words self.old (name.now ∷ word.now ∷ [])) }
    {
        self.text(name)?;
        self.text(word)
    }

    /// A name, and the number that stands after it.
    #[tactic(auto, using(crate::proofs::CallerLemmas::word_steps))]
    pub fn name_and_number(&mut self, name: &str, number: u64) -> Result<(), AllocError>
        ensures { OnOk result (self.new ≡ with_words self.old (name.now ∷ decimal number ∷ [])) }
    {
        self.text(name)?;
        self.number(number)
    }

    /// A name, and the amount in units that stands after it.
    #[tactic(auto, using(crate::proofs::CallerLemmas::word_steps))]
    pub fn name_and_money(
        &mut self,
        name: &str,
        hundredths: bool,
        units: u128,
    ) -> Result<(), AllocError>
        ensures { OnOk result (self.new
            ≡ with_words self.old (name.now ∷ money hundredths units ∷ [])) }
    {
        self.text(name)?;
        self.money(hundredths, units)
    }

    /// That there are more runouts than are counted.
    #[tactic(auto, using(crate::proofs::CallerLemmas::word_steps), unfolding(crate::specs::SpotLines::refused_words))]
    pub fn refused(&mut self) -> Result<(), AllocError>
        ensures { OnOk result (self.new ≡ with_words self.old refused_words) }
    {
        self.text("refused")?;
        self.text("above")?;
        self.number(RUNOUT_MAX)?;
        self.text("runouts")
    }
}
