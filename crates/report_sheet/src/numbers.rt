//! The numbers of the report, each as one word.

ghost use Rattle.std.specs.Prelude.{◌≡◌, ◌*◌, ◌<◌, ◌≤◌, ◌^◌, [], ◌∷◌, ◌++◌, OnOk, codes, decimal};
ghost use Rattle.report_sheet.specs.Numbers.{difference, expected, money, percent, share};
ghost use Rattle.report_sheet.specs.Sheets.{with_words};
ghost use Rattle.share_fractions.specs.Round.{round, fixed_text};

use crate::sheet::Sheet;
use itoa::Buffer;
use share_fractions::{Fixed, LONGEST_TEXT, rounded};
use std::alloc::AllocError;

impl Sheet {
    /// A whole number.
    pub fn number(&mut self, number: u64) -> Result<(), AllocError>
        ensures { OnOk result (self.new ≡ with_words self.old (decimal number ∷ [])) }
    {
        let mut buffer = Buffer::new();
        self.word(buffer.format(number).as_bytes())
    }

    /// A whole number that may be above 64 bits.
    pub fn wide_number(&mut self, number: u128) -> Result<(), AllocError>
        ensures { OnOk result (self.new ≡ with_words self.old (decimal number ∷ [])) }
    {
        let mut buffer = Buffer::new();
        self.word(buffer.format(number).as_bytes())
    }

    /// Writes a fraction with this number of decimal places, rounded once, a half up.
    fn fraction(
        &mut self,
        numerator: u128,
        denominator: u128,
        places: u32,
    ) -> Result<(), AllocError>
        requires some { 0 < denominator }
        requires small { numerator ≤ 2 * 10 ^ 32 }
        requires small_too { denominator ≤ 10 ^ 32 }
        requires few { places ≤ 4 }
        ensures { OnOk result (self.new
            ≡ with_words self.old (fixed_text (round numerator denominator places) places ∷ [])) }
    {
        let mut text = [0; LONGEST_TEXT];
        let end = rounded(numerator, denominator, places).write(&mut text);
        self.word(&text[..end])
    }

    /// An amount in units: chips as a whole number, hundredths with a point and two digits after it.
    #[tactic(auto, unfolding(crate::specs::Numbers::money))]
    pub fn money(&mut self, hundredths: bool, units: u128) -> Result<(), AllocError>
        ensures { OnOk result (self.new ≡ with_words self.old (money hundredths units ∷ [])) }
    {
        let places = if hundredths { 2 } else { 0 };
        let mut text = [0; LONGEST_TEXT];
        let end = Fixed {
            whole: units,
            places,
        }
        .write(&mut text);
        self.word(&text[..end])
    }

    /// An amount below 0, by how much it is below.
    #[tactic(auto, unfolding(crate::specs::Numbers::money))]
    fn below_zero(&mut self, hundredths: bool, units: u128) -> Result<(), AllocError>
        ensures { OnOk result (self.new
            ≡ with_words self.old ((codes "-" ++ money hundredths units) ∷ [])) }
    {
        let places = if hundredths { 2 } else { 0 };
        let mut text = [b'-'; LONGEST_TEXT + 1];
        let end = Fixed {
            whole: units,
            places,
        }
        .write(&mut text[1..]);
        self.word(&text[..=end])
    }

    /// An amount less another, with a sign before it where that is below 0.
    #[tactic(auto, unfolding(crate::specs::Numbers::difference))]
    pub fn difference(
        &mut self,
        hundredths: bool,
        amount: u128,
        less: u128,
    ) -> Result<(), AllocError>
        ensures { OnOk result (self.new
            ≡ with_words self.old (difference hundredths amount less ∷ [])) }
    {
        if amount < less {
            return self.below_zero(hundredths, less - amount);
        }
        self.money(hundredths, amount - less)
    }

    /// Writes a share of all runouts, in percent with two decimal places.
    #[tactic(auto, unfolding(crate::specs::Numbers::percent))]
    fn percent(&mut self, count: u128, all: u128) -> Result<(), AllocError>
        requires some { 0 < all }
        requires small { count ≤ 10 ^ 28 }
        requires small_too { all ≤ 10 ^ 28 }
        ensures { OnOk result (self.new ≡ with_words self.old (percent count all ∷ [])) }
    {
        self.fraction(100 * count, all, 2)
    }

    /// The part of the pot that a hand may expect, with three decimal places, from its units of 1/5040
    /// of a pot over all runouts.
    #[tactic(auto, unfolding(crate::specs::Numbers::expected))]
    pub(crate) fn wide_expected(&mut self, units: u128, all: u128) -> Result<(), AllocError>
        requires some { 0 < all }
        requires small_units { units ≤ 10 ^ 32 }
        requires small_too { all ≤ 10 ^ 28 }
        ensures { OnOk result (self.new ≡ with_words self.old (expected units all ∷ [])) }
    {
        self.fraction(units, 5040 * all, 3)
    }

    /// Writes an expected part of the pot, from the numbers of a tally.
    pub fn expected(&mut self, units: u64, all: u64) -> Result<(), AllocError>
        requires some { 0 < all }
        ensures { OnOk result (self.new ≡ with_words self.old (expected units all ∷ [])) }
    {
        self.wide_expected(u128::from(units), u128::from(all))
    }

    /// How many runouts end in a way, and how much of all that is.
    #[tactic(auto, using(crate::proofs::CallerLemmas::word_steps), unfolding(crate::specs::Numbers::share))]
    pub(crate) fn share(&mut self, way: &str, count: u128, all: u128) -> Result<(), AllocError>
        requires some { 0 < all }
        requires small { count ≤ 10 ^ 28 }
        requires small_too { all ≤ 10 ^ 28 }
        ensures { OnOk result (self.new ≡ with_words self.old (share way.now count all)) }
    {
        self.text(way)?;
        self.wide_number(count)?;
        self.percent(count, all)
    }
}
