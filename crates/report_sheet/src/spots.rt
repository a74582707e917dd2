//! The lines of a spot and of its hands. Each method appends whole lines, but for those that add words to one.

ghost use Rattle.std.specs.Prelude.{◌≡◌, ◌<◌, ◌≤◌, ◌^◌, [], ◌∷◌, ◌++◌, OnOk};
ghost use Rattle.card_sets.specs.Games.{game_word};
ghost use Rattle.report_sheet.specs.Sheets.{IsBetweenLines, with_line, with_words};
ghost use Rattle.report_sheet.specs.SpotLines.{ev_line, hand_name, refused_line, rejected_name, side_columns, side_line, spot_name};

use crate::sheet::Sheet;
use crate::words::side_word;
use card_sets::{Game, Side};
use showdown_tally::Cell;
use std::alloc::AllocError;

impl Sheet {
    /// The first words of a line of a spot. Places count from 1.
    #[tactic(auto, using(crate::proofs::CallerLemmas::word_steps), unfolding(crate::specs::SpotLines::spot_name))]
    fn spot_name(&mut self, place: u64) -> Result<(), AllocError>
        ensures { OnOk result (self.new ≡ with_words self.old (spot_name place)) }
    {
        self.text("spot")?;
        self.number(place)
    }

    /// The first words of a line of a hand. Hands count from 0, and are written from 1.
    #[tactic(auto, using(crate::proofs::CallerLemmas::word_steps), unfolding(crate::specs::SpotLines::hand_name))]
    fn hand_name(&mut self, hand: u8) -> Result<(), AllocError>
        ensures { OnOk result (self.new ≡ with_words self.old (hand_name hand)) }
    {
        self.text("hand")?;
        self.number(u64::from(hand) + 1)
    }

    /// The first words of the line of a spot that isn't well written.
    #[tactic(auto, using(crate::proofs::CallerLemmas::word_steps), unfolding(crate::specs::SpotLines::rejected_name))]
    pub fn rejected_name(&mut self, place: u64, number: u64) -> Result<(), AllocError>
        ensures { OnOk result (self.new ≡ with_words self.old (rejected_name place number)) }
    {
        self.spot_name(place)?;
        self.text("rejected")?;
        self.text("line")?;
        self.number(number)
    }

    /// The first words of a line of a spot, with its game. Places count from 1.
    #[tactic(auto, using(crate::proofs::CallerLemmas::word_steps))]
    pub fn spot_and_game(&mut self, place: u64, game: Game) -> Result<(), AllocError>
        ensures { OnOk result (self.new
            ≡ with_words self.old (spot_name place ++ game_word game ∷ [])) }
    {
        self.spot_name(place)?;
        self.text(game.word())
    }

    /// A side, and how all runouts end there.
    #[tactic(auto, using(crate::proofs::CallerLemmas::word_steps), unfolding(crate::specs::SpotLines::side_columns))]
    fn wide_columns(
        &mut self,
        all: u128,
        side: Side,
        win: u128,
        tie: u128,
        lose: u128,
    ) -> Result<(), AllocError>
        // There is a runout, and each number is small enough to be made a percentage.
        requires some { 0 < all }
        requires small { all ≤ 10 ^ 28 }
        requires wins { win ≤ 10 ^ 28 }
        requires ties { tie ≤ 10 ^ 28 }
        requires losses { lose ≤ 10 ^ 28 }

        // The words of the side stand after those before.
        ensures { OnOk result (self.new
            ≡ with_words self.old
            (side_columns all side (record { win = win; tie = tie; lose = lose }))) }
    {
        self.text(side_word(side))?;
        self.share("win", win, all)?;
        self.share("tie", tie, all)?;
        self.share("lose", lose, all)
    }

    /// Writes how all runouts end for a hand on a side, from a cell of a tally.
    pub fn side_columns(&mut self, all: u64, side: Side, cell: Cell) -> Result<(), AllocError>
        requires some { 0 < all }
        ensures { OnOk result (self.new ≡ with_words self.old (side_columns all side cell)) }
    {
        self.wide_columns(
            u128::from(all),
            side,
            u128::from(cell.win),
            u128::from(cell.tie),
            u128::from(cell.lose),
        )
    }

    /// How all runouts end for a hand on a side. Hands count from 0.
    #[tactic(auto, using(crate::proofs::CallerLemmas::sheet_steps), unfolding(crate::specs::SpotLines::side_line))]
    pub fn wide_side_line(
        &mut self,
        all: u128,
        hand: u8,
        side: Side,
        win: u128,
        tie: u128,
        lose: u128,
    ) -> Result<(), AllocError>
        requires between { IsBetweenLines self.old }

        // There is a runout, and each number is small enough to be made a percentage.
        requires some { 0 < all }
        requires small { all ≤ 10 ^ 28 }
        requires wins { win ≤ 10 ^ 28 }
        requires ties { tie ≤ 10 ^ 28 }
        requires losses { lose ≤ 10 ^ 28 }

        // The line of the side stands after the lines before.
        ensures { OnOk result (self.new
            ≡ with_line self.old
            (side_line all hand side (record { win = win; tie = tie; lose = lose }))) }
    {
        self.hand_name(hand)?;
        self.wide_columns(all, side, win, tie, lose)?;
        self.end()
    }

    /// Writes the line of a hand on a side, from a cell of a tally. Hands count from 0.
    pub fn side_line(
        &mut self,
        all: u64,
        hand: u8,
        side: Side,
        cell: Cell,
    ) -> Result<(), AllocError>
        requires between { IsBetweenLines self.old }
        requires some { 0 < all }
        ensures { OnOk result (self.new ≡ with_line self.old (side_line all hand side cell)) }
    {
        self.wide_side_line(
            u128::from(all),
            hand,
            side,
            u128::from(cell.win),
            u128::from(cell.tie),
            u128::from(cell.lose),
        )
    }

    /// What a hand may expect of the pot, from its units of 1/5040 of a pot over all runouts. Hands count
    /// from 0.
    #[tactic(auto, using(crate::proofs::CallerLemmas::sheet_steps), unfolding(crate::specs::SpotLines::ev_line))]
    pub fn ev_line(&mut self, all: u128, hand: u8, units: u128) -> Result<(), AllocError>
        requires between { IsBetweenLines self.old }
        requires some { 0 < all }
        requires small { all ≤ 10 ^ 28 }
        requires small_units { units ≤ 10 ^ 32 }
        ensures { OnOk result (self.new ≡ with_line self.old (ev_line all hand units)) }
    {
        self.hand_name(hand)?;
        self.text("ev")?;
        self.wide_expected(units, all)?;
        self.end()
    }

    /// The line of a spot that has too many runouts to be counted. Places count from 1.
    #[tactic(auto, using(crate::proofs::CallerLemmas::sheet_steps), unfolding(crate::specs::SpotLines::refused_line))]
    pub fn refused_spot(&mut self, place: u64, game: Game) -> Result<(), AllocError>
        requires { IsBetweenLines self.old }
        ensures { OnOk result (self.new ≡ with_line self.old (refused_line place game)) }
    {
        self.spot_and_game(place, game)?;
        self.refused()?;
        self.end()
    }
}
