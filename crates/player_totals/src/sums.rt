//! Sums of some kind that hands give their players: one code keeps the players with their sums, whatever is
//! summed up.

ghost use Rattle.std.specs.Prelude.{◌≡◌, ℕ, ◌+◌, ◌^◌, OnOk};
ghost use Rattle.report_sheet.specs.Lines.{Line};
ghost use Rattle.report_sheet.specs.Sheets.{IsBetweenLines, with_line};
ghost use Rattle.player_totals.specs.SumsSeen.{AreSums};
ghost use Rattle.player_totals.specs.Totals.{Player};
ghost use Rattle.player_totals.specs.TotalsSeen.{player_of};

use crate::player_key::PlayerKey;
use report_sheet::Sheet;
use std::alloc::AllocError;

/// What some hands of one unit of money come to for a player.
pub(crate) trait Sums: Copy {
    /// The sums of no hands.
    ghost nothing: { Self };

    /// The sums of two parts of the hands together.
    ghost plus: { Self → Self → Self };

    /// Whether a number of hands may give such sums.
    ghost AreOf: { ℕ → Self → Type 0 };

    /// The laws of the three members above.
    ghost laws: { AreSums nothing plus AreOf };

    /// The line of a player.
    ghost line: { Player → Self → Line };

    /// Returns the sums of no hands.
    fn none() -> Self
        ensures { result ≡ nothing };

    /// Returns these sums together with those of one more hand.
    fn with(&self, more: &Self) -> Self
        requires sums { AreOf (2 ^ 32 + 1) self.now }
        requires more { AreOf 1 more.now }
        ensures { result ≡ plus self.now more.now };

    /// Appends the line of a player.
    fn write_line(&self, sheet: &mut Sheet, key: &PlayerKey) -> Result<(), AllocError>
        requires { IsBetweenLines sheet.old }
        ensures { OnOk result (sheet.new
            ≡ with_line sheet.old (line (player_of key.now) self.now)) };
}

/// A hand in which no line departs, as it gives sums to its players.
pub(crate) trait Gives<S: Sums> {
    /// What it gives a seat that plays.
    ghost share: { Self → ℕ → S };

    /// What it gives a seat that plays.
    fn sums(&self, seat: u8) -> S
        ensures value { result ≡ share self.now seat }
        ensures small { S.AreOf 1 result };
}
