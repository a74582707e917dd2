//! What all hands of a run come to.

ghost use Rattle.std.specs.Prelude.{◌≡◌, ℕ, ◌<◌, ◌^◌, List, [], ◌∷◌, ◌++◌, true, OnOk, OnErr};
ghost use Rattle.hand_verdict.specs.declared.verdicts.HandAudit.{HandAudit};
ghost use Rattle.even_luck.specs.Equities.{IsOfHand, is_asked};
ghost use Rattle.player_totals.specs.Totals.{run_block, totals_of};

use crate::player_rows::Players;
use crate::player_sums::{PlayedHand, PlayerSums};
use crate::players::{Lineup, add_hand};
use crate::total_lines::write_sums;
use card_sets::Memory;
use even_luck::{AskedAllIn, Equity};
use hand_verdict::HandAudit;
use report_sheet::Form;
use std::alloc::Global;
use std::marker::Model;

/// What all hands of a run come to: how many there are, and the sums of each name in each unit, in the
/// order of their first seat lines. Clauses see them as plain records.
#[derive(Drop)]
pub struct Totals {
    /// Number of accepted hands.
    accepted: u64,
    /// Number of rejected hands.
    rejected: u64,
    /// The sums of each name in each unit.
    players: Players<PlayerSums>,
}

impl Model for Totals {
    ghost use Rattle.std.specs.Prelude.{◌+◌, ◌≤◌, ◌^◌};
    ghost use Rattle.player_totals.specs.Totals.{RunTotals};

    ghost Value = { RunTotals };

    ghost use Rattle.player_totals.specs.SumsSeen.{AllAreOf};
    ghost use Rattle.player_totals.specs.TotalsSeen.{AreOfHands};

    ghost view = { λ t. record {
      hands = t.accepted + t.rejected;
      accepted = t.accepted;
      rejected = t.rejected;
      players = t.players;
    } };

    ghost invariant = { λ t. (t.accepted + t.rejected ≤ 2 ^ 32)
        × AllAreOf AreOfHands t.accepted t.players };
}

impl Totals {
    /// Creates the sums of no hands.
    pub fn new(alloc: Global) -> Totals
        ensures { result ≡ totals_of [] }
    {
        Totals {
            accepted: 0,
            rejected: 0,
            players: Players::new(alloc),
        }
    }

    /// How many hands were added.
    pub fn hands(&self) -> u64
        ensures { result ≡ self.now.hands }
    {
        self.accepted + self.rejected
    }

    /// How many of the hands are rejected.
    pub fn rejected(&self) -> u64
        ensures { result ≡ self.now.rejected }
    {
        self.rejected
    }

    /// Adds a hand, by its verdict and the equity of its all-in. Out of memory it leaves the totals as they
    /// were.
    pub fn add(&mut self, audit: &HandAudit, equity: &Equity) -> Result<(), Memory>
        requires asked { is_asked equity.now ≡ true }
        requires equity { IsOfHand audit.now equity.now }
        requires few { self.old.hands < 2 ^ 32 }
        ensures added { (hands : List HandAudit) → self.old ≡ totals_of hands
            → OnOk result (self.new ≡ totals_of (hands ++ audit.now ∷ [])) }
        ensures memory { OnErr result (self.new ≡ self.old) }
    {
        let HandAudit::Accepted {
            settlement,
            all_in,
            names,
            players,
        } = audit
        else {
            self.rejected += 1;
            return Ok(());
        };
        let lineup = Lineup {
            hundredths: settlement.hundredths,
            names,
            players: *players,
        };
        let hand = PlayedHand {
            settlement,
            all_in: AskedAllIn { all_in, equity },
        };
        add_hand(&mut self.players, &lineup, &hand)?;
        self.accepted += 1;
        Ok(())
    }

    /// Appends the totals: a line of all hands, and a line for each name in each unit. Out of memory it
    /// leaves `out` as it was.
    pub fn write(&self, out: &mut Vec<u8>, form: Form) -> Result<(), Memory>
        ensures block { OnOk result (out.new.items ≡ out.old.items ++ run_block form self.now) }
        ensures memory { OnErr result (out.new.items ≡ out.old.items) }
    {
        write_sums(
            out,
            "totals",
            self.accepted,
            self.rejected,
            &self.players,
            form,
        )
    }
}
