//! What each player won and lost over all hands of a run.

ghost use Rattle.std.specs.Prelude.{◌≡◌, ◌<◌, ◌^◌, List, [], ◌∷◌, ◌++◌, true, OnOk, OnErr};
ghost use Rattle.hand_verdict.specs.declared.seat_chips.AuditedChips.{AuditedChips};
ghost use Rattle.player_totals.specs.Balance.{balance_lines, balance_of};
ghost use Rattle.even_luck.specs.Equities.{IsOfHand, is_asked};

use crate::balance_sums::{BalanceSums, SettledHand};
use crate::player_rows::Players;
use crate::players::{Lineup, add_hand};
use crate::total_lines::write_sums;
use card_sets::Memory;
use even_luck::{AskedAllIn, Equity};
use hand_verdict::{AuditedChips, HandAudit};
use report_sheet::Form;
use std::alloc::Global;
use std::marker::Model;

/// What each player won and lost over all hands of a run: how many hands there are, and for each name in each
/// unit, in the order of their first seat lines, what it got and put in, and what it would have got with even
/// luck. Clauses see it as plain records.
#[derive(Drop)]
pub struct Balance {
    /// Number of accepted hands.
    accepted: u64,
    /// Number of rejected hands.
    rejected: u64,
    /// The sums of each name in each unit.
    players: Players<BalanceSums>,
}

impl Model for Balance {
    ghost use Rattle.std.specs.Prelude.{◌+◌, ◌≤◌, ◌^◌};
    ghost use Rattle.player_totals.specs.Balance.{RunBalance};

    ghost Value = { RunBalance };

    ghost use Rattle.player_totals.specs.BalanceSeen.{AreOfSeats};
    ghost use Rattle.player_totals.specs.SumsSeen.{AllAreOf};

    ghost view = { λ b. record {
      hands = b.accepted + b.rejected;
      accepted = b.accepted;
      rejected = b.rejected;
      players = b.players;
    } };

    ghost invariant = { λ b. (b.accepted + b.rejected ≤ 2 ^ 32)
        × AllAreOf AreOfSeats b.accepted b.players };
}

impl Balance {
    /// That of no hand.
    pub fn new(alloc: Global) -> Balance
        ensures { result ≡ balance_of [] }
    {
        Balance {
            accepted: 0,
            rejected: 0,
            players: Players::new(alloc),
        }
    }

    /// How many hands were added.
    pub fn hands(&self) -> u64
        ensures { result ≡ self.now.hands }
    {
        self.accepted + self.rejected
    }

    /// How many of the hands are rejected.
    pub fn rejected(&self) -> u64
        ensures { result ≡ self.now.rejected }
    {
        self.rejected
    }

    /// Adds a hand, by its verdict with the chips of its seats and the equity of its all-in. Out of memory it
    /// leaves the balance as it was.
    pub fn add(&mut self, hand: &AuditedChips, equity: &Equity) -> Result<(), Memory>
        requires asked { is_asked equity.now ≡ true }
        requires equity { IsOfHand hand.now.audit equity.now }
        requires few { self.old.hands < 2 ^ 32 }
        ensures added { (hands : List AuditedChips) → self.old ≡ balance_of hands
            → OnOk result (self.new ≡ balance_of (hands ++ hand.now ∷ [])) }
        ensures memory { OnErr result (self.new ≡ self.old) }
    {
        let HandAudit::Accepted {
            settlement,
            all_in,
            names,
            players,
        } = &hand.audit
        else {
            self.rejected += 1;
            return Ok(());
        };
        let lineup = Lineup {
            hundredths: settlement.hundredths,
            names,
            players: *players,
        };
        let settled = SettledHand {
            settlement,
            all_in: AskedAllIn { all_in, equity },
            chips: &hand.chips,
        };
        add_hand(&mut self.players, &lineup, &settled)?;
        self.accepted += 1;
        Ok(())
    }

    /// Appends the balance: a line of all hands, and a line for each name in each unit. Out of memory it leaves
    /// `out` as it was.
    pub fn write(&self, out: &mut Vec<u8>, form: Form) -> Result<(), Memory>
        ensures block { OnOk result (out.new.items ≡ out.old.items ++ balance_lines form self.now) }
        ensures memory { OnErr result (out.new.items ≡ out.old.items) }
    {
        write_sums(
            out,
            "balance",
            self.accepted,
            self.rejected,
            &self.players,
            form,
        )
    }
}
