//! What each pot holds, and who got what of it.

use card_sets::{Game, Items};
use std::marker::Model;

/// What a seat got, and what the rules give it.
#[derive(Clone, Copy)]
pub struct Payment {
    /// The seat.
    pub seat: u8,
    /// What it collected, in units.
    pub got: u64,
    /// What it is due.
    pub due: u64,
}

/// Some payments, by rising seat. Clauses see the list of them.
pub type Payments = Items<Payment>;

/// What a pot holds, and who got what of it.
#[derive(Drop)]
pub struct PotLine {
    /// What it holds, in units.
    pub gross: u64,
    /// What of it was not collected; 0 where the names of the pots don't fit.
    pub rake: u64,
    /// Who may win it: bit s for seat s.
    pub eligible: u16,
    /// Whether it is known who wins it.
    pub checked: bool,
    /// The payments out of it; none where the names of the pots don't fit.
    pub paid: Payments,
}

/// The pots of a hand, the main pot first: at most ten, one for each player. Clauses see the list of them.
#[derive(Drop)]
pub struct PotLines {
    /// The pots, at most ten.
    list: Vec<PotLine>,
}

impl Model for PotLines {
    ghost use Rattle.std.specs.Prelude.{List, length, ◌≤◌};
    ghost use Rattle.hand_verdict.specs.declared.settlement.PotLine.{PotLine};

    ghost Value = { List PotLine };

    ghost view = { λ pots. pots.list.items };

    ghost invariant = { λ pots. length pots.list.items ≤ 10 };
}

impl PotLines {
    ghost use Rattle.std.specs.Prelude.{◌≡◌, ◌≤◌, length};

    /// Wraps a list of at most ten pots.
    pub fn of(list: Vec<PotLine>) -> PotLines
        requires few { length list.items ≤ 10 }
        ensures { result ≡ list.items }
    {
        PotLines { list }
    }

    /// Returns the pots.
    pub fn items(&self) -> &[PotLine]
        ensures items { result.now ≡ self.now }
        ensures few { length result.now ≤ 10 }
    {
        self.list.as_slice()
    }
}

/// What became of the chips of a hand.
#[derive(Drop)]
pub struct Settlement {
    /// The game.
    pub game: Game,
    /// Whether a unit is a hundredth, or else a chip.
    pub hundredths: bool,
    /// The stated rake.
    pub rake: u64,
    /// Whether each collection names one of the pots, each pot has one or more of them, and none has more
    /// collected than it holds.
    pub fits: bool,
    /// Whether the hand was run twice: a marker of a first board stood.
    pub twice: bool,
    /// The pots.
    pub pots: PotLines,
    /// The payments of the hand where the names don't fit, and else none.
    pub paid: Payments,
}
