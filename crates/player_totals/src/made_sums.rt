//! What the hands of a run with two seats come to.

ghost use Rattle.std.specs.Prelude.{◌≡◌, ℕ, ◌<◌, ◌≤◌, ◌*◌, ◌^◌, List, [], ◌∷◌, ◌++◌, true, OnOk, OnErr};
ghost use Rattle.hand_verdict.specs.declared.verdicts.HandAudit.{HandAudit};
ghost use Rattle.even_luck.specs.Equities.{IsEquityOf, IsFull, IsOfHand, is_asked};
ghost use Rattle.even_luck.specs.Figures.{full_figures, tally_figures};
ghost use Rattle.report_sheet.specs.Lines.{line_in};
ghost use Rattle.player_totals.specs.Made.{all_in_sums, hand_units, known_all_in, made_columns, made_line, made_sums, made_title, seat_units};
ghost use Rattle.player_totals.specs.MadeSeen.{AreSmall};
ghost use Rattle.report_sheet.specs.Sheets.{IsBetweenLines, with_line, with_words};
ghost use Rattle.showdown_tally.specs.Deals.{deal_of};

use card_sets::Memory;
use even_luck::{AskedAllIn, Equity, hand_at, pot_count};
use hand_verdict::{AllIn, HandAudit};
use report_sheet::{Form, Sheet};
use showdown_tally::{Table, Tally};
use std::alloc::AllocError;
use std::marker::Model;

/// What the runouts of the counted all-in of a hand come to.
#[derive(Clone, Copy)]
pub struct AllInSums {
    /// How many runouts there are.
    pub runouts: u128,
    /// What they give seat 1, in 1/5040 of a pot.
    pub first: u128,
    /// What they give seat 2, in 1/5040 of a pot.
    pub second: u128,
}

/// The sums of a hand without a counted all-in.
const NO_ALL_IN: AllInSums = AllInSums {
    runouts: 0,
    first: 0,
    second: 0,
};

/// The units of a hand in the pots below a number.
fn hand_units(tally: &Tally, count: u8, hand: u8) -> u128
    requires hand { hand < 10 }
    requires few { count ≤ 10 }
    ensures value { result ≡ hand_units (tally_figures tally.now) count hand }
    ensures bound { result ≤ 10 * 2 ^ 64 }
{
    let mut units = 0;
    for k in 0..count {
        units += u128::from(tally.units(k, hand));
    }
    units
}

/// The units of the hand of a seat in all pots; none where it isn't a contender's.
fn seat_units(seats: &[u8; 10], table: &Table, tally: &Tally, seat: u8) -> u128
    requires { IsFull (deal_of table.now) tally.now }
    ensures value { result
        ≡ seat_units (full_figures (deal_of table.now)) (deal_of table.now) seats.now seat }
    ensures bound { result ≤ 10 * 2 ^ 64 }
{
    match hand_at(seats, table, seat) {
        Some(hand) => hand_units(tally, pot_count(table), hand),
        None => 0,
    }
}

/// Returns what a hand with a counted all-in gives, by a tally of all its runouts.
fn counted_all_in(seats: &[u8; 10], table: &Table, tally: &Tally) -> AllInSums
    requires some { 0 < tally.now.runouts }
    requires full { IsFull (deal_of table.now) tally.now }
    ensures value { result ≡ known_all_in seats.now (deal_of table.now) }
    ensures small { AreSmall 1 result }
{
    AllInSums {
        runouts: u128::from(tally.runouts()),
        first: seat_units(seats, table, tally, 1),
        second: seat_units(seats, table, tally, 2),
    }
}

/// A hand with a known all-in, which is counted or refused.
fn known_all_in(seats: &[u8; 10], table: &Table, equity: &Equity) -> AllInSums
    requires { IsEquityOf (deal_of table.now) equity.now }
    ensures value { result ≡ known_all_in seats.now (deal_of table.now) }
    ensures small { AreSmall 1 result }
{
    match equity.counted(table) {
        Some(tally) => counted_all_in(seats, table, tally),
        None => NO_ALL_IN,
    }
}

/// What a hand in which no line departs gives, with the equity of its all-in.
fn all_in_sums(asked: &AskedAllIn) -> AllInSums
    ensures value { result ≡ all_in_sums asked.now.all_in.now }
    ensures small { AreSmall 1 result }
{
    match asked.all_in {
        AllIn::None | AllIn::Unknown => NO_ALL_IN,
        AllIn::Known { seats, table, .. } => known_all_in(seats, table, asked.equity),
    }
}

/// What the hands of a run with two seats come to: how many there are, how many of them are accepted, how
/// many runouts their counted all-ins have, and what these give seats 1 and 2, in 1/5040 of a pot. Clauses
/// see them as a plain record.
#[derive(Drop)]
pub struct MadeSums {
    /// Number of hands.
    hands: u64,
    /// Number of accepted hands.
    accepted: u64,
    /// Sums over their counted all-ins.
    all_ins: AllInSums,
}

impl Model for MadeSums {
    ghost use Rattle.std.specs.Prelude.{◌≤◌, ◌^◌};
    ghost use Rattle.player_totals.specs.Made.{MadeTotals};
    ghost use Rattle.player_totals.specs.MadeSeen.{AreSmall};

    ghost Value = { MadeTotals };

    ghost view = { λ s. record {
      hands = s.hands;
      accepted = s.accepted;
      all_ins = s.all_ins;
    } };

    ghost invariant = { λ s. (s.hands ≤ 2 ^ 32) × (s.accepted ≤ s.hands)
        × AreSmall s.hands s.all_ins };
}

impl MadeSums {
    /// Creates the sums of no hands.
    pub fn new() -> MadeSums
        ensures { result ≡ made_sums [] }
    {
        MadeSums {
            hands: 0,
            accepted: 0,
            all_ins: NO_ALL_IN,
        }
    }

    /// Adds a hand, by its verdict and the equity of its all-in.
    pub fn add(&mut self, audit: &HandAudit, equity: &Equity)
        requires asked { is_asked equity.now ≡ true }
        requires equity { IsOfHand audit.now equity.now }
        requires few { self.old.hands < 2 ^ 32 }
        ensures { (hands : List HandAudit) → self.old ≡ made_sums hands
            → self.new ≡ made_sums (hands ++ audit.now ∷ []) }
    {
        self.hands += 1;
        if let HandAudit::Accepted { all_in, .. } = audit {
            let more = all_in_sums(&AskedAllIn { all_in, equity });
            self.accepted += 1;
            self.all_ins.runouts += more.runouts;
            self.all_ins.first += more.first;
            self.all_ins.second += more.second;
        }
    }

    /// How many of the hands are accepted.
    pub fn accepted(&self) -> u64
        ensures { result ≡ self.now.accepted }
    {
        self.accepted
    }

    /// Appends the line of this number of hands that were made. Out of memory, it leaves `out` unchanged.
    pub fn write(&self, out: &mut Vec<u8>, hands: u64, form: Form) -> Result<(), Memory>
        ensures block { OnOk result (out.new.items
            ≡ out.old.items ++ line_in form (made_line hands self.now.accepted self.now.all_ins)) }
        ensures memory { OnErr result (out.new.items ≡ out.old.items) }
    {
        let mut sheet = Sheet::new(*out.allocator(), form);
        made_line(&mut sheet, hands, self.accepted, &self.all_ins)?;
        sheet.append_to(out)
    }
}

/// Writes the first words of the line of this number of hands that were made.
#[tactic(auto, using(report_sheet::proofs::CallerLemmas::word_steps), unfolding(crate::specs::Made::made_title))]
fn made_title(sheet: &mut Sheet, hands: u64, accepted: u64) -> Result<(), AllocError>
    ensures { OnOk result (sheet.new ≡ with_words sheet.old (made_title hands accepted)) }
{
    sheet.text("made")?;
    sheet.name_and_number("hands", hands)?;
    sheet.name_and_number("accepted", accepted)
}

/// What stands after them.
#[tactic(auto, using(report_sheet::proofs::CallerLemmas::word_steps), unfolding(crate::specs::Made::made_columns))]
fn made_columns(sheet: &mut Sheet, sums: &AllInSums) -> Result<(), AllocError>
    ensures { OnOk result (sheet.new ≡ with_words sheet.old (made_columns sums.now)) }
{
    sheet.name_and_money("runouts", false, sums.runouts)?;
    sheet.name_and_money("first", false, sums.first)?;
    sheet.name_and_money("second", false, sums.second)
}

/// Writes the line of this number of hands that were made.
#[tactic(auto, using(report_sheet::proofs::CallerLemmas::sheet_steps), unfolding(crate::specs::Made::made_line))]
fn made_line(
    sheet: &mut Sheet,
    hands: u64,
    accepted: u64,
    sums: &AllInSums,
) -> Result<(), AllocError>
    requires { IsBetweenLines sheet.old }
    ensures { OnOk result (sheet.new ≡ with_line sheet.old (made_line hands accepted sums.now)) }
{
    made_title(sheet, hands, accepted)?;
    made_columns(sheet, sums)?;
    sheet.end()
}
