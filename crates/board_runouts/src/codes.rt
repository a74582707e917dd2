//! Who wins all pots for each pair of ranks of the last two cards, as a code.

ghost use Rattle.std.specs.Prelude.{◌≡◌, ℕ, ◌+◌, ◌*◌, ◌<◌, ◌≤◌, [], length, slice_index, slice_index_or, false, true, IsTrue, MatchOption, ⊤};
ghost use Rattle.board_runouts.specs.Fields.{AreCodesAt, IsOutcome, field};

use crate::row::{PLACES, Row};

/// How many codes there are: one for each field of a number of 64 bits.
pub(crate) const CODES: usize = 7;

/// How many places of the counts an outcome of all pots has: for each pot that of its high and that of its low.
pub(crate) const ENDS: usize = 20;

/// A one in the field of a code, which has nine bits.
#[inline]
fn one_in(code: u8) -> u64
    requires { code < 7 }
    ensures { result ≡ field code }
{
    match code {
        0 => 1,
        1 => 512,
        2 => 262144,
        3 => 134217728,
        4 => 68719476736,
        5 => 35184372088832,
        _ => 18014398509481984,
    }
}

/// The outcome of all pots at a place of their rows.
#[inline]
fn outcome_at(rows: &[Row], place: usize) -> [u16; ENDS]
    requires pots { length rows.now ≤ 10 }
    requires place { place < 169 }
    ensures outcome { IsOutcome rows.now place result }
    ensures few { (end : ℕ) → slice_index result end < 2048 }
{
    let mut outcome = [0; ENDS];
    for (pot, row) in rows.iter().enumerate() {
        outcome[2 * pot] = row.mains[place];
        outcome[2 * pot + 1] = row.lows[place];
    }
    outcome
}

/// Who wins all pots with first cards of some ranks, for each pair of ranks of the last two cards: a code for each outcome.
#[derive(Clone, Copy)]
pub(crate) struct Codes {
    /// The ranks of the first cards, up to three, and 13 after them.
    pub(crate) ranks: [u8; 3],
    /// The least rank of the two last cards.
    pub(crate) least: u8,
    /// Whether there is a code for each outcome.
    pub(crate) enough: bool,
    /// How many codes are in use.
    pub(crate) used: u8,
    /// By the pair of ranks, a one in the field of its code.
    pub(crate) adds: [u64; PLACES],
    /// By the code, where its outcome is counted: for each pot that of the high and that of the low.
    pub(crate) ends: [[u16; ENDS]; CODES],
    /// There are no more.
    pub(crate) ghost few: { used ≤ 7 },
    /// So large may a place of the counts be.
    pub(crate) ghost inside: { (code end : ℕ) → slice_index (slice_index_or ends code []) end < 2048 },
}

impl Codes {
    /// The codes of no rows.
    pub(crate) fn none() -> Codes
        ensures { result.enough ≡ false }
    {
        Codes {
            ranks: [0; 3],
            least: 0,
            enough: false,
            used: 0,
            adds: [0; PLACES],
            ends: [[0; ENDS]; CODES],
        }
    }

    /// A law: there are seven codes.
    #[inline]
    pub(crate) fn seven(&self)
        ensures { length self.now.ends ≡ 7 }
    {
        let _ends: &[[u16; ENDS]] = &self.ends;
    }

    /// There is a place for each two ranks.
    #[inline]
    fn all_places(&self)
        ensures { length self.now.adds ≡ 169 }
    {
        let _adds: &[u64] = &self.adds;
    }

    /// Whether they are those of first cards of these ranks, the last of which is the least of the cards after them.
    #[inline]
    pub(crate) fn are_for(&self, ranks: &[u8; 3], least: u8) -> bool
        ensures ranks { IsTrue result → self.now.ranks ≡ ranks.now }
        ensures least { IsTrue result → self.now.least ≡ least }
    {
        self.ranks == *ranks && self.least == least
    }

    /// The code of an outcome, or the first that isn't in use.
    #[inline]
    fn find(&self, outcome: &[u16; ENDS]) -> u8
        ensures few { result ≤ self.now.used }
        ensures found { result < self.now.used
            → slice_index_or self.now.ends result [] ≡ outcome.now }
    {
        for code in 0..self.used {
            if self.ends[usize::from(code)] == *outcome {
                return code;
            }
        }
        self.used
    }

    /// The code of an outcome, which takes one that isn't in use where it has none. None where there isn't one.
    #[inline]
    fn code_for(&mut self, outcome: &[u16; ENDS]) -> Option<u8>
        requires few { (end : ℕ) → slice_index outcome.now end < 2048 }

        // It stands for the outcome.
        ensures code { MatchOption result ⊤ (λ code. (code < self.new.used)
            × (slice_index_or self.new.ends code [] ≡ outcome.now)) }

        // Codes that were in use stand for what they stood for.
        ensures kept { (code : ℕ) → code < self.old.used
            → slice_index_or self.new.ends code [] ≡ slice_index_or self.old.ends code [] }
        ensures more { self.old.used ≤ self.new.used }

        // All else stays.
        ensures adds { self.new.adds ≡ self.old.adds }
        ensures enough { self.new.enough ≡ self.old.enough }
        ensures ranks { self.new.ranks ≡ self.old.ranks }
        ensures least { self.new.least ≡ self.old.least }
    {
        let code = self.find(outcome);
        if code < self.used {
            return Some(code);
        }
        if code == 7 {
            return None;
        }
        self.ends[usize::from(code)] = *outcome;
        self.used = code + 1;
        Some(code)
    }

    /// Makes them the codes of the rows of all pots for first cards of these ranks, for the pairs of ranks from the least on.
    #[inline(never)]
    pub(crate) fn fill(&mut self, rows: &[Row], ranks: [u8; 3], least: u8)
        requires { length rows.now ≤ 10 }
        ensures ranks { self.new.ranks ≡ ranks }
        ensures least { self.new.least ≡ least }
        ensures codes { self.new.enough ≡ true
            → AreCodesAt self.new.adds self.new.ends rows.now least }
    {
        self.ranks = ranks;
        self.least = least;
        self.used = 0;
        self.enough = false;
        self.all_places();
        for low in least..13 {
            for high in low..13 {
                let place = 13 * usize::from(low) + usize::from(high);
                let outcome = outcome_at(rows, place);
                let Some(code) = self.code_for(&outcome) else {
                    return;
                };
                self.adds[place] = one_in(code);
            }
        }
        self.enough = true;
    }
}
