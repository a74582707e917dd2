//! What a line of the report says: how money is written in it, and that its record is read back.

ghost use Rattle.std.specs.Prelude.{◌≡◌, ℕ, ◌/◌, ◌++◌, List, true, false, codes, decimal};
ghost use Rattle.report_laws.specs.ReadBack.{IsReadBack, HasThirteen};
ghost use Rattle.report_sheet.specs.Lines.{Line};
ghost use Rattle.report_sheet.specs.Numbers.{money};
ghost use Rattle.share_fractions.specs.Round.{last_digits};

/// A law: chips are written as a whole number, and hundredths as the whole number of hundreds, a point,
/// and the last two digits.
#[tactic(auto, unfolding(report_sheet::specs::Numbers::money, share_fractions::specs::Round::fixed_text))]
pub fn law_money_is_written_whole()
    ensures chips { (units : ℕ) → money false units ≡ decimal units }
    ensures hundredths { (units : ℕ)
        → money true units ≡ decimal (units / 100) ++ codes "." ++ last_digits 2 units }
{}

/// A law: a reader of CSV reads the record of a line back as the fields of the line, whatever its words
/// and its name contain, and whatever follows the record. A line of at most twelve words has thirteen
/// fields.
pub fn law_a_record_is_read_back()
    ensures fields { (line : Line) (later : List ℕ) → IsReadBack line later }
    ensures thirteen { (line : Line) → HasThirteen line }
{}
