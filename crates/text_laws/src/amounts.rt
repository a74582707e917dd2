//! Laws of the amounts in a text: the function is empty, and its clauses are the laws.

ghost use Rattle.text_laws.specs.WrittenAmounts.{ChipsAreRead, HundredthsAreRead, WholeMoneyIsRead};

/// A law: an amount up to the greatest, written after the sign of a currency or none, is read as
/// itself, wherever it is: chips in plain digits, hundredths with a point and two digits, and money
/// without hundredths in plain digits. No digit may follow, and no point if the amount has none.
pub fn law_written_amounts_are_read()
    ensures chips { ChipsAreRead }
    ensures hundredths { HundredthsAreRead }
    ensures whole_money { WholeMoneyIsRead }
{}
