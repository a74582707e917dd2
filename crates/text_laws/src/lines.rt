//! Laws of the lines of any bytes: the function is empty, and its clauses are the laws.

ghost use Rattle.text_laws.specs.PlainLines.{PlainTextsReadBack, TextsHoldNoNewline};

/// A law: no text of a line contains a newline. A text without a newline, without a mark at its
/// beginning, and without a blank at its end is read back from a line unchanged.
pub fn law_lines_read_back()
    ensures no_newline { TextsHoldNoNewline }
    ensures read_back { PlainTextsReadBack }
{}
