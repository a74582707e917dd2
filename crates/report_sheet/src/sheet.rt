//! A part of the report that is being written, line by line and word by word, in one form. If memory is refused, a call may have
//! written a part of a line.

ghost use Rattle.std.specs.Prelude.{◌≡◌, [], ◌∷◌, ◌++◌, OnOk, OnErr};
ghost use Rattle.report_sheet.specs.Sheets.{nothing_in, with_end, with_name, with_words};

use crate::form::Form;
use crate::records::Records;
use crate::text_lines::TextLines;
use card_sets::Memory;
use std::alloc::{AllocError, Global};
use std::marker::Model;

/// Lines in one form.
#[derive(Drop)]
enum Lines {
    /// Words with blanks between them.
    Text(TextLines),
    /// Records of CSV.
    Csv(Records),
}

/// Whole lines of the report, and the words of the next line so far.
#[derive(Drop)]
pub struct Sheet {
    /// The lines, in the form of the report.
    lines: Lines,
}

impl Model for Sheet {
    ghost use Rattle.report_sheet.specs.Sheets.{Written};
    ghost use Rattle.report_sheet.specs.Seen.{seen_lines};

    ghost Value = { Written };

    ghost view = { λ s. seen_lines s.lines };
}

impl Sheet {
    /// Creates an empty sheet.
    pub fn new(alloc: Global, form: Form) -> Sheet
        ensures { result ≡ nothing_in form }
    {
        Sheet {
            lines: match form {
                Form::Text => Lines::Text(TextLines::new(alloc)),
                Form::Csv => Lines::Csv(Records::new(alloc)),
            },
        }
    }

    /// Ends the sheet: appends its bytes to `out`. If memory is refused, `out` stays as it was.
    pub fn append_to(&mut self, out: &mut Vec<u8>) -> Result<(), Memory>
        ensures block { OnOk result (out.new.items ≡ out.old.items ++ self.old.bytes) }
        ensures memory { OnErr result (out.new.items ≡ out.old.items) }
    {
        match &mut self.lines {
            Lines::Text(text) => text.append_to(out)?,
            Lines::Csv(records) => records.append_to(out)?,
        }
        Ok(())
    }

    /// Appends a word to the next line.
    pub fn word(&mut self, word: &[u8]) -> Result<(), AllocError>
        ensures { OnOk result (self.new ≡ with_words self.old (word.now ∷ [])) }
    {
        match &mut self.lines {
            Lines::Text(text) => text.word(word),
            Lines::Csv(records) => records.word(word),
        }
    }

    /// Ends the line. A record ends with an empty name.
    #[tactic(auto, unfolding(crate::specs::Sheets::with_end))]
    pub fn end(&mut self) -> Result<(), AllocError>
        ensures { OnOk result (self.new ≡ with_end self.old) }
    {
        match &mut self.lines {
            Lines::Text(text) => text.end(),
            Lines::Csv(records) => records.end(b""),
        }
    }

    /// Ends the line with a name as its last word.
    #[tactic(auto, unfolding(crate::specs::Sheets::with_name))]
    pub fn end_with(&mut self, name: &[u8]) -> Result<(), AllocError>
        ensures { OnOk result (self.new ≡ with_name self.old name.now) }
    {
        match &mut self.lines {
            Lines::Text(text) => text.end_with(name),
            Lines::Csv(records) => records.end(name),
        }
    }
}
