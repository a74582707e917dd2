//! Lines of the report as text: words with one blank between them.

ghost use Rattle.std.specs.Prelude.{◌≡◌, [], ◌∷◌, ◌++◌, OnOk, OnErr};
ghost use Rattle.report_sheet.specs.Sheets.{in_form, name_in, nothing_in, with_newline, with_words};
ghost use Rattle.report_sheet.specs.declared.form.Form.TheVariants.{Text};

use std::alloc::{AllocError, Global};
use std::marker::Model;

/// The number of words in a record before its name. Clauses count them for text too.
const WORDS: usize = 12;

/// Whole lines, and the words of the next line so far.
#[derive(Drop)]
pub(crate) struct TextLines {
    /// Bytes of the lines, and of the words of the next line.
    bytes: Vec<u8>,
    /// Whether the next line has a word.
    begun: bool,
    /// How many more words a record would take before its name.
    left: usize,
}

impl Model for TextLines {
    ghost use Rattle.report_sheet.specs.Progress.{Progress};

    ghost Value = { Progress };

    ghost view = { λ t. record { bytes = t.bytes.items; begun = t.begun; left = t.left } };
}

impl TextLines {
    /// Creates an empty text.
    pub(crate) fn new(alloc: Global) -> TextLines
        ensures { in_form Text result ≡ nothing_in Text }
    {
        TextLines {
            bytes: Vec::new(alloc),
            begun: false,
            left: WORDS,
        }
    }

    /// Appends a word to the next line.
    #[tactic(auto, unfolding(crate::specs::Sheets::with_words))]
    pub(crate) fn word(&mut self, word: &[u8]) -> Result<(), AllocError>
        ensures { OnOk result (in_form Text self.new
            ≡ with_words (in_form Text self.old) (word.now ∷ [])) }
    {
        if self.begun {
            self.bytes.push(b' ')?;
        }
        self.bytes.extend_from_slice(word)?;
        self.begun = true;
        self.left = self.left.saturating_sub(1);
        Ok(())
    }

    /// Ends the line with a newline.
    pub(crate) fn end(&mut self) -> Result<(), AllocError>
        ensures { OnOk result (in_form Text self.new ≡ with_newline (in_form Text self.old)) }
    {
        self.bytes.push(b'\n')?;
        self.begun = false;
        self.left = WORDS;
        Ok(())
    }

    /// Ends the line with a name as its last word.
    pub(crate) fn end_with(&mut self, name: &[u8]) -> Result<(), AllocError>
        ensures { OnOk result (in_form Text self.new
            ≡ name_in Text (in_form Text self.old) name.now) }
    {
        self.word(name)?;
        self.end()
    }

    /// Appends the bytes to `out`. If memory is refused, `out` stays as it was.
    pub(crate) fn append_to(&self, out: &mut Vec<u8>) -> Result<(), AllocError>
        ensures block { OnOk result (out.new.items ≡ out.old.items ++ self.now.bytes) }
        ensures memory { OnErr result (out.new.items ≡ out.old.items) }
    {
        out.extend_from_slice(&self.bytes)
    }
}
