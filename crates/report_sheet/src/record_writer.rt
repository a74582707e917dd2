//! The writer of a sheet's records: a `csv` writer with its default setup, which ends each record with a newline.
//!
//! The type counts how many more words a record takes before its name. `end` fills these places with empty fields, so the name is
//! the thirteenth field of each record that has at most twelve words before it.

ghost use Rattle.std.specs.Prelude.{◌≡◌, ◌≤◌, [], ◌∷◌, ◌++◌, replicate, OnOk, OnErr};
ghost use Rattle.csv.specs.Writing.{default_writer, fields_written, writer_setup};
ghost use Rattle.report_sheet.specs.Sheets.{in_form, name_in, nothing_in, with_newline, with_words};
ghost use Rattle.report_sheet.specs.declared.form.Form.TheVariants.{Csv};

use csv::Writer;
use std::alloc::{AllocError, Global};
use std::marker::Model;

/// The number of words in a record before its name.
const WORDS: usize = 12;

/// Whole records, and the fields of the next record so far.
#[derive(Drop)]
pub(crate) struct RecordWriter {
    /// The writer of the fields. It has the whole records, and the fields of the next one.
    writer: Writer<Vec<u8>>,
    /// How many more words the next record takes before its name.
    left: usize,
}

impl Model for RecordWriter {
    ghost use Rattle.std.specs.Prelude.{◌≡◌, ◌-◌, ◌++◌, ◌==◌, not};
    ghost use Rattle.csv.specs.Writing.{default_writer, fields_written, writer_pending, writer_setup, writer_under};
    ghost use Rattle.report_sheet.specs.Progress.{Progress};

    ghost Value = { Progress };

    ghost view = { λ r. record {
      bytes = (writer_under r.writer).items ++ writer_pending r.writer;
      begun = not (fields_written r.writer == 0);
      left = r.left;
    } };

    ghost invariant = { λ r. (writer_setup r.writer ≡ default_writer)
        × (r.left ≡ 12 - fields_written r.writer) };
}

/// Replaces a writer that failed by a new one, because nothing is known of a writer after a failure.
#[cold]
#[inline(never)]
fn renew(writer: &mut Writer<Vec<u8>>)
    ensures setup { writer_setup writer.new ≡ default_writer }
    ensures fields { fields_written writer.new ≡ 0 }
{
    let alloc = *writer.get_ref().allocator();
    *writer = Writer::from_writer(Vec::new(alloc));
}

impl RecordWriter {
    /// Creates a writer of no record.
    pub(crate) fn new(alloc: Global) -> RecordWriter
        ensures { in_form Csv result ≡ nothing_in Csv }
    {
        RecordWriter {
            writer: Writer::from_writer(Vec::new(alloc)),
            left: WORDS,
        }
    }

    /// Writes a word as the next field of the record.
    #[tactic(auto, unfolding(crate::specs::Sheets::with_words))]
    pub(crate) fn word(&mut self, word: &[u8]) -> Result<(), AllocError>
        ensures { OnOk result (in_form Csv self.new
            ≡ with_words (in_form Csv self.old) (word.now ∷ [])) }
    {
        match self.writer.write_field(word) {
            Ok(()) => {
                self.left = self.left.saturating_sub(1);
                Ok(())
            }
            Err(_) => {
                renew(&mut self.writer);
                self.left = WORDS;
                Err(AllocError)
            }
        }
    }

    /// Writes empty fields up to the place of the name.
    fn pad(&mut self) -> Result<(), AllocError>
        ensures { OnOk result (in_form Csv self.new
            ≡ with_words (in_form Csv self.old) (replicate self.old.left [])) }
    {
        'padding: while self.left > 0 {
            self.word(b"")?;
        }
        Ok(())
    }

    /// Ends a record of two fields or more. The writer quotes a record of one empty field.
    fn newline(&mut self) -> Result<(), AllocError>
        requires { self.old.left ≤ 10 }
        ensures { OnOk result (in_form Csv self.new ≡ with_newline (in_form Csv self.old)) }
    {
        match self.writer.end_record() {
            Ok(()) => {
                self.left = WORDS;
                Ok(())
            }
            Err(_) => {
                renew(&mut self.writer);
                self.left = WORDS;
                Err(AllocError)
            }
        }
    }

    /// Ends the record with a name as its last field.
    pub(crate) fn end(&mut self, name: &[u8]) -> Result<(), AllocError>
        ensures { OnOk result (in_form Csv self.new ≡ name_in Csv (in_form Csv self.old) name.now) }
    {
        self.pad()?;
        self.word(name)?;
        self.newline()
    }

    /// Flushes the writer and appends its bytes to `out`. If memory is refused, `out` stays as it was.
    pub(crate) fn append_to(&mut self, out: &mut Vec<u8>) -> Result<(), AllocError>
        ensures block { OnOk result (out.new.items ≡ out.old.items ++ self.old.bytes) }
        ensures memory { OnErr result (out.new.items ≡ out.old.items) }
    {
        match self.writer.flush() {
            Ok(()) => out.extend_from_slice(self.writer.get_ref()),
            Err(_) => Err(AllocError),
        }
    }
}
