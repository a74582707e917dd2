//! Lines of the report as records of CSV.
//!
//! A writer contains a buffer of 8 kB. By value, each function that has a sheet would clear this buffer at entry, even for text.
//! So the writer is on the heap, and a sheet makes it at the first word. A sheet of text has no writer.

ghost use Rattle.std.specs.Prelude.{◌≡◌, ◌<◌, [], ◌∷◌, ◌++◌, length, OnOk, OnErr};
ghost use Rattle.report_sheet.specs.Progress.{first_of, nothing_yet};
ghost use Rattle.report_sheet.specs.Sheets.{in_form, name_in, with_words};
ghost use Rattle.report_sheet.specs.declared.form.Form.TheVariants.{Csv};

use crate::record_writer::RecordWriter;
use std::alloc::{AllocError, Global};
use std::marker::Model;

/// Whole records, and the fields of the next record so far.
#[derive(Drop)]
pub(crate) struct Records {
    /// The writer, or none before the first word.
    writers: Vec<RecordWriter>,
}

impl Model for Records {
    ghost use Rattle.report_sheet.specs.Progress.{Progress, first_of};

    ghost Value = { Progress };

    ghost view = { λ r. first_of r.writers.items };
}

/// Makes the writer, in a frame of its own because its buffer goes through the stack.
#[cold]
#[inline(never)]
fn make_writer(writers: &mut Vec<RecordWriter>) -> Result<(), AllocError>
    requires { writers.old.items ≡ [] }
    ensures nothing { OnOk result (first_of writers.new.items ≡ nothing_yet) }
    ensures there { OnOk result (0 < length writers.new.items) }
{
    writers.reserve_exact(1)?;
    writers.push_reserved(RecordWriter::new(*writers.allocator()));
    Ok(())
}

/// Makes the writer if there is none.
#[inline]
fn ensure_writer(writers: &mut Vec<RecordWriter>) -> Result<(), AllocError>
    ensures same { OnOk result (first_of writers.new.items ≡ first_of writers.old.items) }
    ensures there { OnOk result (0 < length writers.new.items) }
{
    if writers.is_empty() {
        return make_writer(writers);
    }
    Ok(())
}

impl Records {
    /// Creates an empty list of records, without a writer.
    pub(crate) fn new(alloc: Global) -> Records
        ensures { result ≡ nothing_yet }
    {
        Records {
            writers: Vec::new(alloc),
        }
    }

    /// Writes a word as the next field of the record.
    pub(crate) fn word(&mut self, word: &[u8]) -> Result<(), AllocError>
        ensures { OnOk result (in_form Csv self.new
            ≡ with_words (in_form Csv self.old) (word.now ∷ [])) }
    {
        ensure_writer(&mut self.writers)?;
        match self.writers.first_mut() {
            Some(writer) => writer.word(word),
            None => Err(AllocError),
        }
    }

    /// Ends the record with a name as its last field.
    pub(crate) fn end(&mut self, name: &[u8]) -> Result<(), AllocError>
        ensures { OnOk result (in_form Csv self.new ≡ name_in Csv (in_form Csv self.old) name.now) }
    {
        ensure_writer(&mut self.writers)?;
        match self.writers.first_mut() {
            Some(writer) => writer.end(name),
            None => Err(AllocError),
        }
    }

    /// Appends the bytes of the records to `out`. If memory is refused, `out` stays as it was.
    pub(crate) fn append_to(&mut self, out: &mut Vec<u8>) -> Result<(), AllocError>
        ensures block { OnOk result (out.new.items ≡ out.old.items ++ self.old.bytes) }
        ensures memory { OnErr result (out.new.items ≡ out.old.items) }
    {
        match self.writers.first_mut() {
            Some(writer) => writer.append_to(out),
            None => Ok(()),
        }
    }
}
