//! A part of the report that is being written: lines of words, as text or as records, with the numbers of the report
//! and the lines of a spot's hands.
//!
//! A `Sheet` contains its whole lines and the words of the next line so far. `word`, `text`, and the calls for numbers append a
//! word. `end` ends the line, and `end_with` ends it with a name. Only these calls know the `Form`, so the code of each line serves
//! both forms. A number is rounded once.
//!
//! 1. *Text* (`text_lines`). The words are appended to a buffer, with one blank between them.
//! 2. *Records* (`records`, `record_writer`). Each word is a field of a `csv` writer over the sheet's own buffer. The writer puts the
//!    separators, the quotes, and the ends of records. Empty fields fill a record up to its thirteenth field, the name.
//!
//! Which lines there are and in what order is said in the crates above: of hands and spots in `hand_blocks`, of sums in
//! `player_totals`, of ranges in `range_lines`. If memory is refused, a sheet may contain a part of a line. `append_to` flushes the
//! writer and appends a whole sheet to the bytes of the report.
#![tactic(auto)]

mod form;
mod numbers;
mod record_writer;
mod records;
mod sheet;
mod spots;
mod text_lines;
mod words;

pub use form::Form;
pub use sheet::Sheet;
pub use words::side_word;
