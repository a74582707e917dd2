//! The words of a command line, and the command that they ask for: what the run reads and reports, with
//! how many workers, and in which form.
//!
//! `read_words` has `clap` parse the words and makes a `Command` of the result, or returns that the words
//! have no valid form. The definition `command` says which words ask for which command, without regard to
//! `clap`. It is proved here that the parser agrees with it word by word. No crate above knows that there
//! is a parser.
//!
//! The crate reads no input, counts nothing, and writes nothing. Of reports it knows the names of their
//! forms.
#![tactic(auto)]

mod command;
mod words;

pub use command::{Command, Mode};
pub use words::{WordFault, read_words};
