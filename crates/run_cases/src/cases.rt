//! Files of cases: runs with their expected results.
//!
//! ```text
//! # a remark; blank lines and remarks are allowed anywhere between
//! case aces against kings on the turn
//! words spots
//! status 0
//! input
//! |holdem As Ah - Ks Kh -- 2c 7d 9h 4s
//! report
//! |spot 1 holdem runouts 44
//! ..
//! ```
//!
//! `case` begins a case, and gives its name. `words` has the words of the command, with blanks between
//! them. After `input` and `report`, each line that begins with `|` is a line of the text, without that
//! mark. A line that begins with `:` is a last line without a newline. A text that isn't given is empty,
//! and the status is 0 if it isn't given.

ghost use Rattle.std.specs.Prelude.{◌≡◌, ◌++◌, ◌∷◌, [], if◌then◌else◌, OnOk};

use std::alloc::{AllocError, Global};

/// A run, and its expected result.
#[derive(Drop)]
pub(crate) struct Case {
    /// What the case shows.
    pub(crate) name: String,
    /// The words of the command.
    pub(crate) words: Vec<String>,
    /// The expected status.
    pub(crate) status: u8,
    /// The bytes of the source.
    pub(crate) input: Vec<u8>,
    /// The expected bytes of the report.
    pub(crate) report: Vec<u8>,
}

/// Why the cases of a file can't be read.
#[derive(Drop)]
pub(crate) enum CaseFault {
    /// This line, from 1, has none of the forms above, or is before the first case.
    Line(usize),
    /// Memory was refused.
    Memory,
}

impl From<AllocError> for CaseFault {
    fn from(_error: AllocError) -> CaseFault {
        CaseFault::Memory
    }
}

/// The text of a case that is being read.
#[derive(Clone, Copy)]
enum Section {
    Head,
    Input,
    Report,
}

/// A line of a file.
#[derive(Clone, Copy)]
enum Line<'a> {
    /// Nothing, or a remark.
    Blank,
    /// The beginning of a case with this name.
    Case(&'a str),
    /// The words of the command, with blanks between.
    Words(&'a str),
    /// The status.
    Status(u8),
    /// The beginning of a text.
    Section(Section),
    /// A line of a text, and whether the line ends there.
    Text(&'a str, bool),
}

/// Returns what a line is, if it has a form.
fn line_of<'a>(line: &'a str) -> Option<Line<'a>> {
    if line.is_empty() || line.starts_with("#") {
        return Some(Line::Blank);
    }
    if let Some(text) = line.strip_prefix("|") {
        return Some(Line::Text(text, true));
    }
    if let Some(text) = line.strip_prefix(":") {
        return Some(Line::Text(text, false));
    }
    if let Some(name) = line.strip_prefix("case ") {
        return Some(Line::Case(name));
    }
    if let Some(number) = line.strip_prefix("status ") {
        return match number.parse::<u8>() {
            Ok(status) => Some(Line::Status(status)),
            Err(_) => None,
        };
    }
    if let Some(words) = line.strip_prefix("words") {
        return Some(Line::Words(words));
    }
    match line {
        "input" => Some(Line::Section(Section::Input)),
        "report" => Some(Line::Section(Section::Report)),
        _ => None,
    }
}

/// Appends a line of a text, with its newline if it has one.
fn put_line(out: &mut Vec<u8>, text: &[u8], ends: bool) -> Result<(), AllocError>
    ensures { OnOk result (out.new.items
        ≡ out.old.items ++ (text.now ++ (if ends then 10 ∷ [] else []))) }
{
    out.extend_from_slice(text)?;
    if ends {
        out.push(b'\n')?;
    }
    Ok(())
}

impl Case {
    /// Returns a case with this name and nothing else.
    fn named(alloc: Global, name: &str) -> Result<Case, AllocError> {
        Ok(Case {
            name: String::from_str(alloc, name)?,
            words: Vec::new(alloc),
            status: 0,
            input: Vec::new(alloc),
            report: Vec::new(alloc),
        })
    }

    /// Takes the words of the command.
    fn take_words(&mut self, alloc: Global, words: &str) -> Result<(), AllocError> {
        for word in words.split_whitespace() {
            self.words.push(String::from_str(alloc, word)?)?;
        }
        Ok(())
    }

    /// Takes a line of a text. Returns whether a text was begun.
    fn take_text(&mut self, section: Section, text: &str, ends: bool) -> Result<bool, AllocError> {
        match section {
            Section::Head => return Ok(false),
            Section::Input => put_line(&mut self.input, text.as_bytes(), ends)?,
            Section::Report => put_line(&mut self.report, text.as_bytes(), ends)?,
        }
        Ok(true)
    }
}

/// Returns the cases of a file, in their order.
pub(crate) fn read_cases(alloc: Global, text: &str) -> Result<Vec<Case>, CaseFault> {
    let mut cases: Vec<Case> = Vec::new(alloc);
    let mut section = Section::Head;
    let mut number = 0usize;
    for line in text.split('\n') {
        number = number.saturating_add(1);
        let Some(line) = line_of(line) else {
            return Err(CaseFault::Line(number));
        };
        if let Line::Blank = line {
            continue;
        }
        if let Line::Case(name) = line {
            let case = Case::named(alloc, name)?;
            if cases.push(case).is_err() {
                return Err(CaseFault::Memory);
            }
            section = Section::Head;
            continue;
        }
        let Some(case) = cases.last_mut() else {
            return Err(CaseFault::Line(number));
        };
        match line {
            Line::Words(words) => case.take_words(alloc, words)?,
            Line::Status(status) => case.status = status,
            Line::Section(begun) => section = begun,
            Line::Text(text, ends) => {
                if !case.take_text(section, text, ends)? {
                    return Err(CaseFault::Line(number));
                }
            }
            _ => {}
        }
    }
    Ok(cases)
}
