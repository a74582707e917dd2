//! Calls and their results, in tables.

mod bytes;
mod cards;
mod deals;
mod fractions;
mod high_hands;
mod histories;
mod low_hands;
mod pots;
mod runouts;
mod settling;
mod spot_lines;
mod steps;
mod streets;

/// Returns the text of a row, which a failed assert prints.
pub(crate) fn row_text(row: &'static [u8]) -> &'static str {
    match std::str::from_utf8(row) {
        Ok(text) => text,
        Err(_) => "a row that isn't UTF-8",
    }
}
