//! The name at the beginning of a text.

ghost use Rattle.std.specs.Prelude.{◌≡◌, map, option_map};
ghost use Rattle.hand_events.specs.Seated.{pair};
ghost use Rattle.history_text.specs.NameFits.{seen};
ghost use Rattle.history_text.specs.Names.{fit, front_name, longer};

use crate::texts::behind;
use hand_events::{Names, Seated};

/// A name at the beginning of a text, with the text after it and its mark.
#[derive(Clone, Copy)]
pub(crate) struct NameFit<'a> {
    /// The seat of the name.
    pub(crate) seat: u8,
    /// The length of the name.
    pub(crate) length: usize,
    /// The text after the name and its mark.
    pub(crate) rest: &'a [u8],
}

/// Returns the name if the text begins with it and a mark follows.
fn fit<'a>(who: &Seated, text: &'a [u8], mark: &[u8]) -> Option<NameFit<'a>>
    ensures { option_map seen result ≡ fit mark.now text.now (pair who.now) }
{
    let rest = behind(behind(text, &who.name)?, mark)?;
    Some(NameFit {
        seat: who.seat,
        length: who.name.len(),
        rest,
    })
}

/// Returns the longer of two, or the first if they have the same length.
fn longer<'a>(a: Option<NameFit<'a>>, b: Option<NameFit<'a>>) -> Option<NameFit<'a>>
    ensures { option_map seen result ≡ longer (option_map seen a.entry) (option_map seen b.entry) }
{
    match (a, b) {
        (Some(first), Some(second)) if first.length < second.length => Some(second),
        (Some(first), _) => Some(first),
        (None, other) => other,
    }
}

/// Returns the longer of the name found so far and another name. Most other names don't begin the
/// text.
fn longer_with<'a>(
    best: Option<NameFit<'a>>,
    who: &Seated,
    text: &'a [u8],
    mark: &[u8],
) -> Option<NameFit<'a>>
    ensures { option_map seen result
        ≡ longer (option_map seen best.entry) (fit mark.now text.now (pair who.now)) }
{
    match fit(who, text, mark) {
        Some(found) => longer(best, Some(found)),
        None => best,
    }
}

/// Returns the longest of the names with which the text begins, with the mark after it.
#[tactic(auto, unfolding(crate::specs::Names::front_name))]
fn longest<'a>(seats: &[Seated], text: &'a [u8], mark: &[u8]) -> Option<NameFit<'a>>
    ensures { option_map seen result ≡ front_name mark.now text.now (map pair seats.now) }
{
    let mut best = None;
    for who in seats {
        best = longer_with(best, who, text, mark);
    }
    best
}

/// Returns the longest of the hand's names with which a text begins, with a mark after it.
pub(crate) fn front<'a>(names: &Names, text: &'a [u8], mark: &[u8]) -> Option<NameFit<'a>>
    ensures { option_map seen result ≡ front_name mark.now text.now names.now }
{
    longest(names.seats(), text, mark)
}
