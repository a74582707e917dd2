//! The words of a line with ranges, part by part.

ghost use Rattle.std.specs.Prelude.{◌≡◌, ◌*◌, map, length, min, false, IfOk, IsTrue, MatchOption};
ghost use Rattle.std.specs.List.{list_all};
ghost use Rattle.spot_text.specs.Words.{words_left};
ghost use Rattle.spot_text.specs.Parts.{hand_words};
ghost use Rattle.range_lines.specs.Hands.{is_range, hands_of};
ghost use Rattle.range_lines.specs.RangeSpot.{IsBehindRanges, is_one_word, range_words};

use crate::spot::Range;
use crate::weights::{range_of, weigh};
use card_sets::CardSet;
use spot_text::{Words, ends_hands, is_dash};
use std::alloc::{AllocError, Global};

/// The words from the first mark after the ranges on, if each range is one word.
pub(crate) fn behind_ranges(words: Words) -> Option<Words>
    ensures { MatchOption result
        (list_all is_one_word (hand_words (words_left words.entry)) ≡ false)
        (λ others. IsBehindRanges (words_left words.entry) (words_left others)) }
{
    let mut others = words;
    let mut full = false;
    for word in words {
        if ends_hands(word) {
            return if full { Some(others) } else { None };
        }
        if is_dash(word) != full {
            return None;
        }
        full = !full;
        let _word = others.next();
    }
    if full { Some(others) } else { None }
}

/// Counts the ranges, up to five. Returns `None` if one of their words is no range. Each is weighed in the
/// borrowed table.
pub(crate) fn count_ranges(cells: &mut [u8], words: Words) -> Option<u8>
    requires room { length cells.old ≡ 52 * 52 }
    ensures room { length cells.new ≡ 52 * 52 }
    ensures value { MatchOption result
        (list_all is_range (range_words (words_left words.entry)) ≡ false)
        (λ count. IsTrue (list_all is_range (range_words (words_left words.entry)))
        × (count ≡ min 5 (length (range_words (words_left words.entry))))) }
{
    let mut count = 0u8;
    for word in words {
        if ends_hands(word) {
            return Some(count);
        }
        if is_dash(word) {
            continue;
        }
        if !weigh(cells, word) {
            return None;
        }
        count = (count + 1).min(5);
    }
    Some(count)
}

/// The ranges of the players, each weighed in the borrowed table.
pub(crate) fn ranges_of(
    alloc: Global,
    cells: &mut [u8],
    words: Words,
    board: CardSet,
    dead: CardSet,
) -> Result<Vec<Range>, AllocError>
    requires room { length cells.old ≡ 52 * 52 }
    requires ranges { IsTrue (list_all is_range (range_words (words_left words))) }
    ensures { IfOk result (λ ranges. ranges.items
        ≡ map (hands_of board dead) (range_words (words_left words.entry))) }
{
    let mut ranges = Vec::new(alloc);
    for word in words {
        if ends_hands(word) {
            return Ok(ranges);
        }
        if !is_dash(word) && weigh(cells, word) {
            ranges.push(range_of(alloc, cells, board, dead)?)?;
        }
    }
    Ok(ranges)
}
