//! The reading of a line with ranges.

ghost use Rattle.std.specs.Prelude.{◌≡◌, ◌≤◌, Ok, MatchResult};
ghost use Rattle.range_lines.specs.RangeSpot.{ranges_of, ranges_in, is_dealt_out, IsFaultOf};

use crate::RangeFault;
use crate::spot::RangeSpot;
use crate::walks::{behind_ranges, count_ranges, ranges_of};
use crate::weights::CELLS;
use card_sets::Game;
use spot_text::{Words, board_fits, collect, players_within};
use std::alloc::Global;

/// Whether fewer cards are left than the board lacks, once each of some players has a hand.
fn is_dealt_out(board: u32, dead: u32, count: u8) -> bool
    requires board { board ≤ 52 }
    requires dead { dead ≤ 52 }
    ensures { result ≡ is_dealt_out board dead count }
{
    let lacks = Game::Holdem.board_size().saturating_sub(board);
    board + dead + Game::Holdem.own_size() * u32::from(count) + lacks > 52
}

/// What a line says of a spot with ranges: the board, the dead cards, and the hands of each range
/// that meet neither.
/// A fault is the first that the line has, in the order of `RangeFault`, or `Memory`.
pub fn read_ranges(alloc: Global, line: &[u8]) -> Result<RangeSpot, RangeFault>
    ensures { MatchResult result
        (λ spot. ranges_of line.now ≡ Ok (ranges_in spot))
        (λ fault. IsFaultOf line.now fault) }
{
    let mut words = Words::of(line);
    let Some(word) = words.next() else {
        return Err(RangeFault::UnknownWord);
    };
    if word != Game::Holdem.word().as_bytes() {
        return Err(RangeFault::UnknownWord);
    }
    let Some(others) = behind_ranges(words) else {
        return Err(RangeFault::BadCard);
    };
    // The words after the ranges are those of a spot with one hand, which has no card.
    let Some(table) = collect(Game::Holdem, others) else {
        return Err(RangeFault::BadCard);
    };
    let mut cells = [0; CELLS];
    let Some(count) = count_ranges(&mut cells, words) else {
        return Err(RangeFault::BadRange);
    };
    if let Some(card) = table.twice {
        return Err(RangeFault::TwiceCard(card));
    }
    if !board_fits(Game::Holdem, table.board.count()) {
        return Err(RangeFault::BoardSize);
    }
    if !players_within(4, count) {
        return Err(RangeFault::PlayerCount);
    }
    if is_dealt_out(table.board.count(), table.dead.count(), count) {
        return Err(RangeFault::DeckShort);
    }
    let ranges = ranges_of(alloc, &mut cells, words, table.board, table.dead)?;
    Ok(RangeSpot {
        board: table.board,
        dead: table.dead,
        ranges,
    })
}
