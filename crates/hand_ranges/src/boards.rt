//! The count of ranges a board at a time.

ghost use Rattle.std.specs.Prelude.{◌≡◌, ℕ, ◌+◌, ◌*◌, ◌<◌, ◌≤◌, ◌^◌, [], length, true, false};
ghost use Rattle.card_sets.specs.Disjoint.{apart};
ghost use Rattle.hand_ranges.specs.Boards.{AreEndsWithin, EndsGrow, board_adds, boards_add};
ghost use Rattle.range_lines.specs.Choices.{are_above, most_choices, runouts_of_choice};
ghost use Rattle.range_lines.specs.RangeSpot.{ranges_in};
ghost use Rattle.range_lines.specs.Sound.{IsSound};
ghost use Rattle.range_lines.specs.Walks.{IsAllOf};
ghost use Rattle.runout_ranges.specs.declared.limits.TheConstants.{RUNOUT_MAX};
ghost use Rattle.runout_ranges.specs.Ways.{binomial};

use crate::beside::ShownRange;
use crate::ends::Ends;
use crate::showdowns::add_shown;
use crate::taken::Taken;
use card_sets::CardSet;
use equity_job::RUNOUT_MAX;
use range_lines::{RangeSpot, RangeTally};
use showdown_tally::law_values_keep_order;

/// Adds the choices beside a full board: each hand of each range is valued once, and each choice of hands that share no card is compared by
/// itself.
fn add_board(spot: &RangeSpot, full: CardSet, room: &mut [ShownRange; 4], ends: &mut Ends)
    requires sound { IsSound (ranges_in spot.now) }
    requires five { length full ≡ 5 }

    // The counts have room.
    requires few { ends.old.choices + most_choices (ranges_in spot.now).ranges ≤ 2 ^ 80 }
    requires within { AreEndsWithin ends.old }

    // They grow by what the choices add of hands that have no card of the board.
    ensures grows { EndsGrow ends.old ends.new (board_adds (ranges_in spot.now).ranges full) }
    ensures within { AreEndsWithin ends.new }
    ensures few { ends.new.choices
        ≤ ends.old.choices + most_choices (ranges_in spot.now).ranges }
{
    let count = spot.ranges.len();
    for place in 0..count {
        room[place].fill(spot, &spot.ranges[place], full);
    }
    add_shown(&room[..count], full, &Taken::none(), ends);
}

/// Adds the choices beside each board that is filled with `missing` of the cards `rest`.
fn add_boards(
    spot: &RangeSpot,
    board: CardSet,
    missing: u32,
    rest: CardSet,
    room: &mut [ShownRange; 4],
    ends: &mut Ends,
)
    requires sound { IsSound (ranges_in spot.now) }

    // The board lacks `missing` cards, and none of its cards is in `rest`.
    requires five { length board + missing ≡ 5 }
    requires apart { apart rest board ≡ true }

    // The counts have room for the choices beside all boards.
    requires few { ends.old.choices
        + binomial (length rest) missing * most_choices (ranges_in spot.now).ranges ≤ 2 ^ 80 }
    requires within { AreEndsWithin ends.old }

    // They grow by what the choices add beside each board.
    ensures grows { EndsGrow ends.old ends.new
        (boards_add (ranges_in spot.now).ranges board missing rest) }
    ensures within { AreEndsWithin ends.new }
    ensures few { ends.new.choices ≤ ends.old.choices
        + binomial (length rest) missing * most_choices (ranges_in spot.now).ranges }
{
    board.rising();
    rest.rising();
    if missing == 0 {
        add_board(spot, board, room, ends);
        return;
    }
    let Some(card) = rest.first() else {
        return;
    };
    let others = rest.without(card);
    add_boards(spot, board.with(card), missing - 1, others, room, ends);
    add_boards(spot, board, missing, others, room, ends);
}

/// The counts of all choices of one hand from each range in which no card is in two hands, a board at a time.
pub(crate) fn count_by_boards(spot: &RangeSpot, runouts: u64) -> RangeTally
    requires sound { IsSound (ranges_in spot.now) }
    requires runouts { runouts ≡ runouts_of_choice (ranges_in spot.now) }
    requires within { are_above RUNOUT_MAX (ranges_in spot.now) ≡ false }
    ensures { IsAllOf (ranges_in spot.now) result }
{
    law_values_keep_order();
    spot.board.rising();
    let board = spot.board;
    let open = CardSet::deck().minus(board).minus(spot.dead);
    let _few = open.count();
    let mut ends = Ends::new();
    let mut room = [
        ShownRange::new(),
        ShownRange::new(),
        ShownRange::new(),
        ShownRange::new(),
    ];
    add_boards(spot, board, 5 - board.count(), open, &mut room, &mut ends);
    ends.tally(spot.ranges.len() as u8, runouts)
}
