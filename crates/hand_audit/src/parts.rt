//! What the winners of each side of each part of a pot get.

ghost use Rattle.std.specs.Prelude.{◌≡◌, ℕ, ◌+◌, ◌≤◌, ◌++◌, ◌∷◌, ◌&&◌, [], List, map, length, sum, IfOk, OnOk};
ghost use Rattle.card_sets.specs.PlayerSets.{seats_in};
ghost use Rattle.pot_layers.specs.Split.{IsOrder, given_in_all, high_half, low_half};
ghost use Rattle.hand_audit.specs.Parts.{part_share, side_parts, shares_on, shares_on_boards, is_contested, part_shares_if, units_in_all};
ghost use Rattle.hand_audit.specs.Settle.{Showing, parts_of, first_side, second_side};
ghost use Rattle.hand_audit.specs.Winning.{Tells, Decides, HasBothMarks, IsReady, IsDecided};

use crate::standings::Standings;
use crate::worths::{OnBoard, first_side, second_side};
use card_sets::{Memory, PlayerSet, Side};
use hand_verdict::{PartShare, PartShares};
use pot_layers::{OddOrder, Share, SideWinners, halves, split};
use std::alloc::{AllocError, Global};

/// Appends an item, whatever its type. The prover refuses the push of some structs.
fn push_item<T: Copy>(items: &mut Vec<T>, item: T) -> Result<(), AllocError>
    ensures { OnOk result (items.new.items ≡ items.old.items ++ item ∷ []) }
{
    items.push(item)?;
    Ok(())
}

/// Returns the share of a winner of a side whose winners get `each` units, and some of them an odd unit more.
fn part_share(board: u8, side: Side, each: u64, share: Share) -> PartShare
    ensures { result ≡ part_share board side each share }
{
    PartShare {
        board,
        side,
        seat: share.seat,
        units: share.units,
        odd: each < share.units,
    }
}

/// Appends the shares of a side.
fn add_shares(
    all: &mut Vec<PartShare>,
    board: u8,
    side: Side,
    each: u64,
    shares: &[Share],
) -> Result<(), AllocError>
    ensures { OnOk result (all.new.items
        ≡ all.old.items ++ map (part_share board side each) shares.now) }
{
    match shares {
        [] => Ok(()),
        [share, others @ ..] => {
            push_item(all, part_share(board, side, each, *share))?;
            add_shares(all, board, side, each, others)
        }
    }
}

/// Appends the shares of the winners of a side, who share its units.
fn add_side(
    all: &mut Vec<PartShare>,
    board: u8,
    side: Option<Side>,
    winners: PlayerSet,
    order: &OddOrder,
    units: u64,
) -> Result<(), Memory>
    requires { IsOrder winners order.now }
    ensures parts { OnOk result (all.new.items
        ≡ all.old.items ++ side_parts board side winners order.now units) }
    ensures few { OnOk result (units_in_all all.new.items ≤ units_in_all all.old.items + units) }
{
    let Some(side) = side else {
        return Ok(());
    };
    if winners.bits() == 0 {
        return Ok(());
    }
    let only = SideWinners {
        high: winners.bits(),
        low: 0,
    };
    let each = units / order.as_slice().len() as u64;
    let alloc = *all.allocator();
    let shares = split(alloc, units, only, order, &OddOrder::none())?;
    add_shares(all, board, side, each, shares.items())?;
    Ok(())
}

/// Returns what the two sides of a part get. The first gets all units if nobody wins the second.
fn side_units(units: u64, second: PlayerSet) -> [u64; 2]
    ensures halves { result ≡ high_half units second ∷ low_half units second ∷ [] }
    ensures few { sum result ≤ units }
{
    if second.bits() == 0 {
        return [units, 0];
    }
    halves(units)
}

/// Appends the shares of a part that goes by a board.
fn add_part(
    all: &mut Vec<PartShare>,
    standings: &Standings,
    on: &OnBoard,
    board: u8,
    eligible: PlayerSet,
    units: u64,
) -> Result<(), Memory>
    requires ready { IsReady standings.now }
    requires marks { HasBothMarks on.now }
    ensures parts { OnOk result ((s : Showing) (cards : List ℕ) → Tells standings.now s
        → Decides on.now s cards eligible → 2 ≤ length (seats_in eligible)
        → all.new.items
        ≡ all.old.items ++ shares_on s eligible board (record { units = units; board = cards })) }
    ensures few { OnOk result (units_in_all all.new.items ≤ units_in_all all.old.items + units) }
{
    let first = on.first.winners(eligible);
    let second = on.second.winners(eligible);
    let first_order = standings.order(&on.first, first);
    let second_order = standings.order(&on.second, second);
    let [high, low] = side_units(units, second);
    let game = standings.game;
    add_side(all, board, first_side(game), first, &first_order, high)?;
    add_side(all, board, second_side(game), second, &second_order, low)?;
    Ok(())
}

/// Appends the shares of all parts of a pot's units.
fn add_parts(
    all: &mut Vec<PartShare>,
    standings: &Standings,
    eligible: PlayerSet,
    units: u64,
) -> Result<(), Memory>
    requires { IsReady standings.now }
    ensures parts { OnOk result ((s : Showing) → Tells standings.now s → IsDecided s eligible
        → 2 ≤ length (seats_in eligible)
        → all.new.items ≡ all.old.items ++ shares_on_boards s eligible 1 (parts_of s units)) }
    ensures few { OnOk result (units_in_all all.new.items ≤ units_in_all all.old.items + units) }
{
    match &standings.second {
        None => add_part(all, standings, &standings.board, 1, eligible, units),
        Some(second) => {
            let [rounded_up, rounded_down] = halves(units);
            add_part(all, standings, &standings.board, 1, eligible, rounded_up)?;
            add_part(all, standings, second, 2, eligible, rounded_down)?;
            Ok(())
        }
    }
}

/// Returns whether two players or more may win a pot.
fn is_contested(eligible: PlayerSet) -> bool
    ensures { result ≡ is_contested eligible }
{
    1 < eligible.seats().count()
}

/// Returns the shares of the parts of a pot's units. There are none if its winners aren't known, or if only one player may win it.
pub(crate) fn part_shares(
    alloc: Global,
    standings: &Standings,
    checked: bool,
    eligible: PlayerSet,
    units: u64,
) -> Result<PartShares, Memory>
    requires { IsReady standings.now }
    ensures parts { IfOk result (λ parts. (s : Showing) → Tells standings.now s
        → IsDecided s eligible
        → parts ≡ part_shares_if (checked && is_contested eligible) s eligible units) }
    ensures few { IfOk result (λ parts. units_in_all parts ≤ units) }
{
    let mut parts = Vec::new(alloc);
    if !checked || !is_contested(eligible) {
        return Ok(PartShares::of(parts));
    }
    add_parts(&mut parts, standings, eligible, units)?;
    Ok(PartShares::of(parts))
}
