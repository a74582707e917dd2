//! The lines of a made hand. Each `write` appends to `out`. If memory is refused, it may have
//! appended a part.

ghost use Rattle.std.specs.Prelude.{◌≡◌, ◌≤◌, ◌++◌, OnOk};
ghost use Rattle.made_hands.specs.Deals.{IsWhole};
ghost use Rattle.made_hands.specs.Lines.{betting_text, blind_lines, board_lines, call_line, collected_line, collected_lines, ending_text, flop_lines, hand_text, return_line, seat_lines, shown_lines, summary_lines, title_lines};

use crate::deals::Deal;
use crate::pieces::{write_cards, write_number};
use std::alloc::AllocError;
use std::cmp::Ordering;

/// Writes the header line and the table line.
fn write_title(out: &mut Vec<u8>, number: u64) -> Result<(), AllocError>
    ensures { OnOk result (out.new.items ≡ out.old.items ++ title_lines number) }
{
    out.extend_from_slice(b"PokerStars Hand #")?;
    write_number(out, number)?;
    out.extend_from_slice(
        b": Hold'em No Limit ($0.50/$1.00 USD)\nTable 'Made' 2-max Seat #1 is the button\n",
    )
}

/// Writes the seats with their stacks.
fn write_seats(out: &mut Vec<u8>, deal: &Deal) -> Result<(), AllocError>
    ensures { OnOk result (out.new.items ≡ out.old.items ++ seat_lines deal.now) }
{
    out.extend_from_slice(b"Seat 1: A ($")?;
    write_number(out, deal.first_stack)?;
    out.extend_from_slice(b" in chips)\nSeat 2: B ($")?;
    write_number(out, deal.second_stack)?;
    out.extend_from_slice(b" in chips)\n")
}

/// Writes the blinds, and the acts before the flop.
#[tactic(auto, unfolding(crate::specs::Lines::blind_lines))]
fn write_blinds(out: &mut Vec<u8>) -> Result<(), AllocError>
    ensures { OnOk result (out.new.items ≡ out.old.items ++ blind_lines) }
{
    out.extend_from_slice(
        b"A: posts small blind $0.50\nB: posts big blind $1\n*** HOLE CARDS ***\nA: calls $0.50\nB: checks\n",
    )
}

/// Writes the flop, and B's bet of all remaining chips.
#[tactic(auto, unfolding(crate::specs::Lines::flop_lines))]
fn write_flop(out: &mut Vec<u8>, deal: &Deal) -> Result<(), AllocError>
    requires { IsWhole deal.now }
    ensures { OnOk result (out.new.items ≡ out.old.items ++ flop_lines deal.now) }
{
    out.extend_from_slice(b"*** FLOP *** ")?;
    write_cards(out, &deal.board[..3])?;
    out.extend_from_slice(b"\nB: bets $")?;
    write_number(out, deal.second_stack - 1)?;
    out.extend_from_slice(b" and is all-in\n")
}

/// Writes A's call, which puts A all-in if A has no more than B.
#[tactic(auto, unfolding(crate::specs::Lines::call_line))]
fn write_call(out: &mut Vec<u8>, deal: &Deal) -> Result<(), AllocError>
    requires { IsWhole deal.now }
    ensures { OnOk result (out.new.items ≡ out.old.items ++ call_line deal.now) }
{
    out.extend_from_slice(b"A: calls $")?;
    write_number(out, deal.stake() - 1)?;
    if deal.first_stack <= deal.second_stack {
        return out.extend_from_slice(b" and is all-in\n");
    }
    out.extend_from_slice(b"\n")
}

/// Writes the chips that B gets back if B has more than A.
#[tactic(auto, unfolding(crate::specs::Lines::return_line))]
fn write_return(out: &mut Vec<u8>, deal: &Deal) -> Result<(), AllocError>
    ensures { OnOk result (out.new.items ≡ out.old.items ++ return_line deal.now) }
{
    if deal.first_stack >= deal.second_stack {
        return Ok(());
    }
    out.extend_from_slice(b"Uncalled bet ($")?;
    write_number(out, deal.second_stack - deal.first_stack)?;
    out.extend_from_slice(b") returned to B\n")
}

/// Writes the turn and the river.
fn write_board(out: &mut Vec<u8>, deal: &Deal) -> Result<(), AllocError>
    ensures { OnOk result (out.new.items ≡ out.old.items ++ board_lines deal.now) }
{
    let board = &deal.board[..];
    out.extend_from_slice(b"*** TURN *** ")?;
    write_cards(out, &board[..3])?;
    out.extend_from_slice(b" ")?;
    write_cards(out, &board[3..4])?;
    out.extend_from_slice(b"\n*** RIVER *** ")?;
    write_cards(out, &board[..4])?;
    out.extend_from_slice(b" ")?;
    write_cards(out, &board[4..5])?;
    out.extend_from_slice(b"\n")
}

/// Writes the showdown.
#[tactic(auto, unfolding(crate::specs::Lines::shown_lines))]
fn write_shown(out: &mut Vec<u8>, deal: &Deal) -> Result<(), AllocError>
    ensures { OnOk result (out.new.items ≡ out.old.items ++ shown_lines deal.now) }
{
    out.extend_from_slice(b"*** SHOW DOWN ***\nB: shows ")?;
    write_cards(out, &deal.second)?;
    out.extend_from_slice(b"\nA: shows ")?;
    write_cards(out, &deal.first)?;
    out.extend_from_slice(b"\n")
}

/// Writes that a player collects some dollars.
#[tactic(auto, unfolding(crate::specs::Lines::collected_line))]
fn write_collected(out: &mut Vec<u8>, name: &[u8], dollars: u64) -> Result<(), AllocError>
    ensures { OnOk result (out.new.items ≡ out.old.items ++ collected_line name.now dollars) }
{
    out.extend_from_slice(name)?;
    out.extend_from_slice(b" collected $")?;
    write_number(out, dollars)?;
    out.extend_from_slice(b" from pot\n")
}

/// Writes the collections, by the order of the two hands.
#[tactic(auto, unfolding(crate::specs::Lines::collected_lines))]
fn write_payments(out: &mut Vec<u8>, compared: Ordering, stake: u64) -> Result<(), AllocError>
    requires { stake ≤ 200 }
    ensures { OnOk result (out.new.items ≡ out.old.items ++ collected_lines compared stake) }
{
    match compared {
        Ordering::Greater => write_collected(out, b"A", 2 * stake),
        Ordering::Less => write_collected(out, b"B", 2 * stake),
        Ordering::Equal => {
            write_collected(out, b"A", stake)?;
            write_collected(out, b"B", stake)
        }
    }
}

/// Writes the summary.
fn write_summary(out: &mut Vec<u8>, stake: u64) -> Result<(), AllocError>
    requires { stake ≤ 200 }
    ensures { OnOk result (out.new.items ≡ out.old.items ++ summary_lines stake) }
{
    out.extend_from_slice(b"*** SUMMARY ***\nTotal pot $")?;
    write_number(out, 2 * stake)?;
    out.extend_from_slice(b" | Rake $0\n")
}

/// Writes a hand up to the last bet.
#[tactic(auto, unfolding(crate::specs::Lines::betting_text))]
fn write_betting(out: &mut Vec<u8>, number: u64, deal: &Deal) -> Result<(), AllocError>
    requires { IsWhole deal.now }
    ensures { OnOk result (out.new.items ≡ out.old.items ++ betting_text number deal.now) }
{
    write_title(out, number)?;
    write_seats(out, deal)?;
    write_blinds(out)?;
    write_flop(out, deal)?;
    write_call(out, deal)?;
    write_return(out, deal)
}

/// Writes a hand from the turn on.
#[tactic(auto, unfolding(crate::specs::Lines::ending_text))]
fn write_ending(out: &mut Vec<u8>, deal: &Deal) -> Result<(), AllocError>
    requires { IsWhole deal.now }
    ensures { OnOk result (out.new.items ≡ out.old.items ++ ending_text deal.now) }
{
    write_board(out, deal)?;
    write_shown(out, deal)?;
    write_payments(out, deal.compare(), deal.stake())?;
    write_summary(out, deal.stake())
}

/// Writes a hand with its number.
#[tactic(auto, unfolding(crate::specs::Lines::hand_text))]
pub(crate) fn write_hand(out: &mut Vec<u8>, number: u64, deal: &Deal) -> Result<(), AllocError>
    requires { IsWhole deal.now }
    ensures { OnOk result (out.new.items ≡ out.old.items ++ hand_text number deal.now) }
{
    write_betting(out, number, deal)?;
    write_ending(out, deal)
}
