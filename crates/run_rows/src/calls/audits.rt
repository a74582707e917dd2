//! Whole hands as a site writes them.

ghost use Rattle.std.specs.Prelude.{◌≡◌, Some, length};
ghost use Rattle.line_text.specs.Lines.{lines};
ghost use Rattle.hand_audit.specs.Departs.{begins_hand};
ghost use Rattle.hand_audit.specs.Streets.{has_known_all_in};

use card_sets::{Card, CardSet, Known};
use hand_audit::*;
use history_text::{Street, is_header};
use line_text::next_line;
use std::alloc::Global;
use std::test::Fail;

/// A hand of four whose stacks make three pots, with one more player who sits out. Only the summary shows
/// the winner of the last pot.
const THREE_POTS: &[u8] =
    b"PokerStars Hand #1: Tournament #5, $1+$0.10 USD Hold'em No Limit - Level I (10/20)
Table 'x' 6-max Seat #4 is the button
Seat 1: ann (100 in chips)
Seat 2: bob (300 in chips)
Seat 3: cat (600 in chips)
Seat 4: dan (1000 in chips)
Seat 5: eve (500 in chips) is sitting out
eve: is sitting out
ann: posts small blind 10
bob: posts big blind 20
*** HOLE CARDS ***
cat: raises 580 to 600 and is all-in
dan: calls 600
ann: calls 90 and is all-in
bob: calls 280 and is all-in
eve: sits out
*** FLOP *** [2c 7d 9h]
*** TURN *** [2c 7d 9h] [Js]
*** RIVER *** [2c 7d 9h Js] [3c]
*** SHOW DOWN ***
dan: shows [Td Th]
cat: doesn't show hand
cat collected 600 from side pot-2
bob: shows [Kd Kh]
bob collected 600 from side pot-1
ann: shows [Ad Ah]
ann collected 400 from main pot
*** SUMMARY ***
Total pot 1600 Main pot 400. Side pot-1 600. Side pot-2 600. | Rake 0
Seat 3: cat mucked [Qd Qh]
";

/// A hand in which bob and cat are all-in on the flop, and cat folds after it. Ann's cards are known, and
/// she folds before the flop.
pub(crate) const FOLDED_BEHIND: &[u8] =
    b"PokerStars Hand #4: Tournament #5, $1+$0.10 USD Hold'em No Limit - Level I (10/20)
Table 'x' 3-max Seat #1 is the button
Seat 1: ann (1000 in chips)
Seat 2: bob (300 in chips)
Seat 3: cat (500 in chips)
bob: posts small blind 10
cat: posts big blind 20
*** HOLE CARDS ***
Dealt to ann [2c 2d]
ann: folds
bob: calls 10
cat: checks
*** FLOP *** [Kd 7h 3s]
bob: bets 280 and is all-in
cat: calls 280
*** TURN *** [Kd 7h 3s] [9c]
cat: folds [7c 7d]
bob collected 600 from pot
bob: shows [Ks Qs]
*** SUMMARY ***
Total pot 600 | Rake 0
";

fn count_lines(bytes: &[u8]) -> usize
    ensures { result ≡ length (lines bytes.now) }
{
    let mut at = 0;
    let mut count = 0usize;
    'lines: while let Some(line) = next_line(bytes, at) {
        count += 1;
        at = line.next;
    }
    count
}

/// Returns whether a text begins with a header line.
fn is_hand(bytes: &[u8]) -> bool
    ensures { result ≡ begins_hand (lines bytes.now) }
{
    match next_line(bytes, 0) {
        Some(head) => is_header(&bytes[head.first..head.end]),
        None => false,
    }
}

pub(crate) fn audit(alloc: Global, bytes: &[u8]) -> Option<HandAudit> {
    if !is_hand(bytes) || count_lines(bytes) > 99 {
        return None;
    }
    match audit_hand(alloc, bytes, 1) {
        Ok(audit) => Some(audit),
        Err(_) => None,
    }
}

fn settlement(alloc: Global, bytes: &[u8]) -> Option<Settlement> {
    let audit = audit(alloc, bytes)?;
    match audit {
        HandAudit::Accepted { settlement, .. } => Some(settlement),
        HandAudit::Rejected { .. } => None,
    }
}

/// Returns whether only this seat is paid, and received all that is due to it: `gross` units.
fn is_all_paid_to(paid: &[Payment], winner: u8, gross: u64) -> bool {
    match paid {
        [only] => only.seat == winner && only.got == gross && only.due == gross,
        _ => false,
    }
}

/// Returns whether a pot has these units and these seats, its winners are known, and one seat receives all
/// of it.
fn is_pot(settlement: &Settlement, number: usize, gross: u64, eligible: u16, winner: u8) -> bool {
    match settlement.pots.items().get(number) {
        Some(pot) => {
            pot.gross == gross
                && pot.rake == 0
                && pot.eligible == eligible
                && pot.checked
                && is_all_paid_to(pot.paid.items(), winner, gross)
        }
        None => false,
    }
}

/// Returns whether a settlement has these three pots.
fn has_three_pots(settlement: &Option<Settlement>) -> bool {
    match settlement {
        Some(settlement) => {
            settlement.fits
                && !settlement.hundredths
                && settlement.pots.items().len() == 3
                && is_pot(settlement, 0, 400, 0b11110, 1)
                && is_pot(settlement, 1, 600, 0b11100, 2)
                && is_pot(settlement, 2, 600, 0b11000, 3)
        }
        None => false,
    }
}

#[test]
fn three_pots_are_collected_by_their_names(rt: HostRuntime) {
    assert!(rt;
        has_three_pots(&settlement(rt.alloc(), THREE_POTS)),
        "pots of 400, 600, and 600, each paid to its winner"
    );
}

/// Returns the known cards of a hand's all-in if it is on this street with these seats, and one pot has
/// these seats.
fn known_at(audit: &HandAudit, at: Street, of: [u8; 10], eligible: [u16; 10]) -> Option<Known> {
    match audit {
        HandAudit::Accepted {
            all_in: AllIn::Known {
                street,
                seats,
                table,
            },
            ..
        } => {
            if *street == at && *seats == of && table.pots == 1 && table.eligible == eligible {
                Some(table.known)
            } else {
                None
            }
        }
        _ => None,
    }
}

/// Returns whether a set has exactly these two cards.
fn is_pair(cards: CardSet, first: [u8; 2], second: [u8; 2]) -> bool {
    match (Card::read(first), Card::read(second)) {
        (Some(first), Some(second)) => {
            cards.has(first) && cards.has(second) && cards.count() == 2
        }
        _ => false,
    }
}

/// Returns whether these are the hands of bob and cat with three cards on the board, with ann's cards
/// dead.
fn is_folded_behind(known: &Known) -> bool {
    known.count == 2
        && known.board.count() == 3
        && is_pair(known.hands[0], *b"Ks", *b"Qs")
        && is_pair(known.hands[1], *b"7c", *b"7d")
        && is_pair(known.dead, *b"2c", *b"2d")
}

/// Returns whether a hand has these known cards on its flop, and only bob may win the pot.
fn is_won_alone(audit: &Option<HandAudit>) -> bool {
    let seats = [2, 3, 0, 0, 0, 0, 0, 0, 0, 0];
    let eligible = [0b1, 0, 0, 0, 0, 0, 0, 0, 0, 0];
    let Some(audit) = audit else {
        return false;
    };
    match known_at(audit, Street::Flop, seats, eligible) {
        Some(known) => is_folded_behind(&known),
        None => false,
    }
}

#[test]
fn who_folds_behind_the_point_wins_no_pot(rt: HostRuntime) {
    assert!(rt;
        is_won_alone(&audit(rt.alloc(), FOLDED_BEHIND)),
        "the cards are known on the flop, and only Bob may win the pot"
    );
}

/// Returns whether the all-in of a hand is known.
fn has_known_all_in(audit: &HandAudit) -> bool
    ensures { result ≡ has_known_all_in (Some audit.now) }
{
    match audit {
        HandAudit::Accepted {
            all_in: AllIn::Known { .. },
            ..
        } => true,
        _ => false,
    }
}

/// Returns the later streets of a hand, or `None` if it has no known all-in.
fn streets_after(alloc: Global, bytes: &[u8]) -> Option<Vec<StreetState>> {
    if !is_hand(bytes) || count_lines(bytes) > 99 {
        return None;
    }
    let Ok(audit) = audit_hand(alloc, bytes, 1) else {
        return None;
    };
    if !has_known_all_in(&audit) {
        return None;
    }
    match later_streets(alloc, bytes, 1) {
        Ok(streets) => Some(streets),
        Err(_) => None,
    }
}

/// Returns whether the only later street is the turn, with its card on the board and the hands of bob and cat.
fn is_turn_alone(streets: &Option<Vec<StreetState>>) -> bool {
    let Some(streets) = streets else {
        return false;
    };
    match streets.as_slice() {
        [only] => match &only.table {
            Some(table) => {
                only.street == Street::Turn
                    && table.pots == 1
                    && table.known.count == 2
                    && table.known.board.count() == 4
                    && is_pair(table.known.hands[0], *b"Ks", *b"Qs")
                    && is_pair(table.known.hands[1], *b"7c", *b"7d")
            }
            None => false,
        },
        _ => false,
    }
}

#[test]
fn the_turn_is_known_after_an_all_in_on_the_flop(rt: HostRuntime) {
    assert!(rt;
        is_turn_alone(&streets_after(rt.alloc(), FOLDED_BEHIND)),
        "the turn is the only later street, and its cards are known"
    );
}

/// A hand with antes, blinds, and dead chips, in which ann gets her raise back.
pub(crate) const RETURNED: &[u8] =
    b"PokerStars Hand #6: Tournament #5, $1+$0.10 USD Hold'em No Limit - Level I (10/20)
Table 'x' 6-max Seat #1 is the button
Seat 1: ann (1000 in chips)
Seat 2: bob (300 in chips)
Seat 3: cat (500 in chips)
Seat 4: dan (80 in chips)
Seat 6: eve (700 in chips) is sitting out
ann: posts the ante 5
bob: posts the ante 5
cat: posts the ante 5
dan: posts the ante 5
bob: posts small blind 10
cat: posts big blind 20
dan: posts small & big blinds 30
*** HOLE CARDS ***
dan: checks
ann: raises 100 to 120
bob: folds
cat: folds
dan: folds
Uncalled bet (100) returned to ann
ann collected 100 from pot
*** SUMMARY ***
Total pot 100 | Rake 0
";

/// The chips that each seat had and put in, by its number.
const CHIPS: [[u64; 2]; 7] = [
    [0, 0],
    [1000, 25],
    [300, 15],
    [500, 25],
    [80, 35],
    [0, 0],
    [700, 0],
];

/// Returns the verdict on a hand and the chips of its seats.
fn audit_chips(alloc: Global, bytes: &[u8]) -> Option<AuditedChips> {
    if !is_hand(bytes) {
        return None;
    }
    let Ok(hand) = read_hand(alloc, bytes) else {
        return None;
    };
    if hand.lines > 99 {
        return None;
    }
    let chips = hand.chips();
    let audit = hand.into_verdict(1).audit;
    Some(AuditedChips { audit, chips })
}

/// Returns the number of the first seat that didn't have, or didn't put in, these chips.
fn wrong_seat(chips: &[SeatChips], wanted: &[[u64; 2]]) -> Option<usize> {
    for (number, row) in wanted.iter().enumerate() {
        let [had, put] = *row;
        match chips.get(number) {
            Some(seat) if seat.had == had && seat.put == put => {}
            _ => return Some(number),
        }
    }
    None
}

/// Returns whether a hand is accepted.
fn is_accepted(audit: &HandAudit) -> bool {
    matches!(audit, HandAudit::Accepted { .. })
}

#[test]
fn what_comes_back_was_not_put_in(rt: HostRuntime) -> Result<(), Fail> {
    let both = audit_chips(rt.alloc(), RETURNED).ok_or("no chips")?;
    assert!(rt; is_accepted(&both.audit), "the hand is accepted");
    assert_eq!(rt; wrong_seat(&both.chips, &CHIPS), None);
    Ok(())
}
