//! What each seat of a hand had, and what it put in.

ghost use Rattle.std.specs.Prelude.{◌≡◌, ◌<◌};
ghost use Rattle.hand_audit.specs.SeatChips.{AreWithin, all_chips_on, chips_on, nobodys_chips};

use betting_replay::Replay;
use hand_verdict::SeatChips;

/// The chips of no seat.
const NONE: SeatChips = SeatChips { had: 0, put: 0 };

/// The chips of the seats of no hand.
pub(crate) fn no_chips() -> [SeatChips; 11]
    ensures { result ≡ nobodys_chips }
{
    [NONE; 11]
}

/// What a seat had before it put anything in, and what it has put in.
fn chips_on(replay: &Replay, seat: u8) -> SeatChips
    requires seat { seat < 11 }
    requires within { AreWithin replay.now }
    ensures { result ≡ chips_on replay.now seat }
{
    let paid = replay.paid(seat);
    let put = paid.live + paid.dead;
    SeatChips {
        had: replay.stack(seat) + put,
        put,
    }
}

/// Returns what each seat had and has put in, by its number.
pub(crate) fn all_chips_on(replay: &Replay) -> [SeatChips; 11]
    requires within { AreWithin replay.now }
    ensures { result ≡ all_chips_on replay.now }
{
    let mut chips = no_chips();
    for seat in 0..11u8 {
        chips[seat as usize] = chips_on(replay, seat);
    }
    chips
}
