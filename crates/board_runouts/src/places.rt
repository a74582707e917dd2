//! Places of the counts, and runouts that are added there.

ghost use Rattle.std.specs.Prelude.{◌≡◌, ℕ, ◌+◌, ◌*◌, ◌^◌, ◌<◌, ◌==◌, if◌then◌else◌, length, slice_get, Some, true, IsTrue};
ghost use Rattle.card_sets.specs.Games.{has_side};
ghost use Rattle.showdown_tally.specs.SideCounts.{count_at};
ghost use Rattle.board_runouts.specs.Fronts.{HasRoom, front_deal};
ghost use Rattle.board_runouts.specs.KeptRows.{row_place, so_many};
ghost use Rattle.board_runouts.specs.declared.row.Row.{Row};

use crate::front::Front;
use card_sets::Side;
use runout_walk::add_times;

/// Where a runout is counted for a pot.
#[derive(Clone, Copy)]
pub(crate) struct Place {
    /// On the high side.
    pub(crate) main: u16,
    /// On the low side.
    pub(crate) low: u16,
}

/// Adds `times` runouts at their places for a pot.
#[inline]
pub(crate) fn add_place(
    counts: &mut [[u32; 2048]],
    two_sides: bool,
    pot: u8,
    place: Place,
    times: u32,
)
    // The pot has its two rows, with 2,048 counts each.
    requires inside { 2 * pot + 1 < length counts.old }
    requires few_mains { place.main < 2048 }
    requires few_lows { place.low < 2048 }

    // There is room at the high's place, and where there are two sides at the low's.
    requires fits_main { count_at counts.old pot Side.High place.main + times < 2 ^ 32 }
    requires fits_low { IsTrue two_sides
        → count_at counts.old pot Side.Low place.low + times < 2 ^ 32 }

    // These two counts grow. Where the game has no second side nothing is said of the low's rows.
    ensures high { (p k : ℕ)
        → count_at counts.new p Side.High k
        ≡ count_at counts.old p Side.High k + so_many times pot place.main place.low p Side.High k }
    ensures low { (p k : ℕ) → IsTrue two_sides
        → count_at counts.new p Side.Low k
        ≡ count_at counts.old p Side.Low k + so_many times pot place.main place.low p Side.Low k }
    ensures places { length counts.new ≡ length counts.old }
{
    let first = 2 * usize::from(pot);
    add_times(&mut counts[first], place.main, times);
    if two_sides {
        add_times(&mut counts[first + 1], place.low, times);
    }
}

/// Counts a runout at a place of the rows, for each pot.
#[inline]
pub(crate) fn put_runout(front: &Front, ranks: usize, counts: &mut [[u32; 2048]])
    requires inside { ranks < 169 }
    requires room { HasRoom front.now counts.old 1 }

    // For each pot it is counted where its row says who wins there.
    ensures counts { (pot number : ℕ) (side : Side) (row : Row)
        → pot < length (front_deal front.now).pots
        → has_side side front.now.spot.now.table.known.game ≡ true
        → slice_get front.now.rows.now pot ≡ Some row
        → count_at counts.new pot side number
        ≡ count_at counts.old pot side number
        + (if row_place row side ranks == number then 1 else 0) }
    ensures same { length counts.new ≡ length counts.old }
{
    let spot = front.spot;
    let rows = front.rows;
    let two_sides = spot.table.known.game.has_side(Side::Low);
    for pot in 0..spot.table.pots {
        let row = &rows[usize::from(pot)];
        let main = row.mains[ranks];
        let low = row.lows[ranks];
        let place = Place { main, low };
        add_place(counts, two_sides, pot, place, 1);
    }
}
