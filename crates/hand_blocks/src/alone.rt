//! The table of a spot.

ghost use Rattle.std.specs.Prelude.{◌≡◌};
ghost use Rattle.card_sets.specs.State.{state_of};
ghost use Rattle.hand_blocks.specs.Spots.{alone};
ghost use Rattle.showdown_tally.specs.Deals.{deal_of};

use card_sets::Known;
use even_luck::hand_count;
use showdown_tally::Table;

/// The table of a spot, whose equity `write_spot` asks for: one pot, in which every hand is eligible.
pub fn table_alone(known: Known) -> Table
    ensures known { result.known ≡ known }
    ensures deal { deal_of result ≡ alone (state_of known) }
{
    let mut eligible = [0; 10];
    eligible[0] = (1 << hand_count(&known)) - 1;
    Table {
        known,
        pots: 1,
        eligible,
    }
}
