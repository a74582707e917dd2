//! The best of some fives.

ghost use Rattle.std.specs.Prelude.{◌≡◌};
ghost use Rattle.hand_choice.specs.AllowedFives.{AreFives};
ghost use Rattle.omaha_ranks.specs.Omaha.{high_number};

use hand_choice::Fives;
use rank_high::high_of_five;

/// Returns the number of the best of some fives as a high hand, or 0 if there is none.
pub(crate) fn best_high(fives: Fives) -> u32
    requires { AreFives fives }
    ensures { result ≡ high_number fives }
{
    let mut best: u32 = 0;
    for five in fives {
        best = best.max(high_of_five(five).number());
    }
    best
}
