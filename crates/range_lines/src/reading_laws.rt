//! What holds of each line that is read: the function is empty, and its clause is the law.

ghost use Rattle.std.specs.Prelude.{◌≡◌, ℕ, List, Ok};
ghost use Rattle.range_lines.specs.Sound.{IsSound};
ghost use Rattle.range_lines.specs.RangeSpot.{Ranges, ranges_of};

/// What a line says of ranges may be dealt: two ranges to four of hands of two cards each, which neither
/// the board nor the dead cards have, none twice in a range, of weights from 1 to 100; a board that a deal
/// has; and enough cards for all.
pub fn law_lines_give_sound_ranges()
    ensures { (line : List ℕ) (spot : Ranges) → ranges_of line ≡ Ok spot → IsSound spot }
{}
