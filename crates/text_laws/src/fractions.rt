//! Laws of the text of fractions: each function is empty, and its clauses are the laws.

ghost use Rattle.std.specs.Prelude.{◌≡◌, ℕ, ◌+◌, ◌*◌, ◌/◌, ◌<◌, ◌≤◌, ◌^◌, length};
ghost use Rattle.std.specs.Fmt.{decimal};
ghost use Rattle.std.specs.Str.Parse.{digits_value};
ghost use Rattle.share_fractions.specs.Round.{round, last_digits};

/// The rounded number is the nearest one, and of two nearest ones the greater: it is at most the
/// fraction and a half unit, and one unit more would be above that.
pub fn law_rounds_to_the_nearest_half_up()
    ensures not_above { (a b places : ℕ) → 0 < b →
        2 * b * round a b places ≤ 2 * a * 10 ^ places + b }
    ensures not_below { (a b places : ℕ) → 0 < b →
        2 * a * 10 ^ places + b < 2 * b * (round a b places + 1) }
{}

/// The digits before the point and the places after it, joined, are the number, and there are as
/// many places as were asked for.
pub fn law_the_text_says_the_number()
    ensures places { (n places : ℕ) → length (last_digits places n) ≡ places }
    ensures number { (n places : ℕ) → n < 2 ^ 128 →
        digits_value 10 (decimal (n / 10 ^ places)) * 10 ^ places
        + digits_value 10 (last_digits places n) ≡ n }
{}
