//! Readers: what is at the beginning of a text and the text after it, or the first fault from the
//! left.

ghost use Rattle.std.specs.Prelude.{◌≡◌, ◌<◌, ◌≤◌, option_map, IfOk, IfSome, length};
ghost use Rattle.line_text.specs.Amounts.{digit_count};
ghost use Rattle.history_text.specs.Gives.{Gives};
ghost use Rattle.history_text.specs.Reading.{all_in_end, digits_front, is_end, last_money, money, seat_front, seat_of, some_money};

use crate::TextFault;
use line_text::{AmountFault, digit_count, number_of, read_amount};

/// Returns an amount and the text after it.
#[tactic(auto, unfolding(crate::specs::Reading::money))]
pub(crate) fn money(text: &[u8], hundredths: bool) -> Result<(u64, &[u8]), TextFault>
    ensures value { Gives (λ read. (read.0, read.1.now)) result (money hundredths text.now) }
    ensures length { IfOk result (λ read. length read.1.now ≤ length text.now) }
{
    match read_amount(text, 0, hundredths) {
        Ok(amount) => Ok((amount.units, &text[amount.next..])),
        Err(AmountFault::NotAmount) => Err(TextFault::BadAmount),
        Err(AmountFault::TooLarge) => Err(TextFault::AmountTooLarge),
    }
}

/// Returns an amount that isn't 0, and the text after it.
#[tactic(auto, unfolding(crate::specs::Reading::some_money))]
pub(crate) fn some_money(text: &[u8], hundredths: bool) -> Result<(u64, &[u8]), TextFault>
    ensures { Gives (λ read. (read.0, read.1.now)) result (some_money hundredths text.now) }
{
    let (units, rest) = money(text, hundredths)?;
    if units == 0 {
        return Err(TextFault::BadAmount);
    }
    Ok((units, rest))
}

/// The words of a bet that takes the whole stack.
const ALL_IN: &[u8] = b" and is all-in";

/// Returns whether the line says that the player is all-in, given the text after the last amount of
/// a bet.
#[tactic(auto, unfolding(crate::specs::Reading::all_in_end))]
fn all_in_end(text: &[u8]) -> Result<bool, TextFault>
    ensures { result ≡ all_in_end text.now }
{
    if text.is_empty() {
        Ok(false)
    } else if text == ALL_IN {
        Ok(true)
    } else {
        Err(TextFault::BadAmount)
    }
}

/// Returns an amount that isn't 0 at the end of a line, and whether the line says that the player
/// is all-in.
#[tactic(auto, unfolding(crate::specs::Reading::last_money))]
pub(crate) fn last_money(text: &[u8], hundredths: bool) -> Result<(u64, bool), TextFault>
    ensures { result ≡ last_money hundredths text.now }
{
    let (units, rest) = some_money(text, hundredths)?;
    let all_in = all_in_end(rest)?;
    Ok((units, all_in))
}

/// Returns the seat with a number.
fn seat_of(number: u64) -> Option<u8>
    ensures { result ≡ seat_of number }
{
    if 1 <= number && number <= 10 {
        Some(number as u8)
    } else {
        None
    }
}

/// Returns the digits at the beginning of the text, if there are some, and the text after them.
#[tactic(auto, using(line_text::proofs::CallerLemmas::front_digits))]
pub(crate) fn digits_front(text: &[u8]) -> Option<(&[u8], &[u8])>
    ensures value { option_map (λ cut. (cut.0.now, cut.1.now)) result ≡ digits_front text.now }
    ensures digits { IfSome result (λ cut. digit_count cut.0.now ≡ length cut.0.now) }
    ensures length { IfSome result (λ cut. length cut.1.now ≤ length text.now) }
{
    let count = digit_count(text);
    if count == 0 {
        return None;
    }
    Some(text.split_at(count))
}

/// Returns the seat whose number is at the beginning of the text, if it is one, and the text after
/// the digits.
#[tactic(auto, unfolding(crate::specs::Reading::seat_front))]
pub(crate) fn seat_front(text: &[u8]) -> Option<(Option<u8>, &[u8])>
    ensures value { option_map (λ read. (read.0, read.1.now)) result ≡ seat_front text.now }
    ensures length { IfSome result (λ read. length read.1.now ≤ length text.now) }
{
    let (digits, rest) = digits_front(text)?;
    Some((seat_of(number_of(digits)), rest))
}
