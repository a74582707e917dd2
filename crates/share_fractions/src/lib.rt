//! Fractions of whole numbers, rounded once, and their text with a fixed number of decimal places.
//!
//! 1. *Rounding* (`rounded`). The fraction, in units of its last place, and one half are added as one
//!    fraction. The whole part of the sum is the rounded number. So there is one division, and nothing is
//!    rounded twice. If both numbers fit 64 bits, so does the division, which then takes a fraction of the
//!    time.
//! 2. *Text* (`Fixed::write`). The whole part, a point, and the decimal places are written digit by digit
//!    into the caller's bytes.
//!
//! The crate has no floating point, allocates nothing, and knows nothing of cards or money.
#![tactic(auto)]

ghost use Rattle.std.specs.Prelude.{◌≡◌, ◌+◌, ◌*◌, ◌/◌, ◌%◌, ◌<◌, ◌≤◌, ◌^◌, ◌++◌, length, take, drop};
ghost use Rattle.std.specs.Fmt.{decimal};
ghost use Rattle.share_fractions.specs.Round.{round, fixed_text, digit_at, last_digits};

mod put;

use itoa::Buffer;
use put::{put_byte, put_bytes};

/// The length of the buffer that a `Fixed` needs for its text, in bytes. Every text is shorter.
pub const LONGEST_TEXT: usize = 44;

/// A number as a count of units of its last decimal place: 9545 with 2 places is 95.45.
#[derive(Clone, Copy)]
pub struct Fixed {
    /// The number, in units of its last place.
    pub whole: u128,
    /// The number of decimal places.
    pub places: u32,
}

/// Returns ten to a small power.
fn power_of_ten(exponent: u32) -> u128
    requires { exponent ≤ 4 }
    ensures value { result ≡ 10 ^ exponent }
    ensures bound { result ≤ 10000 }
    ensures some { 0 < result }
{
    match exponent {
        0 => 1,
        1 => 10,
        2 => 100,
        3 => 1000,
        _ => 10000,
    }
}

/// The greatest number that is divided in 64 bits, which takes a fraction of the time.
const SHORT: u128 = 0xffff_ffff_ffff_ffff;

/// Returns the whole part of a fraction.
#[inline]
fn quotient(numerator: u128, denominator: u128) -> u128
    requires { 0 < denominator }
    ensures { result ≡ numerator / denominator }
{
    if numerator <= SHORT && denominator <= SHORT {
        return u128::from(numerator as u64 / denominator as u64);
    }
    numerator / denominator
}

/// Returns the last digit of a number.
#[inline]
fn last_digit(number: u128) -> u8
    ensures value { result ≡ number % 10 }
    ensures bound { result < 10 }
{
    if number <= SHORT {
        return (number as u64 % 10) as u8;
    }
    (number % 10) as u8
}

/// Returns the fraction with `places` decimal places, rounded once, half up.
pub fn rounded(numerator: u128, denominator: u128, places: u32) -> Fixed
    // The denominator isn't 0, and the sum that is divided fits 128 bits.
    requires some { 0 < denominator }
    requires small { numerator ≤ 10 ^ 34 }
    requires small_too { denominator ≤ 10 ^ 32 }
    requires few { places ≤ 4 }

    // The result is the rounded fraction, and has the given number of places.
    ensures value { result.whole ≡ round numerator denominator places }
    ensures places { result.places ≡ places }
{
    let halves = 2 * numerator * power_of_ten(places) + denominator;
    Fixed {
        whole: quotient(halves, 2 * denominator),
        places,
    }
}

/// Returns the glyph of one digit. The last digit has the place 0.
fn digit(whole: u128, place: u32) -> u8
    requires { place ≤ 4 }
    ensures { result ≡ digit_at place whole }
{
    b'0' + last_digit(quotient(whole, power_of_ten(place)))
}

/// Writes the last `places` digits at a place, and returns the place after them.
fn put_places(out: &mut [u8], at: usize, whole: u128, places: u32) -> usize
    requires few { places ≤ 4 }
    requires room { at + places ≤ length out.old }
    ensures next { result ≡ at + places }
    ensures written { take result out.new ≡ take at out.old ++ last_digits places whole }
    ensures behind { drop result out.new ≡ drop result out.old }
{
    let mut end = at;
    for place in (0..places).rev() {
        end = put_byte(out, end, digit(whole, place));
    }
    end
}

impl Fixed {
    /// Writes the number at the beginning of `out`, such as `95.45`, and returns the length of the text.
    /// Without decimal places there is no point. The rest of `out` stays.
    pub fn write(&self, out: &mut [u8]) -> usize
        requires few { self.now.places ≤ 4 }
        requires room { 44 ≤ length out.old }
        ensures written { take result out.new ≡ fixed_text self.now.whole self.now.places }
        ensures behind { drop result out.new ≡ drop result out.old }
        ensures short { result ≤ 44 }
    {
        let mut buffer = Buffer::new();
        let units = quotient(self.whole, power_of_ten(self.places));
        let mut end = put_bytes(out, 0, buffer.format(units).as_bytes());
        if self.places > 0 {
            end = put_byte(out, end, b'.');
            end = put_places(out, end, self.whole, self.places);
        }
        end
    }
}
