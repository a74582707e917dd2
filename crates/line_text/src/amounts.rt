//! Amounts at a place in a text: an optional sign, digits, and in money an optional point with
//! exactly two digits.
ghost use Rattle.std.specs.Prelude.{◌≡◌, ◌+◌, ◌-◌, ◌*◌, ◌^◌, ◌≤◌, ◌<◌, min, length, take, drop, option_map, IfSome, IfOk, not, position};
ghost use Rattle.std.specs.Char.{is_ascii_digit};
ghost use Rattle.line_text.specs.Amounts.{digit_count, number_of, sign_length, has_point, written, amount_at};
ghost use Rattle.line_text.specs.Capped.{capped, kept_units};

/// The greatest amount, in units.
pub const GREATEST: u64 = 999_999_999_999_999;

/// The sign of the dollar. The signs of the euro and the pound follow, in UTF-8.
const DOLLAR: [u8; 1] = [b'$'];

const EURO: [u8; 3] = [0xe2, 0x82, 0xac];

const POUND: [u8; 2] = [0xc2, 0xa3];

/// An amount that was read at a place in a text.
#[derive(Clone, Copy)]
pub struct Amount {
    /// The amount, in hundredths or in chips.
    pub units: u64,
    /// The place after the amount.
    pub next: usize,
    /// Whether the amount has a sign or a point.
    pub marked: bool,
}

/// Why a text isn't an amount.
#[derive(Clone, Copy, PartialEq, Eq, Drop)]
pub enum AmountFault {
    /// The text doesn't have the form of an amount.
    NotAmount,
    /// The text has the form of an amount, and the amount is above the greatest.
    TooLarge,
}

/// An amount as it is written, before the units of the hand are known. A number above `u64::MAX` is
/// replaced by `u64::MAX`.
#[derive(Clone, Copy)]
pub struct WrittenAmount {
    /// Whether the amount has a sign or a point.
    pub marked: bool,
    /// Whether the amount has a point.
    pub pointed: bool,
    /// The number before the point.
    pub whole: u64,
    /// The number after the point.
    pub cents: u64,
    /// The length in bytes.
    pub length: usize,
}

/// Returns the place of the first byte that isn't a digit.
fn digits_end(text: &[u8]) -> Option<usize>
    ensures { result ≡ position (λ byte. not (is_ascii_digit byte)) text.now }
{
    text.iter().position(|byte| !byte.is_ascii_digit())
}

impl WrittenAmount {
    /// Returns the amount in hundredths, or in whole chips: at most `u64::MAX`.
    pub fn units(&self, hundredths: bool) -> u64
        ensures { result ≡ kept_units hundredths self.now }
    {
        if hundredths {
            self.whole.saturating_mul(100).saturating_add(self.cents)
        } else {
            self.whole
        }
    }
}

/// Returns the number of digits at the beginning of the text.
pub fn digit_count(text: &[u8]) -> usize
    ensures value { result ≡ digit_count text.now }
    ensures within { result ≤ length text.now }
{
    digits_end(text).unwrap_or(text.len())
}

/// Returns the value of the digits, or `u64::MAX` if the value is greater.
pub fn number_of(digits: &[u8]) -> u64
    ensures { result ≡ min (number_of digits.now) (2 ^ 64 - 1) }
{
    let mut number = 0u64;
    for digit in digits {
        number = number
            .saturating_mul(10)
            .saturating_add(u64::from(digit.saturating_sub(b'0')));
    }
    number
}

/// Returns the length of the currency sign at the beginning of the text, or 0.
fn sign_length(text: &[u8]) -> usize
    ensures value { result ≡ sign_length text.now }
    ensures within { result ≤ length text.now }
    ensures few { result ≤ 3 }
{
    if text.starts_with(&DOLLAR) {
        1
    } else if text.starts_with(&EURO) {
        3
    } else if text.starts_with(&POUND) {
        2
    } else {
        0
    }
}

/// Returns the amount at the beginning of the text.
#[tactic(auto, unfolding(crate::specs::Amounts::written))]
pub fn written(text: &[u8]) -> Option<WrittenAmount>
    ensures value { result ≡ option_map capped (written text.now) }
    ensures within { IfSome result (λ w. w.length ≤ length text.now) }
    ensures cents { IfSome result (λ w. w.cents ≤ 2 ^ 64 - 1) }
{
    let sign = sign_length(text);
    let unsigned = &text[sign..];
    let count = digit_count(unsigned);
    if count == 0 {
        return None;
    }
    let (digits, behind) = unsigned.split_at(count);
    let whole = number_of(digits);
    if !behind.starts_with(b".") {
        return Some(WrittenAmount {
            marked: sign > 0,
            pointed: false,
            whole,
            cents: 0,
            length: sign + count,
        });
    }
    let fraction = &behind[1..];
    if digit_count(fraction) != 2 {
        return None;
    }
    Some(WrittenAmount {
        marked: true,
        pointed: true,
        whole,
        cents: number_of(&fraction[..2]),
        length: sign + count + 3,
    })
}

/// Returns the amount at a place of the bytes, in the units of the hand: hundredths, or chips.
pub fn read_amount(bytes: &[u8], at: usize, hundredths: bool) -> Result<Amount, AmountFault>
    ensures value { result ≡ amount_at bytes.now at hundredths }
    ensures within { IfOk result (λ a. a.next ≤ length bytes.now) }
    ensures few { IfOk result (λ a. a.units ≤ GREATEST) }
{
    let Some(text) = bytes.get(at..) else {
        return Err(AmountFault::NotAmount);
    };
    let Some(amount) = written(text) else {
        return Err(AmountFault::NotAmount);
    };
    if amount.pointed && !hundredths {
        return Err(AmountFault::NotAmount);
    }
    let units = amount.units(hundredths);
    if units > GREATEST {
        return Err(AmountFault::TooLarge);
    }
    Ok(Amount {
        units,
        next: at + amount.length,
        marked: amount.marked,
    })
}
