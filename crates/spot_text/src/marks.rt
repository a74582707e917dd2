//! The marks between the parts of a spot.

ghost use Rattle.std.specs.Prelude.{◌≡◌, ◌||◌};
ghost use Rattle.spot_text.specs.Parts.{is_slash, is_dashes, is_dash};

const DASH: &[u8] = b"-";

const DASHES: &[u8] = b"--";

const SLASH: &[u8] = b"/";

/// The mark before the dead cards.
pub(crate) fn is_slash(word: &[u8]) -> bool
    ensures { result ≡ is_slash word.now }
{
    word == SLASH
}

/// The mark before the board.
pub(crate) fn is_dashes(word: &[u8]) -> bool
    ensures { result ≡ is_dashes word.now }
{
    word == DASHES
}

/// The mark before the next hand.
pub fn is_dash(word: &[u8]) -> bool
    ensures { result ≡ is_dash word.now }
{
    word == DASH
}

/// A mark after the hands.
pub fn ends_hands(word: &[u8]) -> bool
    ensures { result ≡ (is_slash word.now || is_dashes word.now) }
{
    is_slash(word) || is_dashes(word)
}
