//! Prefixes and cuts of texts.

ghost use Rattle.std.specs.Prelude.{◌≡◌, ◌<◌, ◌≤◌, ◌+◌, [], ◌∷◌, true, false, nat_eq, option_map, drop, length, IfSome};
ghost use Rattle.std.specs.List.{list_any, starts_with};
ghost use Rattle.std.specs.Str.{bytes_eq};
ghost use Rattle.history_text.specs.Texts.{behind, first_place, last_place, cut_first, cut_last};

use memchr::{memchr, memmem};

/// Returns whether a text is one of some words.
pub(crate) fn is_one_of(text: &[u8], words: &[&[u8]]) -> bool
    ensures { result ≡ list_any (λ word. bytes_eq text.now word.now) words.now }
{
    for word in words {
        if text == *word {
            return true;
        }
    }
    false
}

/// Returns whether one of the first two bytes differs, so that the text can't begin with the prefix. If
/// the text or the prefix has one byte, only the first bytes are compared.
#[inline]
fn begin_apart(text: &[u8], front: &[u8]) -> bool
    ensures { result ≡ true → starts_with nat_eq text.now front.now ≡ false }
{
    match (text, front) {
        ([mine, next, ..], [other, after, ..]) => mine != other || next != after,
        ([mine, ..], [other, ..]) => mine != other,
        _ => false,
    }
}

/// Returns the text after two bytes, if the text begins with them.
#[inline]
#[tactic(auto, unfolding(crate::specs::Texts::behind))]
fn behind_two(text: &[u8], first: u8, second: u8) -> Option<&[u8]>
    ensures value { option_map (λ rest. rest.now) result
        ≡ behind (first ∷ second ∷ []) text.now }
    ensures length { IfSome result (λ rest. length rest.now + 2 ≡ length text.now) }
{
    match text {
        [mine, next, rest @ ..] => {
            if *mine == first && *next == second {
                Some(rest)
            } else {
                None
            }
        }
        _ => None,
    }
}

/// Returns the text after a prefix.
#[inline]
#[tactic(auto, unfolding(crate::specs::Texts::behind))]
pub(crate) fn behind<'a>(text: &'a [u8], front: &[u8]) -> Option<&'a [u8]>
    ensures value { option_map (λ rest. rest.now) result ≡ behind front.now text.now }
    ensures length { IfSome result (λ rest. length rest.now + length front.now ≡ length text.now) }
{
    if let [first, second] = front {
        return behind_two(text, *first, *second);
    }
    if begin_apart(text, front) {
        return None;
    }
    text.strip_prefix(front)
}

/// Returns whether the mark is at a place.
fn stands_at(text: &[u8], mark: &[u8], place: usize) -> bool
    requires { place ≤ length text.now }
    ensures { result ≡ starts_with nat_eq (drop place text.now) mark.now }
{
    let rest = &text[place..];
    !begin_apart(rest, mark) && rest.starts_with(mark)
}

/// Returns the first place of a mark. The beginning is compared first, because the mark is often there.
fn first_place(text: &[u8], mark: &[u8]) -> Option<usize>
    requires { 0 < length mark.now }
    ensures value { result ≡ first_place mark.now text.now }
    ensures within { IfSome result (λ place. place + length mark.now ≤ length text.now) }
{
    if stands_at(text, mark, 0) {
        return Some(0);
    }
    memmem::find(text, mark)
}

/// Returns the first place of a byte.
fn first_byte(text: &[u8], byte: u8) -> Option<usize>
    ensures value { result ≡ first_place (byte ∷ []) text.now }
    ensures within { IfSome result (λ place. place < length text.now) }
{
    memchr(byte, text)
}

/// Returns the last place of a mark. Texts are short, so the places are tried one by one from the end. At
/// most places the first byte of the mark is enough.
fn last_place(text: &[u8], mark: &[u8]) -> Option<usize>
    requires { 0 < length mark.now }
    ensures value { result ≡ last_place mark.now text.now }
    ensures within { IfSome result (λ place. place + length mark.now ≤ length text.now) }
{
    let first = mark[0];
    let mut place = (text.len() + 1).saturating_sub(mark.len());
    'places: while place > 0 {
        place -= 1;
        let byte = text[place];
        if byte != first {
            continue;
        }
        if stands_at(text, mark, place) {
            return Some(place);
        }
    }
    None
}

/// Returns the text before the first place of a mark, and the text after the mark.
#[tactic(auto, unfolding(crate::specs::Texts::cut_first))]
pub(crate) fn cut_first<'a>(text: &'a [u8], mark: &[u8]) -> Option<(&'a [u8], &'a [u8])>
    requires { 0 < length mark.now }
    ensures value { option_map (λ cut. (cut.0.now, cut.1.now)) result
        ≡ cut_first mark.now text.now }
    ensures lengths { IfSome result (λ cut.
        length cut.0.now + length mark.now + length cut.1.now ≡ length text.now) }
{
    let place = first_place(text, mark)?;
    Some((&text[..place], &text[place + mark.len()..]))
}

/// Returns the text before the first place of a byte, and the text after the byte.
#[tactic(auto, unfolding(crate::specs::Texts::cut_first))]
pub(crate) fn cut_at_byte(text: &[u8], byte: u8) -> Option<(&[u8], &[u8])>
    ensures value { option_map (λ cut. (cut.0.now, cut.1.now)) result
        ≡ cut_first (byte ∷ []) text.now }
    ensures lengths { IfSome result (λ cut.
        length cut.0.now + 1 + length cut.1.now ≡ length text.now) }
{
    let place = first_byte(text, byte)?;
    Some((&text[..place], &text[place + 1..]))
}

/// Returns the text before the last place of a mark, and the text after the mark.
#[tactic(auto, unfolding(crate::specs::Texts::cut_last))]
pub(crate) fn cut_last<'a>(text: &'a [u8], mark: &[u8]) -> Option<(&'a [u8], &'a [u8])>
    requires { 0 < length mark.now }
    ensures value { option_map (λ cut. (cut.0.now, cut.1.now)) result
        ≡ cut_last mark.now text.now }
    ensures lengths { IfSome result (λ cut.
        length cut.0.now + length mark.now + length cut.1.now ≡ length text.now) }
{
    let place = last_place(text, mark)?;
    Some((&text[..place], &text[place + mark.len()..]))
}
