//! The texts of the items of a range, which stand between commas.

ghost use Rattle.std.specs.Prelude.{◌≡◌, [], ◌∷◌, position};
ghost use Rattle.std.specs.Option.{option_map_or};
ghost use Rattle.std.specs.Iterator.{YieldsFirstRef, item_count};
ghost use Rattle.range_lines.specs.Texts.{is_comma, texts_of, texts_left};

/// The texts of a word, from the left.
#[derive(Clone, Copy)]
pub(crate) struct Texts<'a> {
    /// The rest of the word, if a text is left.
    rest: Option<&'a [u8]>,
}

/// The first place of a comma.
fn comma_at(bytes: &[u8]) -> Option<usize>
    ensures { result ≡ position is_comma bytes.now }
{
    bytes.iter().position(|byte| *byte == b',')
}

/// The first text of some bytes, and what stands after its comma, if it has one.
fn cut(bytes: &[u8]) -> (&[u8], Option<&[u8]>)
    ensures { texts_of bytes.now
        ≡ result.0.now ∷ option_map_or (λ rest. texts_of rest.now) result.1 [] }
{
    match comma_at(bytes) {
        Some(place) => {
            let (text, behind) = bytes.split_at(place);
            let (_, rest) = behind.split_at(1);
            (text, Some(rest))
        }
        None => (bytes, None),
    }
}

impl<'a> Texts<'a> {
    /// The texts of the word.
    pub(crate) fn of(word: &'a [u8]) -> Texts<'a>
        ensures { texts_left result ≡ texts_of word.now }
    {
        Texts { rest: Some(word) }
    }
}

impl<'a> Iterator for Texts<'a> {
    type Item = &'a [u8];

    ghost next_gives = { YieldsFirstRef texts_left };

    ghost remaining = { item_count texts_left };

    fn next(&mut self) -> Option<&'a [u8]> {
        let (text, rest) = cut(self.rest?);
        self.rest = rest;
        Some(text)
    }
}
