//! The words of a line, which stand between spaces and tabs.

ghost use Rattle.std.specs.Prelude.{◌≡◌, ◌<◌, [], ◌∷◌, length, not, position};
ghost use Rattle.std.specs.Iterator.{YieldsFirstRef, item_count};
ghost use Rattle.spot_text.specs.Words.{is_gap, words, is_blank, words_left};

/// The words of a line, from the left.
#[derive(Clone, Copy)]
pub struct Words<'a> {
    /// The rest of the line.
    rest: &'a [u8],
}

/// A space or a tab.
fn is_gap(byte: u8) -> bool
    ensures { result ≡ is_gap byte }
{
    byte == b' ' || byte == b'\t'
}

/// The first place that is no space or tab.
fn word_at(bytes: &[u8]) -> Option<usize>
    ensures { result ≡ position (λ b. not (is_gap b)) bytes.now }
{
    bytes.iter().position(|byte| !is_gap(*byte))
}

/// The first place that is a space or a tab.
fn gap_at(bytes: &[u8]) -> Option<usize>
    ensures { result ≡ position is_gap bytes.now }
{
    bytes.iter().position(|byte| is_gap(*byte))
}

/// The first word, empty where there is none, and what stands after it.
fn split_word(line: &[u8]) -> (&[u8], &[u8])
    ensures first { 0 < length result.0.now → words line.now ≡ result.0.now ∷ words result.1.now }
    ensures none { length result.0.now ≡ 0 → (words line.now ≡ []) × (words result.1.now ≡ []) }
{
    let (_, front) = line.split_at(word_at(line).unwrap_or(line.len()));
    front.split_at(gap_at(front).unwrap_or(front.len()))
}

impl<'a> Words<'a> {
    /// The words of the line.
    pub fn of(line: &'a [u8]) -> Words<'a>
        ensures { words_left result ≡ words line.now }
    {
        Words { rest: line }
    }
}

impl<'a> Iterator for Words<'a> {
    type Item = &'a [u8];

    ghost next_gives = { YieldsFirstRef words_left };

    ghost remaining = { item_count words_left };

    fn next(&mut self) -> Option<&'a [u8]> {
        let (word, rest) = split_word(self.rest);
        self.rest = rest;
        if word.is_empty() { None } else { Some(word) }
    }
}

/// Whether the line has a word.
pub fn has_word(line: &[u8]) -> bool
    ensures { result ≡ not (is_blank line.now) }
{
    Words::of(line).next().is_some()
}
