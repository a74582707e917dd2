//! A text in memory, read as an input is.

ghost use Rattle.std.specs.Prelude.{Some};
ghost use Rattle.run_loop.specs.TextReads.{ReadsText, text_tells};

use byte_ends::{Failed, Source};

/// A source of the bytes of a text. No read of it fails.
#[derive(Drop)]
pub(crate) struct TextSource<'a> {
    /// Bytes of the text that are still to be read.
    pub(crate) left: &'a [u8],
}

impl<'a> Source for TextSource<'a> {
    ghost left = { λ s. Some s.left.now };

    ghost faults = { λ _. 0 };

    ghost reads = { λ old new read. ReadsText old.left.now new.left.now read };

    fn read(&mut self, piece: &mut [u8]) -> Result<usize, Failed> {
        let count = piece.len().min(self.left.len());
        let (front, rest) = self.left.split_at(count);
        piece[..count].copy_from_slice(front);
        self.left = rest;
        Ok(count)
    }

    ghost tells = { λ old new read given. text_tells old.left.now new.left.now read given };
}
