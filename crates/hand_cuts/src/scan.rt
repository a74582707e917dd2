//! How far some bytes were examined.

ghost use Rattle.std.specs.Prelude.{◌≡◌, ◌≤◌, false, length, slice_range};
ghost use Rattle.line_text.specs.Lines.{has_newline};
ghost use Rattle.memchr.specs.Find.{IsFirstByte, is_byte};
ghost use Rattle.hand_cuts.specs.Scans.{EndsLine};

use memchr::memchr;

/// How far the bytes were examined. The bytes before `at`, where line `line` begins, were handed
/// out. The lines from there up to `looked`, where line `number` begins, were examined, and `head`
/// is the header line among them. There is no newline between `looked` and `searched`.
#[derive(Clone, Copy)]
pub(crate) struct Scan {
    /// Where the bytes not yet handed out begin.
    pub(crate) at: usize,
    /// The number of the line that begins at `at`.
    pub(crate) line: u32,
    /// Where the lines not yet examined begin.
    pub(crate) looked: usize,
    /// The number of the line that begins at `looked`.
    pub(crate) number: u32,
    /// How far the search for the next newline went.
    pub(crate) searched: usize,
    /// The header line of the open hand.
    pub(crate) head: Option<Head>,
}

/// The place of a header line and its number.
#[derive(Clone, Copy)]
pub(crate) struct Head {
    /// Where the line begins.
    pub(crate) at: usize,
    /// The number of the line.
    pub(crate) line: u32,
}

/// Returns the place of the first newline. An empty line needs no search.
fn first_newline(bytes: &[u8]) -> Option<usize>
    ensures { IsFirstByte (is_byte 10) bytes.now result }
{
    let Some((first, _others)) = bytes.split_first() else {
        return None;
    };
    if *first == b'\n' {
        return Some(0);
    }
    memchr(b'\n', bytes)
}

/// Returns the place after the newline of the line that begins at `looked`, or `None` if no newline
/// follows. There is none before `searched`.
pub(crate) fn end_of_line(bytes: &[u8], looked: usize, searched: usize) -> Option<usize>
    requires ordered { looked ≤ searched }
    requires within { searched ≤ length bytes.now }
    requires none { has_newline (slice_range bytes.now looked searched) ≡ false }
    ensures { EndsLine bytes.now looked result }
{
    match first_newline(&bytes[searched..]) {
        Some(place) => Some(searched + place + 1),
        None => None,
    }
}

impl Scan {
    ghost use Rattle.std.specs.Prelude.{◌≡◌, ◌<◌, ◌≤◌, ◌+◌, ◌^◌, IfSome};
    ghost use Rattle.hand_cuts.specs.Scans.{start, passed, begun, gone_on, finished, shifted, start_of_rest};

    /// Returns the scan of bytes of which none was examined.
    pub(crate) fn start() -> Scan
        ensures { result ≡ start }
    {
        Scan {
            at: 0,
            line: 1,
            looked: 0,
            number: 1,
            searched: 0,
            head: None,
        }
    }

    /// Moves to the next line, which begins at `next`.
    pub(crate) fn pass(&mut self, next: usize)
        requires { self.old.number + 1 < 2 ^ 32 }
        ensures { self.new ≡ passed next self.old }
    {
        self.looked = next;
        self.searched = next;
        self.number += 1;
    }

    /// Hands out the bytes before a header line, and opens its hand.
    pub(crate) fn begin(&mut self, head: Head)
        ensures { self.new ≡ begun head self.old }
    {
        self.at = head.at;
        self.line = head.line;
        self.head = Some(head);
    }

    /// Hands out the bytes examined, with no hand open.
    pub(crate) fn go_on(&mut self)
        ensures { self.new ≡ gone_on self.old }
    {
        self.at = self.looked;
        self.line = self.number;
        self.head = None;
    }

    /// Hands out all bytes up to the end, with the last line, which has no newline.
    pub(crate) fn finish(&mut self, end: usize)
        requires number { self.old.looked < end → self.old.number + 1 < 2 ^ 32 }
        requires searched { self.old.searched ≡ end }
        requires looked { self.old.looked ≤ end }
        ensures { self.new ≡ finished end self.old }
    {
        if self.looked < end {
            self.pass(end);
        }
        self.go_on();
    }

    /// Returns where the bytes that aren't dropped begin, and the number of their first line: the
    /// header line that was found, or the first line not yet examined.
    pub(crate) fn start_of_rest(&self) -> (usize, u32)
        ensures { result ≡ start_of_rest self.now }
    {
        match self.head {
            Some(head) => (head.at, head.line),
            None => (self.looked, self.number),
        }
    }

    /// Drops everything before a place, where the line has the number `line`.
    pub(crate) fn shift(&mut self, from: usize, line: u32)
        requires within { from ≤ self.old.looked }
        requires searched { from ≤ self.old.searched }
        requires head { IfSome self.old.head (λ head. from ≤ head.at) }
        ensures { self.new ≡ shifted from line self.old }
    {
        self.at = 0;
        self.line = line;
        self.looked -= from;
        self.searched -= from;
        if let Some(head) = &mut self.head {
            head.at -= from;
        }
    }
}
