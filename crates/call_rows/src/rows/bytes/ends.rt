//! The ends in memory as a caller uses them, and std's readers and writers below the other ends.

ghost use Rattle.std.specs.Prelude.{◌<◌};

use byte_ends::{
    Failed, MemorySink, MemorySource, RepeatSource, Sink, Source, StdSink, StdSource, write_all,
};
use std::alloc::Global;
use std::io;
use std::io::{ErrorKind, Read, Write};
use std::test::Fail;

/// A reader and a writer whose every call fails.
#[derive(Drop)]
struct Broken;

impl Read for Broken {
    fn read(&mut self, _: &mut [u8]) -> io::Result<usize> {
        Err(io::Error::from(ErrorKind::Interrupted))
    }
}

impl Write for Broken {
    fn write(&mut self, _: &[u8]) -> io::Result<usize> {
        Err(io::Error::from(ErrorKind::Interrupted))
    }

    fn flush(&mut self) -> io::Result<()> {
        Ok(())
    }
}

/// A writer that takes nothing.
#[derive(Drop)]
struct Closed;

impl Write for Closed {
    fn write(&mut self, _: &[u8]) -> io::Result<usize> {
        Ok(0)
    }

    fn flush(&mut self) -> io::Result<()> {
        Ok(())
    }
}

/// A read: the length of the piece, the result, and the bytes at the end of the piece afterwards.
type Turn = (usize, Result<usize, Failed>, &'static [u8]);

/// Bytes to write, and how many of them are taken.
type Taken = (&'static [u8], Result<usize, Failed>);

/// Bytes to write completely, and whether they are.
type Whole = (&'static [u8], Result<(), Failed>);

/// Pieces of eight bytes, of at most three each.
const PIECES: &[Turn] = &[
    (4, Ok(3), b"abc-"),
    (2, Ok(2), b"dec-"),
    (0, Ok(0), b"dec-"),
    (4, Ok(3), b"fgh-"),
    (4, Ok(0), b"fgh-"),
];

/// Reads, two of which fail.
const FAILING: &[Turn] = &[
    (2, Ok(2), b"ab"),
    (2, Err(Failed), b"ab"),
    (2, Err(Failed), b"ab"),
    (2, Ok(2), b"cd"),
];

/// Reads of 130 bytes, of at most 66 each.
const REPEATED: &[Turn] = &[
    (70, Ok(66), b"x\nxx----"),
    (62, Ok(62), b"x\nx\nxx----"),
    (0, Ok(0), b""),
    (70, Ok(2), b""),
    (70, Ok(0), b""),
];

/// Reads of three bytes.
const STANDARD: &[Turn] = &[(2, Ok(2), b"ab"), (2, Ok(1), b"cb"), (2, Ok(0), b"cb")];

/// A read that fails.
const BROKEN: &[Turn] = &[(2, Err(Failed), b"cb")];

/// Writes into a room of five bytes, of at most three each.
const FILLING: &[Taken] = &[
    (b"abcd", Ok(3)),
    (b"", Ok(0)),
    (b"defg", Ok(2)),
    (b"f", Err(Failed)),
    (b"", Ok(0)),
];

/// A write that fails.
const REFUSED: &[Taken] = &[(b"a", Err(Failed))];

/// A write of which nothing is taken, and a write of nothing.
const NOT_TAKEN: &[Taken] = &[(b"a", Err(Failed)), (b"", Ok(0))];

/// Writes into a room of seven bytes.
const FITTING: &[Whole] = &[(b"abcdefg", Ok(()))];

/// Writes into a full room.
const TOO_MANY: &[Whole] = &[(b"", Ok(())), (b"h", Err(Failed))];

/// A write that fails on the way.
const CUT: &[Whole] = &[(b"abcdefg", Err(Failed))];

/// A write after the failed one.
const BEHIND: &[Whole] = &[(b"xyz", Ok(()))];

/// Writes of five bytes.
const FIVE: &[Whole] = &[(b"abc", Ok(())), (b"de", Ok(()))];

/// Returns whether a read into the first `size` bytes of a piece has this result, and the piece then
/// ends with these bytes.
fn reads<S: Source>(
    source: &mut S,
    piece: &mut [u8],
    size: usize,
    wanted: Result<usize, Failed>,
    end: &[u8],
) -> bool {
    if size > piece.len() {
        return false;
    }
    source.read(&mut piece[..size]) == wanted && piece.ends_with(end)
}

/// Returns the place of the first of these reads that doesn't have its result.
fn wrong_read<S: Source>(source: &mut S, piece: &mut [u8], turns: &[Turn]) -> Option<usize> {
    for (place, turn) in turns.iter().enumerate() {
        let (size, wanted, end) = *turn;
        if !reads(source, piece, size, wanted, end) {
            return Some(place);
        }
    }
    None
}

/// Returns the place of the first of these writes that doesn't have its result.
fn wrong_write<K: Sink>(sink: &mut K, turns: &[Taken]) -> Option<usize> {
    for (place, turn) in turns.iter().enumerate() {
        let (bytes, wanted) = *turn;
        if sink.write(bytes) != wanted {
            return Some(place);
        }
    }
    None
}

/// Returns the place of the first of these complete writes that doesn't have its result.
fn wrong_whole<K: Sink>(sink: &mut K, turns: &[Whole]) -> Option<usize> {
    for (place, turn) in turns.iter().enumerate() {
        let (bytes, wanted) = *turn;
        if write_all(sink, bytes) != wanted {
            return Some(place);
        }
    }
    None
}

/// Returns whether these are the bytes that a sink has taken.
fn has_taken(sink: &MemorySink, bytes: &[u8]) -> bool {
    sink.bytes() == bytes
}

/// Returns a source of bytes in pieces whose reads all succeed, or `None` if out of memory.
fn source_of(alloc: Global, bytes: &[u8], piece: usize) -> Option<MemorySource>
    requires { 0 < piece }
{
    let bytes = bytes.to_vec(alloc).ok()?;
    Some(MemorySource::new(bytes, piece, Vec::new(alloc)))
}

/// Returns a source as `source_of` does, whose second and third reads fail.
fn failing_source(alloc: Global, bytes: &[u8], piece: usize) -> Option<MemorySource>
    requires { 0 < piece }
{
    let bytes = bytes.to_vec(alloc).ok()?;
    let fails = [1, 2].to_vec(alloc).ok()?;
    Some(MemorySource::new(bytes, piece, fails))
}

/// Returns a sink with room whose writes all succeed, or `None` if out of memory.
fn sink_of(alloc: Global, room: usize, piece: usize) -> Option<MemorySink>
    requires { 0 < piece }
{
    MemorySink::new(alloc, room, piece, Vec::new(alloc)).ok()
}

/// Returns a sink as `sink_of` does, whose third write fails.
fn failing_sink(alloc: Global, room: usize, piece: usize) -> Option<MemorySink>
    requires { 0 < piece }
{
    let fails = [2].to_vec(alloc).ok()?;
    MemorySink::new(alloc, room, piece, fails).ok()
}

#[test]
fn a_memory_source_gives_its_bytes_in_pieces_and_then_the_end(rt: HostRuntime) -> Result<(), Fail> {
    let mut source = source_of(rt.alloc(), b"abcdefgh", 3).ok_or("no memory")?;
    assert_eq!(rt; wrong_read(&mut source, &mut [b'-'; 4], PIECES), None);
    Ok(())
}

#[test]
fn the_listed_reads_fail_and_lose_no_byte(rt: HostRuntime) -> Result<(), Fail> {
    let mut source = failing_source(rt.alloc(), b"abcd", 2).ok_or("no memory")?;
    assert_eq!(rt; wrong_read(&mut source, &mut [b'-'; 2], FAILING), None);
    Ok(())
}

/// Returns a source that repeats a line of x, up to `left` bytes.
fn repeated(left: u64, piece: usize) -> RepeatSource
    requires { 0 < piece }
{
    let mut line = [b'x'; 64];
    line[63] = b'\n';
    RepeatSource::new(line, left, piece)
}

#[test]
fn a_repeat_source_gives_its_line_again_and_again_and_then_the_end(rt: HostRuntime) {
    let mut source = repeated(130, 66);
    assert_eq!(rt; wrong_read(&mut source, &mut [b'-'; 70], REPEATED), None);
}

#[test]
fn a_memory_sink_takes_pieces_until_its_room_is_full(rt: HostRuntime) -> Result<(), Fail> {
    let mut sink = sink_of(rt.alloc(), 5, 3).ok_or("no memory")?;
    assert_eq!(rt; wrong_write(&mut sink, FILLING), None);
    assert!(rt;
        has_taken(&sink, b"abcde"),
        "the sink contains the five bytes that fit"
    );
    Ok(())
}

#[test]
fn all_is_written_where_no_write_fails(rt: HostRuntime) -> Result<(), Fail> {
    let mut sink = sink_of(rt.alloc(), 7, 2).ok_or("no memory")?;
    assert_eq!(rt; wrong_whole(&mut sink, FITTING), None);
    assert!(rt; has_taken(&sink, b"abcdefg"), "the sink contains all bytes");
    assert_eq!(rt; wrong_whole(&mut sink, TOO_MANY), None);
    assert!(rt;
        has_taken(&sink, b"abcdefg"),
        "a full sink contains the same bytes after a refused write"
    );
    Ok(())
}

#[test]
fn a_front_is_written_where_a_write_fails(rt: HostRuntime) -> Result<(), Fail> {
    let mut sink = failing_sink(rt.alloc(), 7, 2).ok_or("no memory")?;
    assert_eq!(rt; wrong_whole(&mut sink, CUT), None);
    assert!(rt;
        has_taken(&sink, b"abcd"),
        "the sink contains the bytes before the failed write"
    );
    assert_eq!(rt; wrong_whole(&mut sink, BEHIND), None);
    assert!(rt;
        has_taken(&sink, b"abcdxyz"),
        "the bytes of the next write follow"
    );
    Ok(())
}

#[test]
fn a_standard_source_reads_its_reader_and_fails_where_that_fails(rt: HostRuntime) {
    let mut piece = [b'-'; 2];
    assert_eq!(rt;
        wrong_read(&mut StdSource::new(b"abc".as_slice()), &mut piece, STANDARD),
        None
    );
    assert_eq!(rt;
        wrong_read(&mut StdSource::new(Broken), &mut piece, BROKEN),
        None
    );
}

#[test]
fn a_standard_sink_writes_its_writer(rt: HostRuntime) {
    let mut taken = Vec::new(rt.alloc());
    assert_eq!(rt; wrong_whole(&mut StdSink::new(&mut taken), FIVE), None);
    assert!(rt;
        taken.as_slice() == b"abcde".as_slice(),
        "the writer has all five bytes"
    );
}

#[test]
fn a_standard_sink_fails_where_its_writer_fails_or_takes_nothing(rt: HostRuntime) {
    assert_eq!(rt; wrong_write(&mut StdSink::new(Broken), REFUSED), None);
    assert_eq!(rt; wrong_write(&mut StdSink::new(Closed), NOT_TAKEN), None);
}
