//! A run over bytes in memory, for a host such as a page in a browser: the words `MODE --format FORM`, an input, and room for the
//! report.
//!
//! The run is that of `run_alone`: no thread is started. `equity_page` exports the call to hosts that aren't Rattle.

ghost use Rattle.std.specs.Prelude.{◌≡◌, ◌<◌, ◌≤◌, ◌↔◌, ◌∷◌, [], IsUtf8, Some, IfOk, codes, length, map, string_bytes, take};
ghost use Rattle.command_words.specs.Command.{command};
ghost use Rattle.run_loop.specs.Headline.{IsRun};
ghost use Rattle.run_loop.specs.MemoryRuns.{IsMemoryRun};
ghost use Rattle.run_engine.specs.Page.{IsPageRun};

use crate::runs::run_alone;
use byte_ends::{MemorySink, MemorySource};
use run_loop::{INPUT_MAX, law_memory_runs_are_cut_short_by_room_alone};
use std::alloc::{AllocError, Global};

/// The status where the mode or the form is no text.
const NO_WORDS: u8 = 7;

/// The status where memory is refused before the run.
const NO_MEMORY: u8 = 8;

/// How many bytes are read or written at once.
const PIECE: usize = 65536;

/// The words `MODE --format FORM`.
fn words_of(alloc: Global, mode: &str, form: &str) -> Result<Vec<String>, AllocError>
    ensures { IfOk result (λ words.
        map string_bytes words.items ≡ mode.now ∷ codes "--format" ∷ form.now ∷ []) }
{
    let mut words = Vec::new(alloc);
    words.push(String::from_str(alloc, mode)?)?;
    words.push(String::from_str(alloc, "--format")?)?;
    words.push(String::from_str(alloc, form)?)?;
    Ok(words)
}

/// A source of the input.
fn source_of(alloc: Global, input: &[u8]) -> Result<MemorySource, AllocError>
    ensures { IfOk result (λ source. source ≡ record {
      left = input.now;
      piece = 65536;
      fails = [];
      calls = 0;
      faults = 0;
    }) }
{
    Ok(MemorySource::new(input.to_vec(alloc)?, PIECE, Vec::new(alloc)))
}

/// Runs the words between these ends, of which no call is listed to fail.
fn run_between(
    alloc: Global,
    words: &[String],
    source: &mut MemorySource,
    sink: &mut MemorySink,
) -> u8
    requires reads { source.old.fails ≡ [] }
    requires writes { sink.old.fails ≡ [] }
    requires empty { sink.old.taken ≡ [] }
    ensures run { IsRun INPUT_MAX (command (map string_bytes words.now)) result
        (record {
          left = Some source.old.left;
          read_faults = source.old.faults;
          taken = Some sink.old.taken;
          write_faults = sink.old.faults;
        })
        (record {
          left = Some source.new.left;
          read_faults = source.new.faults;
          taken = Some sink.new.taken;
          write_faults = sink.new.faults;
        }) }
    ensures memory { IsMemoryRun INPUT_MAX (command (map string_bytes words.now)) result
        source.old sink.old source.new sink.new }
{
    law_memory_runs_are_cut_short_by_room_alone();
    run_alone(alloc, words, source, sink)
}

/// Puts the report into the front of the room.
fn put(report: &[u8], room: &mut [u8])
    requires { length report.now ≤ length room.old }
    ensures { take (length report.now) room.new ≡ report.now }
{
    room[..report.len()].copy_from_slice(report);
}

/// Runs the command `MODE --format FORM` over the input, puts the report into the front of the room and its length into
/// `written`, and returns the status of the run. 4 says that the room is full and more was due. 7 says that the mode or the form
/// isn't UTF-8, and 8 that memory was refused before the run. Under 7 and 8 the room and `written` stay as they were.
pub fn run_page(
    alloc: Global,
    mode: &[u8],
    form: &[u8],
    input: &[u8],
    written: &mut usize,
    room: &mut [u8],
) -> u8
    ensures known { result ≤ 8 }
    ensures words { (result ≡ 7) ↔ (IsUtf8 mode.now × IsUtf8 form.now → ⊥) }
    ensures ran { result ≤ 6 →
        IsPageRun INPUT_MAX mode.now form.now input.now room.new written.new result }
    ensures unrun { 6 < result → (written.new ≡ written.old) × (room.new ≡ room.old) }
{
    let (Ok(mode), Ok(form)) = (std::str::from_utf8(mode), std::str::from_utf8(form)) else {
        return NO_WORDS;
    };
    let Ok(words) = words_of(alloc, mode, form) else {
        return NO_MEMORY;
    };
    let Ok(mut source) = source_of(alloc, input) else {
        return NO_MEMORY;
    };
    let Ok(mut sink) = MemorySink::new(alloc, room.len(), PIECE, Vec::new(alloc)) else {
        return NO_MEMORY;
    };
    let status = run_between(alloc, &words, &mut source, &mut sink);
    let report = sink.bytes();
    put(report, room);
    *written = report.len();
    status
}
