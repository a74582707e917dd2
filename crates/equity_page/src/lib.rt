//! The program for a host that isn't written in Rattle, such as a page in a browser: one call over bytes
//! in memory.
//!
//! It is a static library, and no Rattle code calls it. The host passes the bytes of the mode, the form,
//! and the input, and a buffer for the report and its length. The host must see that these don't overlap.
//! The run is that of `run_page`: it starts no thread, and of C it calls only the heap.
#![tactic(auto)]

ghost use Rattle.std.specs.Prelude.{◌≡◌, ◌<◌, ◌≤◌, ◌↔◌, IsUtf8};
ghost use Rattle.run_engine.specs.Page.{IsPageRun};

use run_engine::{INPUT_MAX, run_page};
use std::alloc::Global;

/// Runs the command `MODE --format FORM` over the input, writes the report to the beginning of the buffer
/// and its length into `written`, and returns the status of the run. 4 means that the buffer is full and
/// the report is longer. 7 means that the mode or the form isn't UTF-8, and 8 that memory was refused
/// before the run. With 7 and 8 the buffer and `written` are unchanged.
#[unsafe(no_mangle)]
pub extern "C" fn equity_page_run(
    alloc: Global,
    mode: &[u8],
    form: &[u8],
    input: &[u8],
    room: &mut [u8],
    written: &mut usize,
) -> u8
    ensures known { result ≤ 8 }
    ensures words { (result ≡ 7) ↔ (IsUtf8 mode.now × IsUtf8 form.now → ⊥) }
    ensures ran { result ≤ 6 →
        IsPageRun INPUT_MAX mode.now form.now input.now room.new written.new result }
    ensures unrun { 6 < result → (written.new ≡ written.old) × (room.new ≡ room.old) }
{
    run_page(alloc, mode, form, input, written, room)
}
