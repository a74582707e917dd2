//! Blocks that are gathered and written together: those of the hands that one piece closes. All that was
//! gathered is written before anything is read.

ghost use Rattle.std.specs.Prelude.{◌≡◌, ℕ, List, [], false, OnOk};
ghost use Rattle.byte_ends.specs.Ends.{WritesOut};
ghost use Rattle.hand_cuts.specs.Units.{UnitLines};
ghost use Rattle.hand_cuts.specs.declared.units.CutKind.{CutKind};
ghost use Rattle.run_loop.specs.Cutting.{Cuts};
ghost use Rattle.run_loop.specs.Gathering.{AsksOne, Gathers, WritesRest};
ghost use Rattle.run_loop.specs.declared.reading.Ending.TheVariants.{Open};

use crate::reading::{Input, next_unit};
use crate::write_fault::WriteFault;
use byte_ends::{Failed, Sink, Source, write_all};
use card_sets::Memory;
use hand_cuts::{INPUT_MAX, Unit};

/// How many bytes of blocks are gathered before they are written, if nothing is to be read before.
const GATHERED: usize = 65_536;

/// Writes what was gathered.
fn write_ready<K: Sink>(ready: &mut Vec<u8>, sink: &mut K) -> Result<(), Failed>
    ensures order { WritesOut K.writes sink.old sink.new ready.old.items result }
    ensures none { OnOk result (ready.new.items ≡ []) }
{
    match write_all(sink, ready) {
        Ok(()) => {}
        Err(fault) => return Err(fault),
    }
    ready.clear();
    Ok(())
}

/// The next hand or line. Where none that is held is closed, what was gathered is written, and then pieces
/// are read.
pub(crate) fn next_written<S: Source, K: Sink>(
    source: &mut S,
    input: &mut Input,
    ready: &mut Vec<u8>,
    sink: &mut K,
) -> Result<Option<Unit>, WriteFault>
    requires { input.old.ending ≡ Open → input.old.cutter.closed ≡ false }
    ensures order { (kind : CutKind) (bytes : List ℕ) (done : List UnitLines)
        → Cuts INPUT_MAX kind input.old bytes done
        → AsksOne S.reads K.writes INPUT_MAX source.old source.new sink.old sink.new kind
        input.old input.new bytes done ready.old.items ready.new.items result }
    ensures none { ready.old.items ≡ [] → OnOk result (ready.new.items ≡ []) }
{
    if let Some(unit) = input.cutter.next_unit() {
        return Ok(Some(unit));
    }
    match write_ready(ready, sink) {
        Ok(()) => {}
        Err(_) => return Err(WriteFault::Failed),
    }
    match next_unit(source, input) {
        Ok(next) => Ok(next),
        Err(Memory) => Err(WriteFault::Memory),
    }
}

/// Writes what was gathered, and a block after it.
fn write_behind<K: Sink>(block: &[u8], ready: &mut Vec<u8>, sink: &mut K) -> Result<(), Failed>
    ensures order { Gathers K.writes sink.old sink.new block.now ready.old.items ready.new.items result }
    ensures none { OnOk result (ready.new.items ≡ []) }
{
    match write_ready(ready, sink) {
        Ok(()) => write_all(sink, block),
        Err(fault) => Err(fault),
    }
}

/// A block more. It waits with those that were gathered, or all are written: where it may not wait, and where
/// there are many. Where there is no memory to gather it, it is written after them.
pub(crate) fn gather<K: Sink>(
    waits: bool,
    block: &[u8],
    ready: &mut Vec<u8>,
    sink: &mut K,
) -> Result<(), Failed>
    ensures order { Gathers K.writes sink.old sink.new block.now ready.old.items ready.new.items result }

    // Where it may not wait nothing does.
    ensures none { waits ≡ false → OnOk result (ready.new.items ≡ []) }
{
    match ready.extend_from_slice(block) {
        Ok(()) => {}
        Err(_) => return write_behind(block, ready, sink),
    }
    if waits && ready.len() < GATHERED {
        return Ok(());
    }
    write_ready(ready, sink)
}

/// Memory ran out. What was gathered is whole, and is written.
pub(crate) fn write_rest<K: Sink>(ready: &[u8], sink: &mut K) -> WriteFault
    ensures { WritesRest K.writes sink.old sink.new ready.now result }
{
    match write_all(sink, ready) {
        Ok(()) => WriteFault::Memory,
        Err(_) => WriteFault::Failed,
    }
}
