//! Runs between ends over memory.

ghost use Rattle.run_loop.specs.MemoryRuns.{MemoryRuns};

/// A law: of a run in order between ends over memory of which no call is listed to fail, no read fails, and a write fails only
/// where the room is full and more is due.
pub fn law_memory_runs_are_cut_short_by_room_alone()
    ensures { MemoryRuns }
{}
