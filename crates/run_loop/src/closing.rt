//! The closed part of some bytes: what stays a front of the report whatever bytes follow.

ghost use Rattle.run_loop.specs.Laws.{ClosedBlocksStay};

/// A law: the report of the closed part is a front of the report, whatever bytes follow.
pub fn law_closed_blocks_stay()
    ensures { ClosedBlocksStay }
{}
