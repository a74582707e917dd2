//! Laws about the blocks of a listing of runouts. Each law is a call that does nothing.

ghost use Rattle.std.specs.Prelude.{◌≡◌, ℕ, ◌<◌, ◌++◌, List, length};
ghost use Rattle.showdown_tally.specs.Cells.{Sums, IsSum};
ghost use Rattle.showdown_tally.specs.Showdown.{Showdown};
ghost use Rattle.showdown_tally.specs.Tallies.{Counts};
ghost use Rattle.job_blocks.specs.Blocks.{block_of, blocks_of, blocks_below, IsTotal};

/// The blocks joined are all runouts in their order: each runout is in exactly one block.
pub fn law_blocks_are_all()
    ensures { (all : List (List (List ℕ))) → blocks_below all (blocks_of (length all)) ≡ all }
{}

/// The sums of two parts of a listing add up to those of both.
pub fn law_block_sums_add()
    ensures { (deal : Showdown) (some more : List (List (List ℕ))) (old other new : Sums)
        → Counts deal some old → Counts deal more other → IsSum old other new
        → Counts deal (some ++ more) new }
{}

/// The sums of all blocks add up to those of all runouts.
pub fn law_blocks_add_up()
    ensures { (deal : Showdown) (all : List (List (List ℕ))) (part : ℕ → Sums) (total : Sums)
        → ((block : ℕ) → block < blocks_of (length all)
        → Counts deal (block_of all block) (part block))
        → IsTotal part (blocks_of (length all)) total → Counts deal all total }
{}
