//! A run as a value: the command, the input, and the writer of blocks. Each call borrows the source and the sink.

ghost use Rattle.std.specs.Prelude.{◌≡◌};
ghost use Rattle.run_loop.specs.Units.{started};

use crate::counter::{Counter, Equities, EquityCounter};
use crate::reading::Input;
use command_words::Command;
use hand_cuts::CutKind;
use std::alloc::Global;

/// The writer of blocks. It makes one block at a time, in memory.
#[derive(Drop)]
pub(crate) struct BlockWriter<'a, C: Counter> {
    /// Allocator of the block, and of each hand that is read for it.
    pub(crate) alloc: Global,
    /// The equities that the blocks report.
    pub(crate) equities: Equities<'a, C>,
    /// Bytes of the last block.
    pub(crate) block: Vec<u8>,
}

/// A run: the command, what was read, and the writer of what is due.
#[derive(Drop)]
pub(crate) struct Run<'a, C: Counter> {
    /// The command.
    pub(crate) asked: Command,
    /// The part of the input that is held, and how its reading ended.
    pub(crate) input: Input,
    /// The writer of the blocks.
    pub(crate) writer: BlockWriter<'a, C>,
}

impl<'a, C: Counter> Run<'a, C> {
    /// Creates a run that has read nothing. Its input is cut into units of this kind.
    pub(crate) fn start(
        alloc: Global,
        asked: Command,
        kind: CutKind,
        counter: &'a mut EquityCounter<C>,
    ) -> Run<'a, C>
        requires ready { C.ready }
        ensures asked { result.asked ≡ asked }
        ensures start { result.input ≡ started kind }
    {
        Run {
            asked,
            input: Input::start(alloc, kind),
            writer: BlockWriter {
                alloc,
                equities: Equities::new(counter, asked.workers),
                block: Vec::new(alloc),
            },
        }
    }
}
