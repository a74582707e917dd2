//! The reading of the input, piece by piece, as far as its hands or lines are asked for.

ghost use Rattle.std.specs.Prelude.{◌≡◌, ◌-◌, ◌≤◌, ◌<◌, ℕ, List, [], IfOk, false};
ghost use Rattle.hand_cuts.specs.Units.{UnitLines};
ghost use Rattle.hand_cuts.specs.Cutters.{Forgets, units_left};
ghost use Rattle.hand_cuts.specs.declared.units.CutKind.{CutKind};
ghost use Rattle.run_loop.specs.Cutting.{Cuts, PullsOne, ReadsOne};
ghost use Rattle.run_loop.specs.declared.reading.Ending.TheVariants.{Open};

use crate::units::UnitText;
use byte_ends::Source;
use card_sets::Memory;
use hand_cuts::{CutKind, Cutter, INPUT_MAX, Unit};
use std::alloc::Global;

/// How many bytes are asked for in one read.
const PIECE: usize = 16_384;

/// How the reading ended, or that it goes on.
#[derive(Clone, Copy)]
pub(crate) enum Ending {
    /// At the end of the input.
    Whole,
    /// At a read that failed.
    Failed,
    /// At a byte above the limit.
    TooLong,
    /// It goes on.
    Open,
}

/// The input: what is held of it, and how its reading ended.
#[derive(Drop)]
pub(crate) struct Input {
    /// The bytes that are held, and what is cut off them.
    pub(crate) cutter: Cutter,
    /// How the reading ended, if it has.
    pub(crate) ending: Ending,
}

impl Input {
    ghost use Rattle.std.specs.Prelude.{◌≡◌};
    ghost use Rattle.hand_cuts.specs.Cutters.{seen};
    ghost use Rattle.hand_cuts.specs.declared.units.CutKind.{CutKind};
    ghost use Rattle.run_loop.specs.Units.{IsUnit, started, unit_lines};

    /// Nothing was read.
    pub(crate) fn start(alloc: Global, kind: CutKind) -> Input
        ensures { result ≡ started kind }
    {
        Input {
            cutter: Cutter::new(alloc, kind),
            ending: Ending::Open,
        }
    }

    /// Returns the lines of a unit of the bytes that are held.
    pub(crate) fn text_of(&self, unit: &Unit) -> UnitText<'_>
        requires unit { (kind : CutKind) × IsUnit INPUT_MAX kind self.now.cutter.held unit.now }
        ensures { unit_lines result ≡ seen self.now.cutter.held unit.now }
    {
        UnitText {
            first: unit.first_line,
            bytes: &self.cutter.held()[unit.first..unit.end],
        }
    }
}

/// Drops all that isn't open, and answers how many bytes may still be given.
fn make_room(cutter: &mut Cutter) -> usize
    ensures forgets { Forgets cutter.old cutter.new }
    ensures room { result ≡ INPUT_MAX - cutter.new.given }
    ensures few { cutter.new.given ≤ INPUT_MAX }
{
    cutter.forget();
    INPUT_MAX - cutter.given()
}

/// Reads one piece, and answers how the reading ended, or that it goes on. What is held then is the text that was open and the piece:
/// what was handed out is dropped first. After a failed read, and out of memory, it is the open text.
fn read_piece<S: Source>(source: &mut S, cutter: &mut Cutter) -> Result<Ending, Memory>
    requires open { cutter.old.closed ≡ false }

    // All hands or lines that are closed were handed out.
    requires none { units_left cutter.old ≡ [] }
    ensures order { (kind : CutKind) (bytes : List ℕ) (done : List UnitLines)
        → Cuts INPUT_MAX kind (record { cutter = cutter.old; ending = Open }) bytes done
        → ReadsOne S.reads INPUT_MAX source.old source.new kind cutter.old cutter.new bytes
        done result }
    ensures onward { IfOk result (λ ending. ending ≡ Open
        → (cutter.old.given < cutter.new.given) × (cutter.new.given ≤ INPUT_MAX)) }
    ensures closed { IfOk result (λ ending. ending ≡ Open → cutter.new.closed ≡ false) }
{
    let room = make_room(cutter);
    let mut piece = [0u8; PIECE];
    let Ok(count) = source.read(&mut piece) else {
        return Ok(Ending::Failed);
    };
    if count == 0 {
        cutter.close();
        return Ok(Ending::Whole);
    }
    if count > room {
        let Ok(()) = cutter.give(&piece[..room]) else {
            return Err(Memory);
        };
        return Ok(Ending::TooLong);
    }
    let Ok(()) = cutter.give(&piece[..count]) else {
        return Err(Memory);
    };
    Ok(Ending::Open)
}

/// The next hand or line; pieces are read as long as none is closed. None where the reading has ended and
/// none is left. Each turn of the loop takes a byte or is the last but one.
pub(crate) fn next_unit<S: Source>(
    source: &mut S,
    input: &mut Input,
) -> Result<Option<Unit>, Memory>
    requires { input.old.ending ≡ Open → input.old.cutter.closed ≡ false }
    ensures { (kind : CutKind) (bytes : List ℕ) (done : List UnitLines)
        → Cuts INPUT_MAX kind input.old bytes done
        → PullsOne S.reads INPUT_MAX source.old source.new kind input.old input.new bytes done result }
{
    'pieces: loop {
        if let Some(unit) = input.cutter.next_unit() {
            return Ok(Some(unit));
        }
        let Ending::Open = input.ending else {
            return Ok(None);
        };
        match read_piece(source, &mut input.cutter) {
            Ok(ending) => input.ending = ending,
            Err(Memory) => return Err(Memory),
        }
    }
}
