//! A stream that is cut piece by piece.

ghost use Rattle.std.specs.Prelude.{◌≡◌, ◌+◌, ◌≤◌, ◌↔◌, ◌++◌, [], IsNone, IfSome, OnOk, OnErr, length, drop, false, true};
ghost use Rattle.hand_cuts.specs.Cutters.{Forgets, Gives, new_cutter, units_left};

use crate::hands::{cut_hand, find_head};
use crate::limits::INPUT_MAX;
use crate::lines::cut_line;
use crate::scan::Scan;
use crate::units::{CutKind, Unit};
use card_sets::Memory;
use std::alloc::Global;
use std::marker::Model;

/// A stream that is cut into hands or lines. It keeps the bytes handed out since `forget` and the bytes
/// not yet handed out. It also keeps how far they were examined, so small pieces don't cause a second look
/// at the same bytes.
#[derive(Drop)]
pub struct Cutter {
    /// Whether the cutter cuts hands or lines.
    kind: CutKind,
    /// The bytes handed out since `forget`, and the bytes not yet handed out.
    bytes: Vec<u8>,
    /// How far the bytes were examined.
    scan: Scan,
    /// The number of bytes given in all.
    given: usize,
    /// Whether no more bytes follow.
    closed: bool,
}

impl Model for Cutter {
    ghost use Rattle.hand_cuts.specs.CutterState.{CutterState};

    ghost Value = { CutterState };

    ghost use Rattle.hand_cuts.specs.Sound.{view_of, IsSound};

    ghost view = { view_of };

    ghost invariant = { IsSound };
}

impl Cutter {
    /// Returns a cutter to which no bytes were given.
    pub fn new(alloc: Global, kind: CutKind) -> Cutter
        ensures { result ≡ new_cutter kind }
    {
        Cutter {
            kind,
            bytes: Vec::new(alloc),
            scan: Scan::start(),
            given: 0,
            closed: false,
        }
    }

    /// Takes the next piece of the stream. `Memory` changes nothing.
    pub fn give(&mut self, piece: &[u8]) -> Result<(), Memory>
        requires open { self.old.closed ≡ false }
        requires few { self.old.given + length piece.now ≤ INPUT_MAX }
        ensures given { OnOk result (self.new ≡ record self.old {
          held = self.old.held ++ piece.now;
          given = self.old.given + length piece.now;
        }) }
        ensures refused { OnErr result (self.new ≡ self.old) }
    {
        self.bytes.extend_from_slice(piece)?;
        self.given += piece.len();
        Ok(())
    }

    /// Ends the stream: no piece follows.
    pub fn close(&mut self)
        ensures { self.new ≡ record self.old { closed = true } }
    {
        self.closed = true;
    }

    /// Returns the next hand or line, by its places in the bytes of the cutter, or `None` if the rest has
    /// none.
    pub fn next_unit(&mut self) -> Option<Unit>
        ensures none { IsNone result ↔ (units_left self.old ≡ []) }
        ensures same { IsNone result → self.new ≡ self.old }
        ensures some { IfSome result (λ unit. Gives self.old self.new unit) }
        ensures few { self.new.line ≤ INPUT_MAX + 1 }
    {
        match self.kind {
            CutKind::Hands => cut_hand(&self.bytes, self.closed, &mut self.scan),
            CutKind::Lines => cut_line(&self.bytes, self.closed, &mut self.scan),
        }
    }

    /// Returns the bytes of the cutter.
    pub fn held(&self) -> &[u8]
        ensures bytes { result.now ≡ self.now.held }
        ensures within { self.now.at ≤ length self.now.held }
    {
        &self.bytes
    }

    /// Returns the number of bytes given in all.
    pub fn given(&self) -> usize
        ensures value { result ≡ self.now.given }
        ensures few { result ≤ INPUT_MAX }
    {
        self.given
    }

    /// Drops the bytes that were handed out and, if hands are cut, the lines before the first header line.
    /// Places returned before are no longer valid.
    pub fn forget(&mut self)
        ensures { Forgets self.old self.new }
    {
        find_head(&self.bytes, self.kind, &mut self.scan);
        let (from, line) = self.scan.start_of_rest();
        drop_front(&mut self.bytes, from);
        self.scan.shift(from, line);
    }
}

/// Drops the bytes before a place, and moves the others to the beginning.
fn drop_front(bytes: &mut Vec<u8>, from: usize)
    requires { from ≤ length bytes.old.items }
    ensures { bytes.new.items ≡ drop from bytes.old.items }
{
    if from == 0 {
        return;
    }
    let left = bytes.len() - from;
    bytes.copy_within(from.., 0);
    bytes.truncate(left);
}
