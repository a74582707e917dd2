//! The last cards of a runout, and what counts them.

ghost use Rattle.std.specs.Prelude.{◌≡◌, ℕ, suc, ◌+◌, ◌-◌, ◌*◌, ◌<◌, ◌≤◌, ◌++◌, [], ◌∷◌, List, length, map};
ghost use Rattle.std.specs.List.{slice_range};
ghost use Rattle.card_sets.specs.Cards.{IsCardSet, IsRising};
ghost use Rattle.card_sets.specs.Choose.{choose};
ghost use Rattle.runout_ranges.specs.Runouts.{HasMember};
ghost use Rattle.runout_ranges.specs.Slots.{slots, unseen};
ghost use Rattle.showdown_tally.specs.Showdown.{Showdown};
ghost use Rattle.showdown_tally.specs.SideCounts.{CountsFit, CountsGrow};
ghost use Rattle.showdown_tally.specs.Tallies.{runouts_after};
ghost use Rattle.runout_walk.specs.Listing.{IsEndOf, left_after};

use card_sets::CardSet;
use std::sync::ledger::Ledger;
use step_count::Steps;

/// A slot that has some cards, and gets `left` more of the rest.
#[derive(Clone, Copy)]
pub struct OpenSlot {
    /// The cards that it has.
    pub taken: CardSet,
    /// The cards that may come to them, which lie above them.
    pub rest: CardSet,
    /// How many it gets.
    pub left: u32,
}

/// Some runouts that differ in their last cards alone: those of the listing from one place to another.
#[derive(Clone, Copy)]
pub struct Span<'a> {
    /// The sets of the slots before the last.
    pub front: &'a [CardSet],
    /// The last slot.
    pub tail: OpenSlot,
    /// The first place, in the listing of the ways to fill the last slot.
    pub lo: u64,
    /// The place after the last.
    pub hi: u64,
}

/// Counts the runouts that differ in their last cards alone.
pub trait Leaf {
    /// The deal whose runouts are counted.
    ghost deal: { Self → Showdown };

    /// How many cards of the last slot are dealt at once.
    ghost depth: { Showdown → ℕ };

    /// How many cards of the last slot are dealt at once.
    fn depth(&self) -> u32
        ensures { result ≡ depth (deal self.now) };

    /// Counts the runouts in which the slots before the last have these sets, and the last one has some cards and gets more of the rest,
    /// from one place of the listing of these to another: for each pot, on each side. It takes a step a runout.
    fn count<L: Ledger>(&mut self, counts: &mut [[u32; 2048]], span: &Span, steps: &mut Steps<L>)
        // The front has all slots but the last one, which gets as many cards more as the leaf deals at once.
        requires last { suc (length span.now.front.now) ≡ length (slots (deal self.old).state) }
        requires deep { span.now.tail.left ≡ depth (deal self.old) }

        // What the last slot has lies below the rest, which is the end of what is unseen, and each way to fill it makes a runout.
        requires above { IsCardSet span.now.tail.rest → IsRising (span.now.tail.taken ++ span.now.tail.rest) }
        requires end { IsEndOf span.now.tail.rest (left_after (unseen (deal self.old).state) span.now.front.now) }
        requires members { (more : List ℕ) → HasMember (choose span.now.tail.left span.now.tail.rest) more
            → HasMember (runouts_after (deal self.old).state)
            (span.now.front.now ++ (span.now.tail.taken ++ more) ∷ []) }

        // There is something between the places, and they lie in the listing of these ways.
        requires order { span.now.lo < span.now.hi }
        requires inside { span.now.hi ≤ length (choose span.now.tail.left span.now.tail.rest) }

        // Each pot has its two rows, and each of their counts has room for all that are counted.
        requires places { 2 * length (deal self.old).pots ≤ length counts.old }
        requires fits { CountsFit (deal self.old) counts.old (span.now.hi - span.now.lo) }

        // The runouts between the places are counted, and no others.
        ensures counts { CountsGrow (deal self.old)
            (map (λ more. span.now.front.now ++ (span.now.tail.taken ++ more) ∷ [])
            (slice_range (choose span.now.tail.left span.now.tail.rest) span.now.lo span.now.hi)) counts.old counts.new }

        // Sizes and deal stay, and the steps are as many as the runouts, whatever the leaf looks at.
        ensures places { length counts.new ≡ length counts.old }
        ensures steps { steps.new ≡ steps.old + (span.now.hi - span.now.lo) }
        ensures deal { deal self.new ≡ deal self.old };
}
