//! What has a block each in a report.

/// What is reported of each hand.
#[derive(Clone, Copy)]
pub(crate) enum Detail {
    /// The verdict on the hand.
    Verdict,
    /// The verdict, and the equity of the hand's all-in.
    AllIn,
    /// The verdict, the equity of the all-in, and the equity on each later street.
    LaterStreets,
    /// What each player had, put in, got, and netted.
    Results,
    /// What the rules give of each pot, and what each player is still to get or to give back.
    Settlement,
}

impl Detail {
    ghost use Rattle.std.specs.Prelude.{◌≡◌};
    ghost use Rattle.run_loop.specs.Histories.{counts_equity};

    /// Returns whether an equity may be counted for the block of a hand.
    fn counts_equity(self) -> bool
        ensures { result ≡ counts_equity self }
    {
        match self {
            Detail::Verdict | Detail::Settlement => false,
            Detail::AllIn | Detail::LaterStreets | Detail::Results => true,
        }
    }
}

/// The holding of each player of a spot line.
#[derive(Clone, Copy)]
pub(crate) enum SpotKind {
    /// The cards of a hand.
    Cards,
    /// A range of hands.
    Ranges,
}

/// The kind of the blocks of a report.
#[derive(Clone, Copy)]
pub(crate) enum BlockKind {
    /// One block for each spot.
    Spots {
        /// Holding of each player.
        holding: SpotKind,
    },
    /// One block for each hand.
    Hands {
        /// What is reported of each hand.
        told: Detail,
    },
}

impl BlockKind {
    ghost use Rattle.std.specs.Prelude.{◌≡◌, not};
    ghost use Rattle.run_loop.specs.UnitBlocks.{counts_equities};

    /// Returns whether an equity may be counted for a block of this kind.
    fn counts_equities(self) -> bool
        ensures { result ≡ counts_equities self }
    {
        match self {
            BlockKind::Hands { told } => told.counts_equity(),
            BlockKind::Spots { holding: _ } => true,
        }
    }

    /// Returns whether a block of this kind may wait for the blocks after it. It may if none of them takes long, which is so if no
    /// equity is counted for them.
    pub(crate) fn may_wait(self) -> bool
        ensures { result ≡ not (counts_equities self) }
    {
        !self.counts_equities()
    }
}
