//! The verbs of a player's line.

/// What a player's line may name, by its words.
#[derive(Clone, Copy)]
pub(crate) enum Verb {
    /// `posts small blind`.
    PostsSmall,
    /// `posts big blind`.
    PostsBig,
    /// `posts small & big blinds`.
    PostsBoth,
    /// `posts the ante`.
    PostsAnte,
    /// `brings in for`.
    BringsIn,
    /// `folds`.
    Folds,
    /// `checks`.
    Checks,
    /// `calls`.
    Calls,
    /// `bets`.
    Bets,
    /// `raises`.
    Raises,
    /// `shows`.
    Shows,
    /// `mucks hand`.
    Mucks,
    /// `doesn't show hand`.
    DoesntShow,
    /// `discards`.
    Discards,
    /// `stands pat`.
    StandsPat,
    /// `sits out`.
    SitsOut,
    /// `is sitting out`.
    IsSittingOut,
}
