//! A law of the reading of a line with ranges: the function is empty, and its clauses are the law.

ghost use Rattle.text_laws.specs.WrittenRanges.{RangesAreRead, WrongBoardsAreRefused, WrongPlayersAreRefused, ShortDecksAreRefused};

/// A line of ranges, a board, and dead cards, none of the cards twice, is read as it is written, if two to
/// four players have ranges, if there is no board, a flop, a turn, or a river, and if the deck without the
/// dead cards has five cards for the board and two for each player. Otherwise it is refused: first for its
/// board, then for its players, then for its deck.
pub fn law_written_ranges_are_read()
    ensures read { RangesAreRead }
    ensures board { WrongBoardsAreRefused }
    ensures players { WrongPlayersAreRefused }
    ensures deck { ShortDecksAreRefused }
{}
