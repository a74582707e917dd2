//! Laws that say in plain words what a replay keeps. Each law is a call that does nothing.

ghost use Rattle.betting_replay.specs.Accepted.{ShowsSeats, ShowsDead};
ghost use Rattle.betting_replay.specs.KnownLaws.{KnowsAllDealt};
ghost use Rattle.betting_replay.specs.CardLaws.{PlacesAreApart, CardsBelongAfter, WholeBoards};

/// The table of some events has at each seat the effect of these events on the seat. So if a replay is
/// that table, the value of each accessor follows from the events.
pub fn law_a_table_shows_each_seat()
    ensures { ShowsSeats }
{}

/// The table of some events has the cards that are dead by these events.
pub fn law_a_table_shows_dead_cards()
    ensures { ShowsDead }
{}

/// Each card has one place, a board or a seat: two places share no card.
pub fn law_places_are_apart()
    ensures { PlacesAreApart }
{}

/// After any accepted events the known cards of a seat belong to it, their number is that of the game, and
/// they are in no other seat and on no board. The cards of the board belong to the board. Dead cards are
/// on no board, and aren't known cards of a player who hadn't folded at the all-in point.
pub fn law_cards_belong()
    ensures { CardsBelongAfter }
{}

/// After any accepted events in which each marker has the number of cards of its street, a board never has
/// too many cards. If the last street has begun, it has all, and at the all-in point it has the cards of
/// the streets up to that point. The second board of a hand that is run twice does too. If there was a
/// showdown or summary marker, the last street has begun on each board, or fewer than two players are
/// left.
pub fn law_whole_boards()
    ensures { WholeBoards }
{}

/// The known cards of a player on a street of a stud game are all that they were dealt up to it: three on
/// the first street, one more on each of fourth to sixth, and seven on the river.
pub fn law_stud_cards_are_all_that_were_dealt()
    ensures { KnowsAllDealt }
{}
