//! Whose turn it is, what a seat has, and who is at the all-in point, after some events.

ghost use Rattle.hand_laws.specs.StackLaws.{KeepsChips};
ghost use Rattle.hand_laws.specs.TurnLaws.{TakesTurns, PassesNobodyOver};
ghost use Rattle.hand_laws.specs.PointLaws.{PointsHaveContenders};

/// Where an act may stand the actor may act, and nobody who owes an act comes before him; where a
/// marker may stand nobody owes one.
pub fn law_turns_are_taken()
    ensures { TakesTurns }
{}

/// After accepted events, where an act stands, whoever sits strictly between the last actor of the street
/// and its player owes no act, going up by seat and around the table. And where an act is refused as out
/// of turn, the seat that is told owes one, sits between the two, and is the nearest to the last actor.
pub fn law_nobody_is_passed_over()
    ensures { PassesNobodyOver }
{}

/// After any accepted events a seat's stack, what it has paid and its dead chips are together what its
/// seat line gave, and nothing before that line: no event makes chips, and none loses any.
pub fn law_chips_stay()
    ensures { KeepsChips }
{}

/// An all-in point has two contenders or more, all of them players, and whoever is a contender after
/// any more events was one there.
pub fn law_a_point_has_contenders()
    ensures { PointsHaveContenders }
{}
