//! What a pot holds, who may win it, and what its sides and their winners get.

ghost use Rattle.hand_laws.specs.Eligible.{ReachesLevels};
ghost use Rattle.hand_laws.specs.Different.{PotsDiffer};
ghost use Rattle.hand_laws.specs.Halves.{HalvesAddUp, HalvesAreShared};
ghost use Rattle.hand_laws.specs.Shared.{SharesAreEven};
ghost use Rattle.hand_laws.specs.DeadChips.{DeadChipsAreFirst};
ghost use Rattle.hand_laws.specs.ReturnLaws.{OthersMatch, UncalledComesBack};

/// In the pot of a level exactly those contenders are eligible who have paid up to that level: nobody
/// wins from a pot that he hasn't paid into in full, and nobody who has is left out.
pub fn law_eligible_players_reach_the_level()
    ensures { ReachesLevels }
{}

/// Where each player has a seat of the table of his own no two pots are for the same players: at each
/// level a contender stops.
pub fn law_no_two_pots_have_the_same_players()
    ensures { PotsDiffer }
{}

/// Two halves of some units add up to them, and the first is as much as the second, or one unit more.
pub fn law_two_halves_add_up()
    ensures { HalvesAddUp }
{}

/// The two sides of a pot get all of it, and the winners of a side all of what it gets. Where both sides
/// have winners the high gets as much as the low, or one unit more; where nobody wins the low the high
/// gets all.
pub fn law_two_sides_share_a_pot()
    ensures { HalvesAreShared }
{}

/// The winners of a side get as much as one another, or one unit more, and those who get more stand
/// earlier in the order.
pub fn law_winners_of_a_side_get_the_same_or_one_more()
    ensures { SharesAreEven }
{}

/// What nobody called over the whole hand, with its antes, may come back to the player who paid it. After it nobody alone has
/// most: another has as much as what is left of him, or nothing is. Where nothing is uncalled each player has another who put in
/// as much or more.
pub fn law_what_is_uncalled_comes_back()
    ensures accepted { UncalledComesBack }
    ensures matched { OthersMatch }
{}

/// Where there are two pots or more, all dead chips are in the first, and what a folded player put in above the highest level of
/// a contender is in the last.
pub fn law_dead_chips_are_in_the_first_pot()
    ensures { DeadChipsAreFirst }
{}
