//! To whom odd units go.

ghost use Rattle.hand_laws.specs.HeightLaws.{HeightsAreUsual};
ghost use Rattle.hand_laws.specs.OddLaws.{OddUnitsGoInOrder};

/// A law on marks. On the low side an ace counts below all other cards, which keep their order; on the high side each card
/// counts as it is numbered.
pub fn law_an_ace_is_lowest_on_the_low_side()
    ensures { HeightsAreUsual }
{}

/// A law on odd units. In a game with a board or a draw each winner in their order is further to the left of the button than
/// the one before, and without a button they go from seat 1 on. In a stud game no winner has a higher mark than the one
/// before.
pub fn law_odd_units_go_in_order()
    ensures { OddUnitsGoInOrder }
{}
