//! Laws in plain words: who may win no pot, and in which order odd units go. Each law is a call that does
//! nothing.

ghost use Rattle.pot_layers.specs.Eligible.{ExcludesFolded};
ghost use Rattle.pot_layers.specs.Split.{OrdersItsSeats};

/// A player who has folded is eligible for no pot, whatever they have paid.
pub fn law_a_folded_player_is_eligible_nowhere()
    ensures { ExcludesFolded }
{}

/// A list of different seats of the table is an order of its seats, as a split needs.
pub fn law_a_list_orders_its_seats()
    ensures { OrdersItsSeats }
{}
