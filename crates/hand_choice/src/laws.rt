//! A law about the fives that a game allows.

ghost use Rattle.hand_choice.specs.AllowedFives.{AllowsFives};

/// Every five that a game allows has five cards.
pub fn law_fives_have_five_cards()
    ensures { AllowsFives }
{}
