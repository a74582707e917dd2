//! Laws about the units of any bytes.

ghost use Rattle.hand_cuts.specs.ClosedBytes.{ClosedHandsByBytes};
ghost use Rattle.hand_cuts.specs.Laws.{ClosedUnitsStay};

/// A law: the closed units of some bytes are the first units of these bytes with any others after
/// them, whether more may follow or not.
pub fn law_closed_units_stay()
    ensures { ClosedUnitsStay }
{}

/// A law: the closed hands of some bytes are the hands of the bytes before the last header line
/// that has its newline.
pub fn law_closed_hands_by_bytes()
    ensures { ClosedHandsByBytes }
{}
