//! What is counted of a spot with ranges.

/// How the runouts of all choices of one hand from each range end for a player, each as often as its
/// choice counts.
#[derive(Clone, Copy)]
pub struct RangeCell {
    /// The runouts in which the player's hand alone is best.
    pub win: u128,
    /// The runouts in which it is one of several best.
    pub tie: u128,
    /// The runouts in which a better hand is best.
    pub lose: u128,
}

/// What all choices of one hand from each range add up to. A choice counts as often as the product of
/// its hands' weights says.
#[derive(Clone, Copy)]
pub struct RangeTally {
    /// The choices in which no card is in two hands.
    pub choices: u64,
    /// The runouts of each choice.
    pub runouts: u64,
    /// How often the choices count together.
    pub weight: u128,
    /// How the runouts end for each player.
    pub cells: [RangeCell; 4],
    /// The units of 1/5040 of the pot that each player has over the runouts.
    pub units: [u128; 4],
}

/// Why the choices aren't counted.
#[derive(Clone, Copy)]
pub enum RangeJobFault {
    /// Their runouts are more than may be counted.
    AboveLimit,
    /// There is no choice in which no card is in two hands.
    NoChoice,
}
