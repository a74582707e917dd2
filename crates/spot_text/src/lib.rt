//! Spot lines: the known cards of a deal, written in one line of words.
//!
//! A line is the word of a game and the hands, with a `-` between hands. After them may stand `--`
//! and the board, and then `/` and the dead cards, as in
//! `holdem As Ah - Kd Qd - 9c 9d -- Jd Td 2c / 3h`. Words stand between spaces and tabs.
//!
//! A hand is two cards in `holdem`, four in `omaha` and `omaha8`, three to seven in `stud`, `stud8` and
//! `razz`, and up to five that are kept in `draw5`, `lowball27` and `triple27`. Only the first three have
//! a board, of three, four or five cards.
//!
//! A line is read in place, in one walk over its words. The walk collects the hands, the board, the dead
//! cards, and the first card that appears twice. It ends at a word that is out of place. It keeps ten hands,
//! counts them up to eleven, and remembers whether the game allows the size of each. So a line is read in
//! time that grows with its length alone. `range_lines` reads the board and the dead cards of a line with
//! ranges by the same walk. The crate takes no memory. It knows neither where a line comes from nor what is
//! counted of it.
#![tactic(auto)]

mod cards;
mod faults;
mod games;
mod marks;
mod spot;
mod walk;
mod words;

pub use faults::SpotFault;
pub use games::{board_fits, players_within};
pub use marks::{ends_hands, is_dash};
pub use spot::read_spot;
pub use walk::{Collected, ReadHands, collect};
pub use words::{Words, has_word};
