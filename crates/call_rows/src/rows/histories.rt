//! Tests of hand histories: their lines, where a hand ends, replays, and made hands.

mod cuts;
mod game_lines;
mod headers;
mod lines;
mod made;
mod names;
mod replays;
