//! The book of a count: which blocks of a job are counted, and the sum of their tallies.
//!
//! Several workers may share a `Book` under a lock. A worker that has the lock posts a block with
//! its tally. Whoever posted, and in any order, the total of the book is the sum of the tallies of
//! exactly the marked blocks, each once. A block that is posted again is `Already` counted, and
//! isn't added again. So a book in which every block is marked has the total of all runouts, and
//! nothing need be known of what the workers did.
//!
//! Each worker posts with a `Part` of its own, which counts its `Fresh` posts and has the set of the
//! blocks that it handed in. Parts are shares of one ledger of fresh posts. They are split off one
//! another and merged again. A part that has the whole ledger has one fresh post for each mark. So
//! `Book::close` can return the number of posted blocks.
//!
//! - Blocks are numbers from 0, of the job that `Naming` names.
//! - `Book::start` allocates the marks, one byte for each block, and can return `Memory`. Nothing
//!   else here allocates.
//! - Clauses see a book as its marks and its total, and a part as the number of its parts of the
//!   ledger, its number of fresh posts, and the words of its set.
#![tactic(auto)]

mod book;
mod limits;
mod naming;
mod part;

pub use book::{Book, Closed, Posted};
pub use limits::{BLOCKS_MAX, WORDS};
pub use naming::Naming;
pub use part::Part;
