//! Jobs of spot lines.

use equity_job::Job;
use report_table::table_alone;
use spot_text::read_spot;
use tally_book::Closed;

/// Aces against kings before the flop: 1,712,304 runouts in 27 blocks.
pub(crate) const ACES_AND_KINGS: &[u8] = b"holdem As Ah - Ks Kh";

/// Three stud hands on fifth street with fourteen dead cards. Each of them gets two of 23 cards, in 253 *
/// 210 * 171 ways: 9,085,230 runouts in 139 blocks.
pub(crate) const FIFTH_STREET: &[u8] = b"stud As Ad Ah Ac 2c - Ks Kd Kh Kc 2d - Qs Qd Qh Qc 2h \
/ 2s 3c 3d 3h 3s 4c 4d 4h 4s 5c 5d 5h 5s 6c";

/// Returns the job of a spot line, or `None` if the line or its number of runouts is refused.
pub(crate) fn job_of(line: &[u8]) -> Option<Job> {
    let Ok(known) = read_spot(line) else {
        return None;
    };
    match Job::make(&table_alone(known)) {
        Ok(job) => Some(job),
        Err(_) => None,
    }
}

/// Returns whether a count of aces and kings has each runout, and each block by a worker.
pub(crate) fn has_all_blocks(closed: &Closed) -> bool {
    closed.total.runouts() == 1_712_304 && closed.by_workers == 27
}
