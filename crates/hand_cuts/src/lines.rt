//! The lines of some bytes, one after another.

ghost use Rattle.std.specs.Prelude.{◌≡◌, ◌≤◌, ◌+◌, IfNone, IfSome};
ghost use Rattle.hand_cuts.specs.Scans.{HandsOut, IsScan, NoUnit, number_bound};
ghost use Rattle.hand_cuts.specs.declared.units.CutKind.TheVariants.{Lines};

use crate::limits::INPUT_MAX;
use crate::scan::{Scan, end_of_line};
use crate::units::Unit;

/// Returns the next line. A line without a newline counts only when the stream is closed.
pub(crate) fn cut_line(bytes: &[u8], closed: bool, scan: &mut Scan) -> Option<Unit>
    // The scan is that of these bytes, the numbers of their lines fit, and each examined line was
    // handed out.
    requires scan { IsScan bytes.now scan.old }
    requires few { number_bound bytes.now scan.old ≤ INPUT_MAX + 1 }
    requires none { scan.old.looked ≡ scan.old.at }

    // This remains so.
    ensures scan { IsScan bytes.now scan.new }
    ensures few { number_bound bytes.now scan.new ≤ number_bound bytes.now scan.old }
    ensures looked { scan.new.looked ≡ scan.new.at }

    // The first line of the rest is returned, and `None` exactly if the rest has none.
    ensures none { IfNone result (NoUnit Lines closed bytes.now scan.old scan.new) }
    ensures some { IfSome result (λ unit. HandsOut Lines closed bytes.now scan.old scan.new unit) }
{
    if let Some(next) = end_of_line(bytes, scan.looked, scan.searched) {
        let unit = Unit {
            first: scan.looked,
            end: next,
            first_line: scan.number,
        };
        scan.pass(next);
        scan.go_on();
        return Some(unit);
    }
    scan.searched = bytes.len();
    if !closed || scan.looked == bytes.len() {
        return None;
    }
    let unit = Unit {
        first: scan.looked,
        end: bytes.len(),
        first_line: scan.number,
    };
    scan.finish(bytes.len());
    Some(unit)
}
