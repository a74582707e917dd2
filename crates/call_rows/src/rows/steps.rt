//! Counters of steps.

ghost use Rattle.std.specs.Prelude.{◌≡◌, ◌+◌, ◌<◌, length};

use std::marker::Brand;
use std::sync::ledger::{Blank, Ledger};
use std::test::Fail;
use step_count::Steps;

/// Returns the greatest of the bytes, or 0 if there are none. A step is one byte that is examined.
fn greatest<L: Ledger>(bytes: &[u8], steps: &mut Steps<L>) -> u8
    ensures { steps.new ≡ steps.old + length bytes.now }
{
    let mut greatest = 0;
    for byte in bytes {
        steps.tick();
        if *byte > greatest {
            greatest = *byte;
        }
    }
    greatest
}

/// Returns the greatest byte of two lists. Its steps are those of both lists.
fn greatest_of_two<L: Ledger>(left: &[u8], right: &[u8], steps: &mut Steps<L>) -> u8
    ensures { steps.new ≡ steps.old + length left.now + length right.now }
{
    greatest(left, steps).max(greatest(right, steps))
}

/// Returns what `greatest_of_two` returns, with a counter of its own that begins at 0.
fn greatest_counted<L: Ledger>(left: &[u8], right: &[u8], blank: Blank) -> u8
    requires name { blank.name ≡ L.name }
    requires parts { blank.parts ≡ L.parts }
    requires some { 0 < blank.parts }
{
    let mut steps = Steps::<L>::new(blank);
    greatest_of_two(left, right, &mut steps)
}

#[test]
fn a_loop_is_counted_where_nobody_asks(rt: HostRuntime) -> Result<(), Fail> {
    assert_eq!(rt;
        greatest_counted::<Brand>(&[3, 9, 4], &[8, 1], Blank::new(1)),
        9,
        "the greatest byte of both lists"
    );
    Ok(())
}

#[test]
fn the_counter_takes_no_bytes(rt: HostRuntime) -> Result<(), Fail> {
    assert_eq!(rt;
        std::mem::size_of::<Steps<Brand>>(),
        0,
        "the bytes of a counter"
    );
    Ok(())
}
