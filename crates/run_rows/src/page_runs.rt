//! Runs for a page: what they write into buffers of several sizes, and what they return for bytes that
//! aren't words.

use crate::ends::faults::SPOT;
use crate::runs::row_text;
use run_engine::run_page;
use std::alloc::Global;
use std::test::Fail;

/// The value in the length of the report before a run.
const BEFORE: usize = 77;

/// A mode, the size of the buffer, the status, and the length of the report. The report of `spots` has 153
/// bytes. The usage line, which a word that is no mode gives, has 76.
const ROOMS: &[(&[u8], usize, u8, usize)] = &[
    (b"spots", 4096, 0, 153),
    (b"spots", 153, 0, 153),
    (b"spots", 152, 4, 152),
    (b"spots", 0, 4, 0),
    (b"spot", 76, 2, 76),
    (b"spot", 75, 4, 75),
    (b"spot\xff", 4096, 7, BEFORE),
];

/// Returns the status of a run over the spot with a buffer of `size` bytes, and the length of its report.
fn in_room(alloc: Global, mode: &[u8], size: usize) -> Result<(u8, usize), Fail> {
    let mut room: Vec<u8> = Vec::new(alloc);
    room.resize(size, 0)?;
    let mut written = BEFORE;
    let status = run_page(
        alloc,
        mode,
        b"text",
        SPOT.as_bytes(),
        &mut written,
        &mut room,
    );
    Ok((status, written))
}

#[test]
fn a_run_for_a_page_fills_its_room(rt: HostRuntime) -> Result<(), Fail> {
    for (mode, size, status, length) in ROOMS {
        let (ended, written) = in_room(rt.alloc(), mode, *size)?;
        let mode = row_text(mode);
        assert_eq!(rt; ended, *status, "the status of {mode} with {size} bytes");
        assert_eq!(rt; written, *length, "the length of {mode} with {size} bytes");
    }
    Ok(())
}
