//! Sheets of many records, which are longer than the buffer of their writer.

use report_table::{Form, Sheet};
use std::alloc::Global;
use std::test::Fail;

/// Lines, each with its words, its name, and its record: the words from the left, empty fields, and the
/// name as the thirteenth field. A field with a quote, a comma, or an end of a line is put between quotes,
/// and its quotes are doubled.
const LINES: &[(&[&str], &str, &str)] = &[
    (&["one"], "name", "one,,,,,,,,,,,,name\n"),
    (
        &[
            "1", "2", "3", "4", "5", "6", "7", "8", "9", "10", "11", "12",
        ],
        "",
        "1,2,3,4,5,6,7,8,9,10,11,12,\n",
    ),
    (
        &["a \"b\"", "", "c,d"],
        "e\r\nf",
        "\"a \"\"b\"\"\",,\"c,d\",,,,,,,,,,\"e\r\nf\"\n",
    ),
    (&[], "alone", ",,,,,,,,,,,,alone\n"),
];

/// How often the lines are repeated.
const TIMES: usize = 400;

/// Writes each line once.
fn write_lines(sheet: &mut Sheet) -> Result<(), Fail> {
    for (words, name, _) in LINES {
        for word in *words {
            sheet.word(word.as_bytes())?;
        }
        sheet.end_with(name.as_bytes())?;
    }
    Ok(())
}

/// Returns the bytes of a sheet of many records.
fn sheet_of(alloc: Global) -> Result<Vec<u8>, Fail> {
    let mut sheet = Sheet::new(alloc, Form::Csv);
    for _ in 0..TIMES {
        write_lines(&mut sheet)?;
    }
    let mut out = Vec::new(alloc);
    sheet
        .append_to(&mut out)
        .map_err(|_| "no memory for the sheet")?;
    Ok(out)
}

/// Returns the records of the table, one after another.
fn records_of(alloc: Global) -> Result<Vec<u8>, Fail> {
    let mut records = Vec::new(alloc);
    for _ in 0..TIMES {
        for (_, _, record) in LINES {
            records.extend_from_slice(record.as_bytes())?;
        }
    }
    Ok(records)
}

#[test]
fn a_sheet_of_many_records_has_thirteen_fields_in_each(rt: HostRuntime) -> Result<(), Fail> {
    let written = sheet_of(rt.alloc())?;
    assert!(rt;
        written.as_slice() == records_of(rt.alloc())?.as_slice(),
        "the sheet has the records of the table, 400 times"
    );
    Ok(())
}
