//! Runs the cases of the files that its words name, each by `run_alone` and by `run`, over memory. For
//! each file it prints whether all cases end and write as they say, or the case that doesn't. A case is
//! text, so anyone can add one without a prover. The head of [`cases`] says how a case is written.
#![tactic(auto)]

mod cases;
mod trials;

use crate::cases::{Case, CaseFault, read_cases};
use crate::trials::{Ran, run_by_one, run_by_workers};
use card_sets::Memory;
use std::alloc::Global;
use std::process::ExitCode;
use std::rt::Files;
use std::sync::Wait;
use std::thread::Threads;
use std::{env, fs, io};

/// The status if the result of a case isn't the expected one.
const DIFFERENT: u8 = 1;

/// The status if a file can't be read, isn't in form, or has no case, and if memory is refused.
const NOT_READ: u8 = 2;

/// A run or a file without a result, because memory or the system failed.
#[derive(Drop)]
struct Failed;

impl From<io::Error> for Failed {
    fn from(_error: io::Error) -> Failed {
        Failed
    }
}

impl From<Memory> for Failed {
    fn from(_error: Memory) -> Failed {
        Failed
    }
}

/// Prints how a run differs from its case, if it does. Returns whether it doesn't.
fn judge(rt: &impl Print, file: &str, case: &Case, ran: &Ran, by: &str) -> io::Result<bool> {
    if ran.is_as_told(case) {
        return Ok(true);
    }
    let name = case.name.as_str();
    if ran.status == case.status {
        println!(rt; "{file}: {name}: {by} it writes another report")?;
    } else {
        let (status, wanted) = (ran.status, case.status);
        println!(rt; "{file}: {name}: {by} it ends with {status} and not with {wanted}")?;
    }
    Ok(false)
}

/// Runs a case in both ways. Returns whether its result is the expected one.
fn try_case<R: Threads + Wait + Sync + Print>(
    rt: &R,
    alloc: Global,
    file: &str,
    case: &Case,
) -> Result<bool, Failed> {
    let alone = run_by_one(alloc, case)?;
    let shared = run_by_workers(rt, alloc, case)?;
    let is_alone = judge(rt, file, case, &alone, "by one worker")?;
    let is_shared = judge(rt, file, case, &shared, "by two workers")?;
    Ok(is_alone && is_shared)
}

/// Runs all cases. Returns whether each result is the expected one.
fn try_cases<R: Threads + Wait + Sync + Print>(
    rt: &R,
    alloc: Global,
    file: &str,
    cases: &[Case],
) -> Result<bool, Failed> {
    let mut are_all = true;
    for case in cases {
        let is_so = try_case(rt, alloc, file, case)?;
        are_all = are_all && is_so;
    }
    Ok(are_all)
}

/// Runs the cases of a file that was read, and prints the result. Returns the status.
fn try_text<R: Threads + Wait + Sync + Print>(
    rt: &R,
    alloc: Global,
    file: &str,
    text: &str,
) -> Result<u8, Failed> {
    let cases = match read_cases(alloc, text) {
        Ok(cases) => cases,
        Err(CaseFault::Line(number)) => {
            println!(rt; "{file}: line {number} isn't in form")?;
            return Ok(NOT_READ);
        }
        Err(CaseFault::Memory) => return Err(Failed),
    };
    if cases.is_empty() {
        println!(rt; "{file}: it has no case")?;
        return Ok(NOT_READ);
    }
    if try_cases(rt, alloc, file, cases.as_slice())? {
        println!(rt; "{file}: each case ends and writes as it says")?;
        return Ok(0);
    }
    Ok(DIFFERENT)
}

/// Runs the cases of all files. Returns the greatest status.
fn try_files<R: Threads + Wait + Sync + Print + Files + AllocGlobal>(
    rt: &R,
    files: &[String],
) -> Result<u8, Failed> {
    let mut status = 0;
    for file in files {
        let text = fs::read_to_string(rt, file.as_str())?;
        let of_file = try_text(rt, rt.alloc(), file.as_str(), text.as_str())?;
        status = status.max(of_file);
    }
    Ok(status)
}

/// Returns the files that the words name.
fn files_of(rt: &HostRuntime) -> io::Result<Vec<String>> {
    let mut files = Vec::new(rt.alloc());
    for word in env::args(rt)?.skip(1) {
        files.push(word)?;
    }
    Ok(files)
}

fn main(rt: HostRuntime) -> ExitCode {
    let files = match files_of(&rt) {
        Ok(files) if !files.is_empty() => files,
        _ => return ExitCode::from(NOT_READ),
    };
    match try_files(&rt, files.as_slice()) {
        Ok(status) => ExitCode::from(status),
        Err(_) => ExitCode::from(NOT_READ),
    }
}
