//! The program `equity`: takes the words of its command line, runs them over the standard streams, and
//! ends with the status of the run. It prints nothing itself.
#![tactic(auto)]

use byte_ends::{StdSink, StdSource};
use run_engine::run;
use std::io::ErrorKind;
use std::process::ExitCode;
use std::{env, io};
use steal_pool::OpenGate;

/// The status if memory is refused while the words are read.
const NO_MEMORY: u8 = 6;

/// The status if the words can't be read for another reason, such as a word that isn't UTF-8.
const NO_WORDS: u8 = 7;

/// Returns the words of the command line, without the program's name.
fn words_of(rt: &HostRuntime) -> io::Result<Vec<String>> {
    let mut words = Vec::new(rt.alloc());
    for word in env::args(rt)?.skip(1) {
        words.push(word)?;
    }
    Ok(words)
}

fn main(rt: HostRuntime) -> ExitCode {
    let words = match words_of(&rt) {
        Ok(words) => words,
        Err(error) if error.kind() == ErrorKind::OutOfMemory => return ExitCode::from(NO_MEMORY),
        Err(_) => return ExitCode::from(NO_WORDS),
    };
    let mut source = StdSource::new(rt.stdin());
    let mut sink = StdSink::new(rt.stdout());
    ExitCode::from(run(&rt, rt.alloc(), &words, &mut source, &mut sink, &OpenGate))
}
