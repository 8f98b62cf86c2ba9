//! The program: hands its words, its standard input and its standard output to the top call, and ends with the status.
#![tactic(auto)]

use hv_io::{StdSink, StdSource};
use hv_top::{NO_MEMORY, USAGE, virtualize};
use std::env::{self, Env};
use std::io::{self, ErrorKind};
use std::process::ExitCode;

fn main(rt: HostRuntime) -> ExitCode {
    let words = match words(&rt) {
        Ok(words) => words,
        Err(error) if error.kind() == ErrorKind::OutOfMemory => return ExitCode::from(NO_MEMORY),
        Err(_) => return ExitCode::from(USAGE),
    };
    let mut source = StdSource::new(rt.stdin());
    let mut sink = StdSink::new(rt.stdout());
    ExitCode::from(virtualize(rt.alloc(), &words, &mut source, &mut sink))
}

// The words after the program's name. A word that isn't text is none that the program knows.
fn words(rt: &(impl Env + AllocGlobal)) -> io::Result<Vec<String>> {
    let mut words = Vec::new(rt.alloc());
    for word in env::args(rt)?.skip(1) {
        words.push(word)?;
    }
    Ok(words)
}
