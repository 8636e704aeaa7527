//! The program `gazette`.
#![tactic(auto)]

use gz_base::{Exit, StdSink, StdSource};
use gz_ctl::gazctl;
use std::process::ExitCode;
use std::{env, io};

/// The words behind the program's name. Words that aren't UTF-8 are no command, and stand for none.
fn words(rt: &HostRuntime) -> io::Result<Vec<String>> {
    let mut words = Vec::new(rt.alloc());
    match env::args(rt) {
        Ok(args) => {
            for word in args.skip(1) {
                words.push(word)?;
            }
        }
        Err(e) if e.kind() == io::ErrorKind::InvalidData => {}
        Err(e) => return Err(e),
    }
    Ok(words)
}

/// Runs the command that the words are, over the standard streams.
fn run(rt: &HostRuntime) -> io::Result<Exit> {
    let words = words(rt)?;
    let mut input = StdSource::new(rt.reader());
    let mut output = StdSink::new(io::writer(rt));
    Ok(gazctl(rt.alloc(), words.as_slice(), &mut input, &mut output))
}

fn main(rt: HostRuntime) -> ExitCode {
    match run(&rt) {
        Ok(exit) => ExitCode::from(exit.status()),
        Err(_) => ExitCode::from(Exit::NoMemory.status()),
    }
}
