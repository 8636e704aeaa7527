//! The program `gz_logs`. It reads rows of recovery logs, one a line as JSON, plays each log in pieces of 1, of 7 and of
//! all bytes, and writes how many rows there are, how many of them say what comes of the log, and the numbers of the
//! first that don't.
#![tactic(auto)]

mod outcome;
mod row;
mod values;

use crate::row::agrees;
use gz_base::{LineError, LineReader, Source, StdSource};
use gz_label::NoMemory;
use std::alloc::Global;
use std::io;
use std::process::ExitCode;

/// The most bytes of a row.
const MAX_ROW: usize = 1_048_576;

/// How many rows that don't agree are named.
const NAMED: usize = 10;

/// What came of the rows: how many there are, how many agree, and the numbers of the first that don't, from 1.
#[derive(Drop)]
struct Tally {
    rows: u64,
    agree: u64,
    others: Vec<u64>,
}

impl Tally {
    fn new(alloc: Global) -> Tally {
        Tally {
            rows: 0,
            agree: 0,
            others: Vec::new(alloc),
        }
    }

    /// Counts the row.
    fn count(&mut self, agrees: bool) -> Result<(), NoMemory> {
        self.rows = self.rows.saturating_add(1);
        if agrees {
            self.agree = self.agree.saturating_add(1);
        } else if self.others.len() < NAMED {
            self.others.push(self.rows)?;
        }
        Ok(())
    }
}

/// Looks at all rows of the input. None where it fails, or a row is too long.
fn look<S: Source>(alloc: Global, input: &mut S) -> Result<Option<Tally>, NoMemory> {
    let mut tally = Tally::new(alloc);
    let mut lines = LineReader::new(alloc)?;
    for _ in 0..u64::MAX {
        match lines.next_line(alloc, input, MAX_ROW) {
            Ok(Some(line)) => {
                let agrees = agrees(alloc, line.as_slice())?;
                tally.count(agrees)?;
            }
            Ok(None) => return Ok(Some(tally)),
            Err(LineError::NoMemory) => return Err(NoMemory),
            Err(_) => return Ok(None),
        }
    }
    Ok(None)
}

/// Writes what came of the rows.
fn tell(rt: &HostRuntime, tally: &Tally) -> io::Result<()> {
    let rows = tally.rows;
    let agree = tally.agree;
    println!(rt; "{agree} of {rows} logs agree")?;
    for number in &tally.others {
        println!(rt; "row {number} doesn't")?;
    }
    Ok(())
}

/// Looks at all rows. The status is 0 where all agree, 1 where some don't, 2 where the input can't be read.
fn run(rt: &HostRuntime) -> io::Result<u8> {
    let mut input = StdSource::new(rt.reader());
    match look(rt.alloc(), &mut input) {
        Ok(Some(tally)) => {
            tell(rt, &tally)?;
            Ok((tally.agree < tally.rows) as u8)
        }
        Ok(None) => Ok(2),
        Err(NoMemory) => Ok(10),
    }
}

fn main(rt: HostRuntime) -> ExitCode {
    match run(&rt) {
        Ok(status) => ExitCode::from(status),
        Err(_) => ExitCode::from(10),
    }
}
