//! The program `gz_tables`: rows on standard input, each of which says what reads a text, what has to come of it, and the
//! text, with a tab between each two. It prints each row that differs, with what came, and then how many rows agree.
//!
//! ```text
//! part<TAB>bad name journals[0].name<TAB>{"journals":[{"name":"a//b"}]}
//! ```
#![tactic(auto)]

mod reading;
mod replaying;
mod row;

use gz_base::{LineError, LineReader, StdSource};
use row::{Verdict, judge};
use std::io;
use std::process::ExitCode;

/// The most rows, and the most bytes of one.
const MAX_ROWS: u64 = 100_000;

const MAX_ROW: usize = 4_194_304;

/// How many rows agree and how many don't, once all are judged. Each that doesn't is printed with its number, from 1.
fn judge_all(rt: &HostRuntime) -> io::Result<Result<(u64, u64), LineError>> {
    let alloc = rt.alloc();
    let mut source = StdSource::new(rt.reader());
    let mut lines = match LineReader::new(alloc) {
        Ok(lines) => lines,
        Err(e) => return Ok(Err(e.into())),
    };
    let (mut agree, mut differ) = (0_u64, 0_u64);
    for number in 1..MAX_ROWS {
        let line = match lines.next_line(alloc, &mut source, MAX_ROW) {
            Ok(Some(line)) => line,
            Ok(None) => break,
            Err(e) => return Ok(Err(e)),
        };
        match judge(alloc, line.as_slice()) {
            Ok(Verdict::Agrees) => agree = agree.saturating_add(1),
            Ok(Verdict::Differs { came }) => {
                differ = differ.saturating_add(1);
                println!(rt; "row {number}: {came}")?;
            }
            Err(e) => return Ok(Err(e.into())),
        }
    }
    Ok(Ok((agree, differ)))
}

fn main(rt: HostRuntime) -> ExitCode {
    match judge_all(&rt) {
        Ok(Ok((agree, differ))) => {
            if println!(&rt; "{agree} rows agree, {differ} differ").is_err() {
                return ExitCode::from(10);
            }
            ExitCode::from(if differ == 0 { 0 } else { 1 })
        }
        _ => ExitCode::from(10),
    }
}
