//! Rows, and whether what comes of one is what it says.
use crate::reading::{event_of, join_of, part_of, specs_of};
use crate::replaying::report_of;
use gz_label::NoMemory;
use std::alloc::Global;

/// Whether a row says what comes, and what came where it doesn't.
#[derive(Debug, Drop)]
pub enum Verdict {
    Agrees,
    Differs { came: String },
}

/// The text between the first tab and the next ones, and what stands before it.
#[derive(Drop)]
struct Row<'a> {
    what: &'a str,
    want: &'a str,
    text: &'a str,
}

/// The row that a line says, or None where it has fewer than two tabs.
fn row_of<'a>(line: &'a str) -> Option<Row<'a>> {
    let (what, rest) = line.split_once('\t')?;
    let (want, text) = rest.split_once('\t')?;
    Some(Row { what, want, text })
}

/// What comes of the text.
fn outcome(alloc: Global, what: &str, text: &str) -> Result<String, NoMemory> {
    match what.split_once(' ') {
        Some(("event", number)) => match number.parse::<u64>() {
            Ok(number) => event_of(alloc, number, text),
            Err(_) => Ok(String::from_str(alloc, "no number of a line")?),
        },
        _ => match what {
            "part" => part_of(alloc, text),
            "specs" => specs_of(alloc, text),
            "join" => join_of(alloc, text),
            "replay" => report_of(alloc, text),
            _ => Ok(String::from_str(alloc, "no such reader")?),
        },
    }
}

/// Judges a line, with or without its newline.
pub fn judge(alloc: Global, line: &[u8]) -> Result<Verdict, NoMemory> {
    let Ok(line) = str::from_utf8(line) else {
        let came = String::from_str(alloc, "the row isn't UTF-8")?;
        return Ok(Verdict::Differs { came });
    };
    let Some(row) = row_of(line.trim_end_matches('\n')) else {
        let came = String::from_str(alloc, "the row has fewer than two tabs")?;
        return Ok(Verdict::Differs { came });
    };
    let came = outcome(alloc, row.what, row.text)?;
    if came.as_str() == row.want {
        return Ok(Verdict::Agrees);
    }
    Ok(Verdict::Differs { came })
}
