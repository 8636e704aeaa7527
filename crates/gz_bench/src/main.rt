//! The program `gz_bench WORK COUNT`, which gives one of the crates work, so that a script can time it. It writes how
//! much came of the work. `bench/crates` runs it.
#![tactic(auto)]

mod agreement;
mod converges;
mod fragments;
mod journals;
mod keys;
mod logs;
mod messages;
mod placements;
mod specifications;
mod spellings;
mod transactions;

use gz_label::NoMemory;
use std::alloc::Global;
use std::process::ExitCode;
use std::{env, io};

const USAGE: &str =
    "usage: gz_bench lines|feed|append|read|txn|fragments|play|commit|specs|wire|large|place|keep|converge|agree COUNT";

/// What came of the work, or None where there is no such work.
fn done(alloc: Global, work: &str, count: u32) -> Result<Option<u64>, NoMemory> {
    let much = match work {
        "lines" => messages::print_and_read(alloc, count)?,
        "feed" => transactions::feed_all(alloc, count)?,
        "append" => journals::append_all(alloc, count)?,
        "read" => journals::read_all(alloc, count)?,
        "txn" => keys::write_all(alloc, count)?,
        "fragments" => fragments::cover_all(alloc, count)?,
        "play" => logs::play_all(alloc, count)?,
        "commit" => logs::commit_all(alloc, count)?,
        "place" => placements::place_all(alloc, count)?,
        "keep" => placements::place_again(alloc, count)?,
        "converge" => converges::converge_all(alloc, count)?,
        "specs" => specifications::read_and_print(alloc, count)?,
        "wire" => spellings::spell_all(alloc, count)?,
        "large" => spellings::spell_large(alloc, count)?,
        "agree" => agreement::agree(alloc, count)?,
        _ => return Ok(None),
    };
    Ok(Some(much))
}

/// The words behind the program's name.
fn words(rt: &HostRuntime) -> io::Result<Vec<String>> {
    let mut words = Vec::new(rt.alloc());
    for word in env::args(rt)?.skip(1) {
        words.push(word)?;
    }
    Ok(words)
}

/// Runs the work of the words, and writes what came of it. The status is 0 where it did.
fn run(rt: &HostRuntime) -> io::Result<u8> {
    let words = words(rt)?;
    let [work, count] = words.as_slice() else {
        rt.println(USAGE)?;
        return Ok(2);
    };
    let Ok(number) = count.as_str().parse::<u32>() else {
        rt.println(USAGE)?;
        return Ok(2);
    };
    match done(rt.alloc(), work.as_str(), number) {
        Ok(Some(much)) => {
            println!(rt; "{much}")?;
            Ok(0)
        }
        Ok(None) => {
            rt.println(USAGE)?;
            Ok(2)
        }
        Err(NoMemory) => Ok(10),
    }
}

fn main(rt: HostRuntime) -> ExitCode {
    match run(&rt) {
        Ok(status) => ExitCode::from(status),
        Err(_) => ExitCode::from(10),
    }
}
